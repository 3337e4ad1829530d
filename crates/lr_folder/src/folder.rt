//! The calls of a store on a folder. Nothing here counts: an error says that the system failed or that the folder isn't
//! as it should be, and `lib` counts it.

use crate::listing::keys_in;
use crate::path::FilePath;
use lr_origin::{OriginError, OriginFailed, Put};
use std::alloc::Global;
use std::collections::BTreeSet;
use std::fs::{File, Metadata};
use std::io::{ErrorKind, Read, Write};
use std::ops::Bound;
use std::{fs, io};

// Bytes of an object.
const BODY_MAX: usize = 4_194_304;

/// A folder, held from the first call on.
#[derive(Drop)]
pub struct Folder {
    rt: HostRuntime,
    path: String,
    // The open folder, which has the lock.
    held: Option<File>,
    // The keys, once they were listed; none again after a failed change.
    keys: Option<BTreeSet<Vec<u8>>>,
}

// What there is of a file and of the folders on the way to it.
#[derive(Clone, Copy)]
struct Found {
    // Where the innermost folder on the way that is there ends.
    reached: usize,
    // The length of the file, if it is there.
    len: Option<usize>,
}

fn failed(_: io::Error) -> OriginError {
    OriginError::Failed
}

fn failed_or_no_memory(error: io::Error) -> OriginError {
    if error.kind() == ErrorKind::OutOfMemory {
        OriginError::OutOfMemory
    } else {
        OriginError::Failed
    }
}

// Whether the error says that there is nothing under the path.
fn is_absent(error: &io::Error) -> bool {
    error.kind() == ErrorKind::NotFound || error.kind() == ErrorKind::NotADirectory
}

fn invalid() -> io::Error {
    io::Error::from(ErrorKind::InvalidInput)
}

// What there is under a path, itself and not what a link there leads to.
fn look(rt: &HostRuntime, path: &str) -> io::Result<Option<Metadata>> {
    match fs::symlink_metadata(rt, path) {
        Ok(found) => Ok(Some(found)),
        Err(error) if is_absent(&error) => Ok(None),
        Err(error) => Err(error),
    }
}

// Where the innermost folder on the way to a file that is there ends. A file in the place of a folder ends the way, and a link is an error.
fn reach(rt: &HostRuntime, path: &FilePath) -> io::Result<usize> {
    let (start, end) = path.ends();
    let mut reached = start;
    for at in start..end {
        let Some(folder) = path.inner_folder_at(at) else {
            continue;
        };
        match look(rt, folder)? {
            Some(found) if found.is_dir() => reached = at,
            Some(found) if !found.is_file() => {
                return Err(io::Error::from(ErrorKind::InvalidData));
            }
            _ => return Ok(reached),
        }
    }
    Ok(reached)
}

// What there is of a file: one of at most so many bytes, or none. Anything else in its place is an error.
fn find(rt: &HostRuntime, path: &FilePath) -> io::Result<Found> {
    let reached = reach(rt, path)?;
    let Some(found) = look(rt, path.text().ok_or_else(invalid)?)? else {
        return Ok(Found { reached, len: None });
    };
    if !found.is_file() || found.len() > BODY_MAX as u64 {
        return Err(io::Error::from(ErrorKind::InvalidData));
    }
    let len = Some(found.len() as usize);
    Ok(Found { reached, len })
}

// A new file. One that was left under its name is removed, so that nothing is written through a link.
fn make_file(rt: &HostRuntime, path: &str) -> io::Result<File> {
    match File::create_new(rt, path) {
        Err(error) if error.kind() == ErrorKind::AlreadyExists => {
            fs::remove_file(rt, path)?;
            File::create_new(rt, path)
        }
        made => made,
    }
}

// Writes a file anew, and syncs it.
fn write_file(rt: &HostRuntime, path: &str, body: &[u8]) -> io::Result<()> {
    let mut file = make_file(rt, path)?;
    file.write_all(body)?;
    file.sync_all()
}

// Makes the folders on the way to a file past the one that ends here.
fn make_folders(rt: &HostRuntime, path: &FilePath, reached: usize) -> io::Result<()> {
    let (_, end) = path.ends();
    for at in reached..end {
        match path.folder_at(at) {
            Some(folder) if at > reached => fs::create_dir(rt, folder)?,
            _ => {}
        }
    }
    Ok(())
}

// Syncs the folders on the way to a file from the one that ends here on, so that what they list now outlives a power cut. One that isn't
// there lists nothing.
fn sync_folders(rt: &HostRuntime, path: &FilePath, first: usize) -> io::Result<()> {
    let (_, end) = path.ends();
    for at in first..end {
        if let Some(folder) = path.folder_at(at) {
            match File::open(rt, folder) {
                Ok(folder) => folder.sync_all()?,
                Err(error) if is_absent(&error) => return Ok(()),
                Err(error) => return Err(error),
            }
        }
    }
    Ok(())
}

impl Folder {
    pub fn new(rt: &HostRuntime, path: String) -> Folder {
        Folder {
            rt: *rt,
            path,
            held: None,
            keys: None,
        }
    }

    // Opens the folder and takes its lock, where this wasn't done yet. It doesn't wait for the lock.
    fn hold(&mut self) -> io::Result<()> {
        if self.held.is_some() {
            return Ok(());
        }
        if !fs::metadata(&self.rt, self.path.as_str())?.is_dir() {
            return Err(io::Error::from(ErrorKind::NotADirectory));
        }
        let folder = File::open(&self.rt, self.path.as_str())?;
        folder.try_lock()?;
        self.held = Some(folder);
        Ok(())
    }

    /// The body of the file of this key, if there is one.
    pub fn get(&mut self, alloc: Global, key: &[u8]) -> Result<Option<Vec<u8>>, OriginError> {
        self.hold().map_err(failed)?;
        let Some(path) = FilePath::of_key(self.path.as_str(), key) else {
            return Err(OriginError::Failed);
        };
        let found = find(&self.rt, &path).map_err(failed)?;
        let (Some(len), Some(text)) = (found.len, path.text()) else {
            return Ok(None);
        };
        let mut body = Vec::new(alloc);
        body.resize(len, 0)?;
        let mut file = File::open(&self.rt, text).map_err(failed)?;
        file.read_exact(&mut body).map_err(failed)?;
        Ok(Some(body))
    }

    /// Writes the file of this key, where there is none yet.
    pub fn put(&mut self, alloc: Global, key: &[u8], body: &[u8]) -> Result<Put, OriginError> {
        self.hold().map_err(failed)?;
        let mut is_listed = false;
        if let Some(keys) = &mut self.keys {
            is_listed = !keys.insert(key.to_vec(alloc)?)?;
        }
        match self.write(key, body, is_listed) {
            Ok(put) => Ok(put),
            Err(_) => {
                self.keys = None;
                Err(OriginError::Failed)
            }
        }
    }

    // The first folder on the way to a file that a call syncs. Once the keys were listed every folder that is there is synced, so that
    // it is the first that the call changes; else it is the store's own.
    fn first_synced(&self, path: &FilePath, changed: usize) -> usize {
        let (start, _) = path.ends();
        if self.keys.is_some() { changed } else { start }
    }

    // The file is written under another name first, so that no file of a key is ever half written.
    fn write(&self, key: &[u8], body: &[u8], is_listed: bool) -> io::Result<Put> {
        let path = FilePath::of_key(self.path.as_str(), key).ok_or_else(invalid)?;
        let temporary = FilePath::temporary(self.path.as_str()).ok_or_else(invalid)?;
        let text = path.text().ok_or_else(invalid)?;
        let temporary = temporary.text().ok_or_else(invalid)?;
        let found = find(&self.rt, &path)?;
        if found.len.is_some() {
            if !is_listed {
                let (start, _) = path.ends();
                sync_folders(&self.rt, &path, start)?;
            }
            return Ok(Put::Present);
        }
        if body.len() > BODY_MAX {
            return Err(invalid());
        }
        write_file(&self.rt, temporary, body)?;
        make_folders(&self.rt, &path, found.reached)?;
        fs::rename(&self.rt, temporary, text)?;
        sync_folders(&self.rt, &path, self.first_synced(&path, found.reached))?;
        Ok(Put::Stored)
    }

    /// Removes the file of this key, where there is one.
    pub fn delete(&mut self, key: &[u8]) -> Result<(), OriginFailed> {
        match self.remove(key) {
            Ok(()) => {
                if let Some(keys) = &mut self.keys {
                    keys.remove(key);
                }
                Ok(())
            }
            Err(_) => {
                self.keys = None;
                Err(OriginFailed)
            }
        }
    }

    fn remove(&mut self, key: &[u8]) -> io::Result<()> {
        self.hold()?;
        let path = FilePath::of_key(self.path.as_str(), key).ok_or_else(invalid)?;
        let text = path.text().ok_or_else(invalid)?;
        let found = find(&self.rt, &path)?;
        if found.len.is_some() {
            fs::remove_file(&self.rt, text)?;
        } else if self.keys.is_some() {
            return Ok(());
        }
        sync_folders(&self.rt, &path, self.first_synced(&path, found.reached))
    }

    /// The least key above `after`, or the least key of all.
    pub fn next_key(
        &mut self,
        alloc: Global,
        after: Option<&[u8]>,
    ) -> Result<Option<Vec<u8>>, OriginError> {
        self.hold().map_err(failed)?;
        if self.keys.is_none() {
            let keys = keys_in(&self.rt, alloc, self.path.as_str()).map_err(failed_or_no_memory)?;
            self.keys = Some(keys);
        }
        let Some(keys) = &self.keys else {
            return Err(OriginError::Failed);
        };
        let next = match after {
            None => keys.first(),
            Some(key) => {
                let key = key.to_vec(alloc)?;
                keys.range((Bound::Excluded(&key), Bound::Unbounded)).next()
            }
        };
        match next {
            Some(key) => Ok(Some(key.to_vec(alloc)?)),
            None => Ok(None),
        }
    }
}
