//! The keys of a folder's files.

use crate::path::TEMPORARY;
use std::alloc::Global;
use std::collections::BTreeSet;
use std::fs::File;
use std::io::ErrorKind;
use std::{fs, io};

/// The keys of all files under a folder, in byte order.
///
/// It reads each folder once, and syncs it first, so that what is found outlives a power cut. It fails for what is
/// neither a file nor a folder, for a folder in the place of the file that a put writes first, and for a name that isn't UTF-8.
pub fn keys_in(rt: &HostRuntime, alloc: Global, folder: &str) -> io::Result<BTreeSet<Vec<u8>>> {
    let mut keys = BTreeSet::new(alloc);
    let mut fronts = Vec::new(alloc);
    fronts.push(String::new(alloc))?;
    for _ in 0..u64::MAX {
        let Some(front) = fronts.pop() else {
            return Ok(keys);
        };
        read_folder(rt, alloc, folder, &front, &mut keys, &mut fronts)?;
    }
    Err(io::Error::from(ErrorKind::FileTooLarge))
}

// Adds the keys of one folder's files, which all begin with this front, and the fronts of the folders in it.
fn read_folder(
    rt: &HostRuntime,
    alloc: Global,
    folder: &str,
    front: &String,
    keys: &mut BTreeSet<Vec<u8>>,
    fronts: &mut Vec<String>,
) -> io::Result<()> {
    let mut path = String::from_str(alloc, folder)?;
    path.push('/')?;
    path.push_str(front.as_str())?;
    File::open(rt, path.as_str())?.sync_all()?;
    for entry in fs::read_dir(rt, path.as_str())? {
        let entry = entry?;
        let name = entry.file_name();
        let kind = entry.file_type()?;
        if front.is_empty() && name.as_bytes() == TEMPORARY {
            if kind.is_dir() {
                return Err(io::Error::from(ErrorKind::InvalidData));
            }
            continue;
        }
        let mut key = front.clone()?;
        key.push_str(name)?;
        if kind.is_dir() {
            key.push('/')?;
            fronts.push(key)?;
        } else if kind.is_file() {
            keys.insert(key.into_bytes())?;
        } else {
            return Err(io::Error::from(ErrorKind::InvalidData));
        }
    }
    Ok(())
}
