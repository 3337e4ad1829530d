//! The file of a key, as a path under the store's folder, made in place so that no call takes memory for it.

use std::str::from_utf8;

/// The name of the file that a put writes before it has its own name. It stands in the store's folder, and no key begins with it.
pub const TEMPORARY: &[u8] = b".tmp";

// The most bytes of a path that the system takes.
const PATH_MAX: usize = 4095;

/// A path of a file under a folder.
#[derive(Drop)]
pub struct FilePath {
    bytes: [u8; PATH_MAX],
    len: usize,
    folder_len: usize,
}

// Whether a key is a path under a folder: parts with a `/` between two, none empty and none a way up or to the same place.
fn is_path(key: &[u8]) -> bool {
    if key.contains(&0) {
        return false;
    }
    for part in key.split(|byte| *byte == b'/') {
        if part.is_empty() || part == b".".as_slice() || part == b"..".as_slice() {
            return false;
        }
    }
    true
}

// Whether a key is hidden, since its first part is the name of the file that a put writes first.
fn is_hidden(key: &[u8]) -> bool {
    match key.strip_prefix(TEMPORARY) {
        Some(rest) => rest.is_empty() || rest[0] == b'/',
        None => false,
    }
}

impl FilePath {
    /// The file of a key under this folder, or `None` where the key is no path under a folder, is hidden, or is too long.
    pub fn of_key(folder: &str, key: &[u8]) -> Option<FilePath> {
        if is_hidden(key) || !is_path(key) {
            return None;
        }
        FilePath::joined(folder, key)
    }

    /// The file under this folder that a put writes first.
    pub fn temporary(folder: &str) -> Option<FilePath> {
        FilePath::joined(folder, TEMPORARY)
    }

    fn joined(folder: &str, name: &[u8]) -> Option<FilePath> {
        let folder = folder.as_bytes();
        if folder.len() >= PATH_MAX || name.len() >= PATH_MAX - folder.len() {
            return None;
        }
        let start = folder.len() + 1;
        let len = start + name.len();
        let mut bytes = [0; PATH_MAX];
        bytes[..folder.len()].copy_from_slice(folder);
        bytes[folder.len()] = b'/';
        bytes[start..len].copy_from_slice(name);
        Some(FilePath {
            bytes,
            len,
            folder_len: folder.len(),
        })
    }

    /// The path as text, or `None` where it isn't UTF-8.
    pub fn text(&self) -> Option<&str> {
        self.front(self.len)
    }

    /// The places at which a folder on the way to the file may end, the store's own first.
    pub fn ends(&self) -> (usize, usize) {
        (self.folder_len, self.len)
    }

    /// The folder on the way to the file that ends here, if one does.
    pub fn folder_at(&self, end: usize) -> Option<&str> {
        match self.bytes.get(end) {
            Some(b'/') => self.front(end),
            _ => None,
        }
    }

    /// The same of the folders in the store's own.
    pub fn inner_folder_at(&self, end: usize) -> Option<&str> {
        if end > self.folder_len {
            self.folder_at(end)
        } else {
            None
        }
    }

    fn front(&self, len: usize) -> Option<&str> {
        from_utf8(self.bytes.get(..len)?).ok()
    }
}
