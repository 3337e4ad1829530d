//! A store in a folder, the trusted edge of the program beside its standard input and output.
//!
//! A key is a path of a file under the folder, and the file has the object's bytes. What a folder keeps no contract
//! knows: `DirOrigin` tells no objects, and proves only that each failure shows in its count. `folder` has the calls,
//! `listing` reads the keys, `path` makes the paths.
#![tactic(auto)]

ghost use Rattle.std.specs.Prelude.{◌≡◌, ◌≤◌, None, Err, IsErrOf};
ghost use Rattle.lr_spec.specs.Rose.{Rose};
ghost use Rattle.lr_origin.specs.declared.origin.OriginError.TheVariants as why;

mod folder;
mod listing;
mod path;

use folder::Folder;
use lr_origin::{Origin, OriginError, OriginFailed, Put};
use std::alloc::Global;

/// A store in a folder that is there. The first call takes the folder's lock, and the store holds it as long as it lives.
///
/// - A key is a path of a file under the folder. A get reads that file.
/// - A put writes the file `.tmp` of the folder, syncs it, makes the folders on the way that aren't there, gives the file the
///   key's name, and syncs each folder whose list that changed. So an acknowledged put outlives a power cut, where the file
///   system keeps its word, and one that is cut off is there whole or not at all. A put of a key that is there writes nothing. A
///   deletion removes the file and syncs the folder that had it.
/// - The keys are listed in byte order, without `.tmp`. The folders are read once, at the first listing, and again only after
///   a failed change. Each is synced before it is read; a change before the first listing syncs every folder on the way.
///
/// These count as failures: an error of the system; a folder that isn't there, or whose lock another store has; a file of
/// more than 4,194,304 bytes, or a body that long; what is neither a file nor a folder, as a link, in the place of a file or of a
/// folder on the way; a folder named `.tmp`, in a put and a listing; a name that isn't UTF-8; and a key that is no path under a
/// folder, as one with an empty part, `.`, `..` or a byte 0 is, or one whose first part is `.tmp`.
///
/// The lock is the system's own, on the open folder (`flock`): it goes with the program, however it ends, and nothing is left
/// of it. A file `.tmp` may be left, which the next put removes.
#[derive(Drop)]
pub struct DirOrigin {
    folder: Folder,
    faults: u64,
}

impl DirOrigin {
    /// The store in the folder at this path. It makes no call of the system yet.
    pub fn new(rt: &HostRuntime, path: String) -> Self
        ensures objects { ⟦<DirOrigin as Origin>⟧.objects result ≡ None }
        ensures faults { ⟦<DirOrigin as Origin>⟧.faults result ≡ 0 }
    {
        DirOrigin {
            folder: Folder::new(rt, path),
            faults: 0,
        }
    }

    // Counts a failure, and hands the error on.
    fn count(&mut self, error: OriginError) -> OriginError
        ensures same { result ≡ error }
        ensures never_falls { self.old.faults ≤ self.new.faults }
        ensures rose { error ≡ why.Failed → Rose self.old.faults self.new.faults }
    {
        if error == OriginError::Failed {
            self.faults = self.faults.saturating_add(1);
        }
        error
    }
}

impl Origin for DirOrigin {
    ghost objects = { λ _. None };

    ghost faults = { λ o. o.faults };

    fn get(&mut self, alloc: Global, key: &[u8]) -> Result<Option<Vec<u8>>, OriginError> {
        match self.folder.get(alloc, key) {
            Ok(body) => Ok(body),
            Err(error) => Err(self.count(error)),
        }
    }

    fn put(&mut self, alloc: Global, key: &[u8], body: &[u8]) -> Result<Put, OriginError> {
        match self.folder.put(alloc, key, body) {
            Ok(put) => Ok(put),
            Err(error) => Err(self.count(error)),
        }
    }

    fn delete(&mut self, key: &[u8]) -> Result<(), OriginFailed> {
        match self.folder.delete(key) {
            Ok(()) => Ok(()),
            Err(OriginFailed) => {
                self.faults = self.faults.saturating_add(1);
                Err(OriginFailed)
            }
        }
    }

    fn next_key(
        &mut self,
        alloc: Global,
        after: Option<&[u8]>,
    ) -> Result<Option<Vec<u8>>, OriginError> {
        match self.folder.next_key(alloc, after) {
            Ok(key) => Ok(key),
            Err(error) => Err(self.count(error)),
        }
    }
}
