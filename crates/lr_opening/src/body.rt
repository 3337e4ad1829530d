//! Bodies of objects, and what is kept of them.
ghost use Rattle.std.specs.Prelude.{◌↔◌, ℕ, List, IfOk, IsTrue};
ghost use Rattle.lr_origin.specs.declared.key.KeyKind.TheVariants as kind;
ghost use Rattle.lr_roots.specs.Sound.{IsNumbered};
ghost use Rattle.lr_opening.specs.Reading.{IsKeptOf};

use lr_manifest::{Manifest, ManifestError};
use lr_origin::KeyKind;
use lr_roots::{Kept, NUMBER_MAX};
use lr_spec::OutOfMemory;
use std::alloc::Global;
use std::sync::Arc;

fn kept_salt(body: &[u8]) -> Option<Kept>
    ensures { (r : ℕ) → IsKeptOf (kind.Root r) body.now result }
{
    if body.len() != 32 {
        return None;
    }
    let mut salt = [0; 32];
    salt.copy_from_slice(body);
    Some(Kept::Salt(salt))
}

// Whether the manifest was made in a root up to this one, and its creation number is within its limit.
fn is_numbered(manifest: &Manifest, root: u32) -> bool
    ensures { IsTrue result ↔ IsNumbered root manifest.now }
{
    1 <= manifest.root()
        && manifest.root() <= root
        && 1 <= manifest.number()
        && manifest.number() <= NUMBER_MAX
}

fn kept_manifest(alloc: Global, root: u32, body: &[u8]) -> Result<Option<Kept>, OutOfMemory>
    ensures { IfOk result (λ kept. (image : List ℕ) → IsKeptOf (kind.Manifest root image) body.now kept) }
{
    match Manifest::parse(alloc, body) {
        Ok(manifest) => {
            if !is_numbered(&manifest, root) {
                return Ok(None);
            }
            Ok(Some(Kept::Manifest(Arc::new(alloc, manifest)?)))
        }
        Err(ManifestError::OutOfMemory) => Err(OutOfMemory),
        Err(_) => Ok(None),
    }
}

fn kept_nothing(body: &[u8]) -> Option<Kept>
    ensures expired { (r : ℕ) → IsKeptOf (kind.Expired r) body.now result }
    ensures deleted { (r : ℕ) → IsKeptOf (kind.Deleted r) body.now result }
    ensures withdrawn { (image : List ℕ) → IsKeptOf (kind.Withdrawn image) body.now result }
{
    if !body.is_empty() {
        return None;
    }
    Some(Kept::Empty)
}

/// What is kept of a body under a key of this kind, or `None` where the body isn't one of its kind.
///
/// A salt has 32 bytes. A manifest parses, was made in a root from 1 to its own, and its creation number is from 1
/// to 9,223,372,036,854,775,807. A chunk may have any body, and every other body is empty.
pub(crate) fn kept_of(
    alloc: Global,
    kind: &KeyKind,
    body: &[u8],
) -> Result<Option<Kept>, OutOfMemory>
    ensures { IfOk result (λ kept. IsKeptOf kind.now body.now kept) }
{
    match *kind {
        KeyKind::Root(_) => Ok(kept_salt(body)),
        KeyKind::Manifest(root, _) => kept_manifest(alloc, root, body),
        KeyKind::Chunk(_, _) => Ok(Some(Kept::Empty)),
        KeyKind::Expired(_) => Ok(kept_nothing(body)),
        KeyKind::Deleted(_) => Ok(kept_nothing(body)),
        KeyKind::Withdrawn(_) => Ok(kept_nothing(body)),
    }
}
