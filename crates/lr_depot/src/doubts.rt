//! Questions about the doubts.
ghost use Rattle.std.specs.Prelude.{◌≡◌, ◌↔◌, IsTrue, MatchOption, slice_get};
ghost use Rattle.std.specs.FinMap as map;
ghost use Rattle.lr_origin.specs.declared.key.KeyKind.{KeyKind as Kind};
ghost use Rattle.lr_roots.specs.View.{Has, Lacks};
ghost use Rattle.lr_roots.specs.Keys.{key_of};
ghost use Rattle.lr_roots.specs.Names.{IsFirst};
ghost use Rattle.lr_depot.specs.Doubts.{IsManifestOfImage, without_keys};

use lr_origin::{ImageName, Key, KeyKind};
use lr_roots::{Catalog, Keys};

fn is_manifest_of(kind: &KeyKind, image: &ImageName) -> bool
    ensures { IsTrue result ↔ IsManifestOfImage image.now kind.now }
{
    match kind {
        KeyKind::Manifest(_, name) => name == image,
        _ => false,
    }
}

// The first key in doubt, in byte order, that is a manifest of the image.
pub(crate) fn first_manifest<'a>(doubts: &'a Keys, image: &ImageName) -> Option<&'a Key>
    ensures { IsFirst (λ k. Has doubts.now k × IsManifestOfImage image.now k) (key_of result) }
{
    for key in doubts.iter() {
        if is_manifest_of(&key.kind(), image) {
            return Some(key);
        }
    }
    None
}

// Whether the put of this kind of key is in doubt.
pub(crate) fn is_in_doubt(doubts: &Keys, key: &Key) -> bool
    ensures { IsTrue result ↔ Has doubts.now key.now }
{
    doubts.get(key).is_some()
}

// The key in doubt at a place, counted from 0 in byte order.
pub(crate) fn doubt_at(doubts: &Keys, at: u64) -> Option<&Key>
    ensures { key_of result ≡ slice_get (map.keys doubts.now) at }
{
    doubts.iter().nth(at as usize)
}

// A key in doubt that the catalog has: its deletion is in doubt.
fn deletion_in_doubt(doubts: &Keys, catalog: &Catalog) -> Option<Key>
    ensures { MatchOption result ((k : Kind) → Has doubts.now k → Lacks catalog.now.view k) (λ k. Has doubts.now k × Has catalog.now.view k) }
{
    for key in doubts.iter() {
        if catalog.has(key) {
            return Some(*key);
        }
    }
    None
}

// Leaves the doubts of puts alone.
pub(crate) fn keep_puts(doubts: &mut Keys, catalog: &Catalog)
    ensures { doubts.new ≡ without_keys catalog.now.view doubts.old }
{
    while let Some(key) = deletion_in_doubt(doubts, catalog) {
        doubts.remove(&key);
    }
}
