//! Walks over the keys of the view, in byte order.
ghost use Rattle.std.specs.Prelude.{◌↔◌, IsTrue};
ghost use Rattle.lr_roots.specs.Keys.{key_of};
ghost use Rattle.lr_roots.specs.Names.{IsFirst, AreMany, IsManifestOf, IsChunkOf, IsPast};
ghost use Rattle.lr_roots.specs.Walks.{NamesFirst, Suits, Passes, IsWanted};

use crate::catalog::Catalog;
use lr_origin::{Key, KeyKind};

/// What a walk looks for.
#[derive(Clone, Copy)]
pub(crate) enum Wanted {
    /// A key that breaks a rule of a sound store, in a view with so many roots one after another from 1 on.
    Foreign { unbroken: u32 },
    /// A chunk or a manifest of the root above a key.
    Listed(u32, Option<Key>),
    /// A manifest in the root.
    Manifests(u32),
    /// A chunk of the root.
    Chunks(u32),
    /// The first key that names an image.
    Named,
}

fn is_manifest_of(kind: &KeyKind, root: u32) -> bool
    ensures { IsTrue result ↔ IsManifestOf root kind.now }
{
    match *kind {
        KeyKind::Manifest(own, _) => own == root,
        _ => false,
    }
}

fn is_chunk_of(kind: &KeyKind, root: u32) -> bool
    ensures { IsTrue result ↔ IsChunkOf root kind.now }
{
    match *kind {
        KeyKind::Chunk(own, _) => own == root,
        _ => false,
    }
}

// Whether the key is above the bound, if there is one.
fn is_past(key: &Key, after: &Option<Key>) -> bool
    ensures { IsTrue result ↔ IsPast after.now key.now }
{
    match after {
        Some(bound) => bound.cmp(key).is_lt(),
        None => true,
    }
}

impl Catalog {
    // Whether the key is the first that names its image.
    fn names_first(&self, kind: &KeyKind) -> bool
        ensures { IsTrue result ↔ NamesFirst self.now.view kind.now }
    {
        match *kind {
            KeyKind::Manifest(root, image) => match self.first_root(&image) {
                Some(first) => root <= first,
                None => true,
            },
            KeyKind::Withdrawn(image) => self.first_root(&image).is_none(),
            _ => false,
        }
    }

    fn passes(&self, wanted: &Wanted, key: &Key) -> bool
        requires { Suits self.now.view wanted.now }
        ensures { IsTrue result ↔ Passes self.now.view wanted.now key.now }
    {
        let kind = key.kind();
        match wanted {
            Wanted::Foreign { unbroken } => self.breaks(*unbroken, &kind),
            Wanted::Listed(root, after) => {
                (is_manifest_of(&kind, *root) || is_chunk_of(&kind, *root)) && is_past(key, after)
            }
            Wanted::Manifests(root) => is_manifest_of(&kind, *root),
            Wanted::Chunks(root) => is_chunk_of(&kind, *root),
            Wanted::Named => self.names_first(&kind),
        }
    }

    // Whether the key is in the view and looked for.
    fn is_wanted(&self, wanted: &Wanted, key: &Key) -> bool
        requires { Suits self.now.view wanted.now }
        ensures { IsTrue result ↔ IsWanted self.now.view wanted.now key.now }
    {
        self.has(key) && self.passes(wanted, key)
    }

    /// The first key that is looked for.
    pub(crate) fn first(&self, wanted: &Wanted) -> Option<&Key>
        requires { Suits self.now.view wanted.now }
        ensures { IsFirst (IsWanted self.now.view wanted.now) (key_of result) }
    {
        // Each key of the view is one of the keys.
        let _aside = &self.aside;
        for key in self.keys.iter() {
            if self.is_wanted(wanted, key) {
                return Some(key);
            }
        }
        None
    }

    /// How many keys are looked for.
    pub(crate) fn count(&self, wanted: &Wanted) -> u64
        requires { Suits self.now.view wanted.now }
        ensures { AreMany (IsWanted self.now.view wanted.now) result }
    {
        // Each key of the view is one of the keys.
        let _aside = &self.aside;
        let mut count = 0;
        for key in self.keys.iter() {
            if self.is_wanted(wanted, key) {
                count += 1;
            }
        }
        count
    }
}
