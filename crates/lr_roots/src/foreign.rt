//! The rules of a sound store that a key of the view can break.
ghost use Rattle.std.specs.Prelude.{◌≡◌, ◌↔◌, IsTrue};
ghost use Rattle.lr_roots.specs.Keys.{key_of};
ghost use Rattle.lr_roots.specs.Names.{IsFirst};
ghost use Rattle.lr_roots.specs.View.{View};
ghost use Rattle.lr_roots.specs.Foreign.{IsUnbroken, LacksRoot, IsOutOfOrder, DiffersFromFirst, LacksChunk, LacksHome, Breaks, IsForeign};

use crate::catalog::Catalog;
use crate::walks::Wanted;
use lr_manifest::{Manifest, Name};
use lr_origin::{Key, KeyKind};

fn are_same_names(a: &[Name], b: &[Name]) -> bool
    ensures { IsTrue result ↔ (a.now ≡ b.now) }
{
    a == b
}

fn are_same_keys(a: &[[u8; 32]], b: &[[u8; 32]]) -> bool
    ensures { IsTrue result ↔ (a.now ≡ b.now) }
{
    a == b
}

// Whether they are equal in every field, and so in their bytes.
fn is_same(a: &Manifest, b: &Manifest) -> bool
    ensures { IsTrue result ↔ (a.now ≡ b.now) }
{
    if a.raw_len() != b.raw_len() {
        return false;
    }
    if a.nonce() != b.nonce() {
        return false;
    }
    if a.tag() != b.tag() {
        return false;
    }
    if !are_same_names(a.names(), b.names()) {
        return false;
    }
    are_same_keys(a.sealed(), b.sealed())
}

// Whether a root up to the key's own isn't there, in a view with just so many roots one after another from 1 on.
fn lacks_root(unbroken: u32, kind: &KeyKind) -> bool
    ensures { (v : View) → IsUnbroken v unbroken → IsTrue result ↔ LacksRoot v kind.now }
{
    match *kind {
        KeyKind::Root(root)
        | KeyKind::Expired(root)
        | KeyKind::Deleted(root)
        | KeyKind::Chunk(root, _)
        | KeyKind::Manifest(root, _) => unbroken < root,
        KeyKind::Withdrawn(_) => false,
    }
}

impl Catalog {
    /// The first key of the view, in byte order, that breaks a rule of a sound store.
    ///
    /// The rules are: for a key under a root, all roots from 1 to it are there. A deleted root is expired, and the
    /// greatest root isn't. The manifests of an image have equal bytes in all roots: each that differs from the one
    /// in the first root breaks it. The manifest of a live root has the chunks of all its names under that root. An
    /// image with a manifest that isn't withdrawn has a home, which isn't expired: its manifest in the greatest root
    /// that has one breaks it.
    pub fn foreign(&self) -> Option<&Key>
        ensures { IsFirst (IsForeign self.now.view) (key_of result) }
    {
        let unbroken = self.unbroken();
        self.first(&Wanted::Foreign { unbroken })
    }

    // Whether the root is deleted and not expired, or expired and the greatest.
    fn is_out_of_order(&self, kind: &KeyKind) -> bool
        ensures { IsTrue result ↔ IsOutOfOrder self.now.view kind.now }
    {
        match *kind {
            KeyKind::Deleted(root) => !self.has_kind(KeyKind::Expired(root)),
            KeyKind::Expired(root) => { self.has_kind(KeyKind::Root(root)) && self.roots() == root }
            _ => false,
        }
    }

    // Whether the manifest differs from that of its image in the first root that has one.
    fn differs_from_first(&self, kind: &KeyKind) -> bool
        ensures { IsTrue result ↔ DiffersFromFirst self.now.view kind.now }
    {
        let KeyKind::Manifest(root, image) = *kind else {
            return false;
        };
        let Some(least) = self.first_root(&image) else {
            return false;
        };
        match (self.manifest(least, &image), self.manifest(root, &image)) {
            (Some(first), Some(own)) => !is_same(own, first),
            _ => false,
        }
    }

    // Whether a chunk of a live root's manifest isn't there.
    fn lacks_chunk(&self, kind: &KeyKind) -> bool
        ensures { IsTrue result ↔ LacksChunk self.now.view kind.now }
    {
        let KeyKind::Manifest(root, image) = *kind else {
            return false;
        };
        match self.manifest(root, &image) {
            Some(manifest) => self.is_live(root) && self.missing(root, manifest).is_some(),
            None => false,
        }
    }

    // Whether it is the last manifest of an image that isn't withdrawn and has no home, or an expired one.
    fn lacks_home(&self, kind: &KeyKind) -> bool
        ensures { IsTrue result ↔ LacksHome self.now.view kind.now }
    {
        let KeyKind::Manifest(root, image) = *kind else {
            return false;
        };
        if self.withdrawn(&image) || !self.is_last_root(root, &image) {
            return false;
        }
        match self.home(&image) {
            Some(home) => self.has_kind(KeyKind::Expired(home)),
            None => true,
        }
    }

    /// Whether the key breaks a rule. So many roots are there one after another, from 1 on.
    pub(crate) fn breaks(&self, unbroken: u32, kind: &KeyKind) -> bool
        requires { IsUnbroken self.now.view unbroken }
        ensures { IsTrue result ↔ Breaks self.now.view kind.now }
    {
        lacks_root(unbroken, kind)
            || self.is_out_of_order(kind)
            || self.differs_from_first(kind)
            || self.lacks_chunk(kind)
            || self.lacks_home(kind)
    }
}
