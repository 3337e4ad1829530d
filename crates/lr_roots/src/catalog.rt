//! The view that the depot reads and changes.
ghost use Rattle.std.specs.Prelude.{◌≡◌, ◌^◌, ◌↔◌, IsTrue, OnOk, OnErr, Some, None, option_copied};
ghost use Rattle.std.specs.FinMap as map;
ghost use Rattle.lr_origin.specs.declared.key.KeyKind.TheVariants as kind;
ghost use Rattle.lr_roots.specs.View.{Has, Lacks, Fits};
ghost use Rattle.lr_roots.specs.Keys.{plain, held_of};
ghost use Rattle.lr_roots.specs.Names.{AreFewer, IsNamed};
ghost use Rattle.lr_roots.specs.Catalog.{with_key, salt_of, manifest_of, arc_of};

use crate::indexed::Indexed;
use crate::kept::Kept;
use lr_manifest::Manifest;
use lr_origin::{ImageName, Key, KeyKind};
use lr_spec::OutOfMemory;
use std::alloc::Global;
use std::marker::Model;
use std::mem;
use std::sync::Arc;

/// What is known of the keys of a store, with the salts of roots and the manifests of images.
///
/// A contract sees the view and the one key that may stand aside, which isn't in the view yet. Only `prepare` takes
/// memory.
#[derive(Drop)]
pub struct Catalog {
    pub(crate) keys: Indexed,
    pub(crate) aside: Option<Key>,
}

impl Model for Catalog {
    ghost use Rattle.std.specs.Prelude.{◌≡◌, ◌^◌, Some};
    ghost use Rattle.lr_manifest.specs.contracts.manifest.Manifest as manifests;
    ghost use Rattle.lr_origin.specs.contracts.key.KeyKind as kinds;
    ghost use Rattle.lr_origin.specs.declared.key.KeyKind.{KeyKind as Kind};
    ghost use Rattle.lr_roots.specs.View.{Has};
    ghost use Rattle.lr_roots.specs.Names.{AreFewer, IsNamed};
    ghost use Rattle.lr_roots.specs.Catalog.{Seen, seen_code, without, aside_of, IsWhole};

    ghost Value = { Seen };

    ghost coded = { seen_code kinds.the_row.coded manifests.the_row.coded };

    ghost view = { λ a. record { view = without a.aside a.keys; aside = aside_of a.aside a.keys } };

    ghost invariant = { λ a. IsWhole a.keys × ((key : Kind) → a.aside ≡ Some key → Has a.keys key) × AreFewer (IsNamed a.keys) (2 ^ 32) };
}

// Whether this key stands aside.
fn is_aside(aside: &Option<Key>, key: &Key) -> bool
    ensures { IsTrue result ↔ (aside.now ≡ Some key.now) }
{
    match aside {
        Some(before) => before == key,
        None => false,
    }
}

impl Catalog {
    /// An empty view.
    pub fn new(alloc: Global) -> Catalog
        ensures { result ≡ record { view = map.empty; aside = None } }
    {
        Catalog {
            keys: Indexed::new(alloc),
            aside: None,
        }
    }

    /// Keeps a key that isn't in the view aside, in place of one kept before. The view stays.
    ///
    /// After an error the catalog is as it was.
    pub fn prepare(&mut self, _alloc: Global, key: Key, body: Kept) -> Result<(), OutOfMemory>
        requires absent { Lacks self.old.view key }
        requires fits { Fits key (plain body) }
        requires few { AreFewer (IsNamed (map.insert self.old.view key (plain body))) (2 ^ 32) }
        ensures ok { OnOk result (self.new ≡ record { view = self.old.view; aside = Some (key, plain body) }) }
        ensures err { OnErr result (self.new ≡ self.old) }
    {
        // Its contract says that the key is one of the grammar.
        let _kind = key.kind();
        self.keys.insert(key, body)?;
        let Some(before) = mem::replace(&mut self.aside, Some(key)) else {
            return Ok(());
        };
        if before == key {
            return Ok(());
        }
        self.keys.remove(&before);
        Ok(())
    }

    /// The key kept aside, where there is one, goes into the view.
    pub fn accept(&mut self)
        ensures { self.new ≡ record { view = with_key self.old.aside self.old.view; aside = None } }
    {
        self.aside = None;
    }

    /// The key kept aside is given up. The view stays.
    pub fn forget(&mut self)
        ensures { self.new ≡ record { view = self.old.view; aside = None } }
    {
        if let Some(key) = self.aside {
            self.keys.remove(&key);
            self.aside = None;
        }
    }

    /// The key leaves the view, where it is there.
    pub fn remove(&mut self, key: &Key)
        ensures { self.new ≡ record { view = map.remove self.old.view key.now; aside = self.old.aside } }
    {
        if is_aside(&self.aside, key) {
            return;
        }
        self.keys.remove(key);
    }

    // What is kept of a key's object, where the key is in the view.
    fn held_at(&self, key: &Key) -> Option<&Kept>
        ensures { held_of result ≡ map.get self.now.view key.now }
    {
        if is_aside(&self.aside, key) {
            return None;
        }
        self.keys.get(key)
    }

    /// What is kept of the object of a kind, where its key is in the view.
    pub(crate) fn held(&self, kind: &KeyKind) -> Option<&Kept>
        ensures { held_of result ≡ map.get self.now.view kind.now }
    {
        // Each key is one of the grammar.
        let _aside = &self.aside;
        if !kind.is_within() {
            return None;
        }
        self.held_at(&Key::of(kind))
    }

    pub(crate) fn has_kind(&self, kind: KeyKind) -> bool
        ensures { IsTrue result ↔ Has self.now.view kind }
    {
        self.held(&kind).is_some()
    }

    /// Whether the key is in the view.
    pub fn has(&self, key: &Key) -> bool
        ensures { IsTrue result ↔ Has self.now.view key.now }
    {
        self.held_at(key).is_some()
    }

    /// Whether the image's key `w/` is in the view.
    pub fn withdrawn(&self, image: &ImageName) -> bool
        ensures { IsTrue result ↔ Has self.now.view (kind.Withdrawn image.now) }
    {
        self.has_kind(KeyKind::Withdrawn(*image))
    }

    /// The salt of a root.
    pub fn salt(&self, root: u32) -> Option<&[u8; 32]>
        ensures { option_copied result ≡ salt_of (map.get self.now.view (kind.Root root)) }
    {
        match self.held(&KeyKind::Root(root)) {
            Some(Kept::Salt(salt)) => Some(salt),
            _ => None,
        }
    }

    /// The manifest of an image in a root.
    pub fn manifest(&self, root: u32, image: &ImageName) -> Option<&Arc<Manifest>>
        ensures { arc_of result ≡ manifest_of (map.get self.now.view (kind.Manifest root image.now)) }
    {
        match self.held(&KeyKind::Manifest(root, *image)) {
            Some(Kept::Manifest(manifest)) => Some(manifest),
            _ => None,
        }
    }
}
