//! The keys of a store in byte order, with the index of their roots and names.
ghost use Rattle.std.specs.Prelude.{◌≡◌, ◌<◌, ◌^◌, length, OnOk, OnErr};
ghost use Rattle.std.specs.FinMap as map;
ghost use Rattle.std.specs.List.Sorted.{IsStrictlySortedBy};
ghost use Rattle.lr_origin.specs.Kind.{kind_cmp};
ghost use Rattle.lr_origin.specs.declared.key.KeyKind.TheVariants as kind;
ghost use Rattle.lr_roots.specs.View.{Has};
ghost use Rattle.lr_roots.specs.Keys.{plain, held_of};
ghost use Rattle.lr_roots.specs.Index.{IsLastBelow, IsFirstFrom};

use crate::index::Index;
use crate::kept::Kept;
use crate::keys::Keys;
use lr_origin::{ImageName, Key};
use std::alloc::{AllocError, Global};
use std::collections::btree_map;
use std::marker::Model;

/// The keys of a store in byte order with what is kept of their objects, and the index of their roots and names.
///
/// A contract sees a finite map from kinds to what is kept. Only `insert` takes memory. The index is a function of
/// the map: it has just the roots and the names of its keys.
#[derive(Drop)]
pub(crate) struct Indexed {
    keys: Keys,
    index: Index,
}

impl Model for Indexed {
    ghost use Rattle.std.specs.FinMap as map;
    ghost use Rattle.lr_manifest.specs.contracts.manifest.Manifest as manifests;
    ghost use Rattle.lr_origin.specs.contracts.key.KeyKind as kinds;
    ghost use Rattle.lr_roots.specs.View.{View, held_code};
    ghost use Rattle.lr_roots.specs.Index.{IsIndex};

    ghost Value = { View };

    ghost coded = { map.code kinds.the_row.coded (held_code manifests.the_row.coded) };

    ghost view = { λ a. a.keys };

    ghost invariant = { λ a. IsIndex a.keys a.index };
}

impl Indexed {
    /// No keys.
    pub(crate) fn new(alloc: Global) -> Self
        ensures { result ≡ map.empty }
    {
        Indexed {
            keys: Keys::new(alloc),
            index: Index::new(alloc),
        }
    }

    /// What is kept under a key.
    pub(crate) fn get(&self, key: &Key) -> Option<&Kept>
        ensures { held_of result ≡ map.get self.now key.now }
    {
        self.keys.get(key)
    }

    /// Puts a key in, in place of an equal one. After an error the keys are as they were.
    pub(crate) fn insert(&mut self, key: Key, body: Kept) -> Result<(), AllocError>
        ensures ok { OnOk result (self.new ≡ map.insert self.old key (plain body)) }
        ensures err { OnErr result (self.new ≡ self.old) }
    {
        let kind = key.kind();
        self.index.enter(&kind)?;
        match self.keys.insert(key, body) {
            Ok(()) => Ok(()),
            Err(error) => {
                self.index.leave(&kind);
                Err(error)
            }
        }
    }

    /// Takes a key out, where it is there.
    pub(crate) fn remove(&mut self, key: &Key)
        ensures { self.new ≡ map.remove self.old key.now }
    {
        self.keys.remove(key);
        self.index.leave(&key.kind());
    }

    /// All keys in byte order.
    pub(crate) fn iter(&self) -> btree_map::Keys<'_, Key, Kept>
        ensures list { result ≡ map.keys self.now }
        ensures ordered { IsStrictlySortedBy kind_cmp result }
        ensures fits { length result < 2 ^ 63 }
    {
        self.keys.iter()
    }

    /// The greatest root below a bound.
    pub(crate) fn root_below(&self, bound: u32) -> Option<u32>
        ensures { IsLastBelow (λ q. Has self.now (kind.Root q)) bound result }
    {
        self.index.root_below(bound)
    }

    /// The greatest root below a bound that has a manifest of the image.
    pub(crate) fn manifest_below(&self, image: &ImageName, bound: u32) -> Option<u32>
        ensures { IsLastBelow (λ q. Has self.now (kind.Manifest q image.now)) bound result }
    {
        self.index.manifest_below(image, bound)
    }

    /// The least root from a bound on that has a manifest of the image.
    pub(crate) fn manifest_from(&self, image: &ImageName, bound: u32) -> Option<u32>
        ensures { IsFirstFrom (λ q. Has self.now (kind.Manifest q image.now)) bound result }
    {
        self.index.manifest_from(image, bound)
    }
}
