//! Keys in byte order with what is kept of their objects, which a contract sees as a finite map.
ghost use Rattle.std.specs.Prelude.{◌≡◌, ◌<◌, ◌^◌, length, OnOk, OnErr, None};
ghost use Rattle.std.specs.FinMap as map;
ghost use Rattle.std.specs.List.Sorted.{IsStrictlySortedBy};
ghost use Rattle.lr_origin.specs.Kind.{kind_cmp};
ghost use Rattle.lr_roots.specs.Keys.{plain, held_of};

use crate::kept::Kept;
use lr_origin::Key;
use std::alloc::{AllocError, Global};
use std::collections::{BTreeMap, btree_map};
use std::marker::Model;

/// Keys in byte order with what is kept of their objects.
///
/// A contract sees a finite map from kinds to what is kept. Only `insert` takes memory.
#[derive(Drop)]
pub struct Keys {
    entries: BTreeMap<Key, Kept>,
}

impl Model for Keys {
    ghost use Rattle.std.specs.FinMap as map;
    ghost use Rattle.lr_manifest.specs.contracts.manifest.Manifest as manifests;
    ghost use Rattle.lr_origin.specs.contracts.key.KeyKind as kinds;
    ghost use Rattle.lr_roots.specs.View.{View, held_code};

    ghost Value = { View };

    ghost coded = { map.code kinds.the_row.coded (held_code manifests.the_row.coded) };

    ghost use Rattle.lr_roots.specs.Keys.{view_of};

    ghost view = { λ a. view_of a.entries.entries };
}

impl Keys {
    /// No keys.
    pub fn new(alloc: Global) -> Self
        ensures { result ≡ map.empty }
    {
        Keys {
            entries: BTreeMap::new(alloc),
        }
    }

    /// What is kept under a key.
    pub fn get(&self, key: &Key) -> Option<&Kept>
        ensures { held_of result ≡ map.get self.now key.now }
    {
        self.entries.get(key)
    }

    /// Puts a key in, in place of an equal one. After an error the keys are as they were.
    pub fn insert(&mut self, key: Key, body: Kept) -> Result<(), AllocError>
        ensures ok { OnOk result (self.new ≡ map.insert self.old key (plain body)) }
        ensures err { OnErr result (self.new ≡ self.old) }
        ensures absent { OnErr result (map.get self.old key ≡ None) }
    {
        self.entries.insert(key, body)?;
        Ok(())
    }

    /// Takes a key out, where it is there.
    pub fn remove(&mut self, key: &Key)
        ensures { self.new ≡ map.remove self.old key.now }
    {
        self.entries.remove(key);
    }

    /// All keys in byte order.
    pub fn iter(&self) -> btree_map::Keys<'_, Key, Kept>
        ensures list { result ≡ map.keys self.now }
        ensures ordered { IsStrictlySortedBy kind_cmp result }
        ensures fits { length result < 2 ^ 63 }
    {
        self.entries.keys()
    }
}
