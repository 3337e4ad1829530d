//! The sessions that made the puts of manifests that are in doubt, by the keys of these manifests.
ghost use Rattle.std.specs.Prelude.{◌≡◌, OnOk, OnErr};
ghost use Rattle.std.specs.FinMap as map;

use lr_origin::Key;
use std::alloc::{AllocError, Global};
use std::collections::BTreeMap;
use std::marker::Model;

/// Numbers of sessions by keys, which a contract sees as a finite map. Only `insert` takes memory.
#[derive(Drop)]
pub(crate) struct DoubtMakers {
    entries: BTreeMap<Key, u64>,
}

impl Model for DoubtMakers {
    ghost use Rattle.std.specs.Coded.{coded_ℕ};
    ghost use Rattle.std.specs.Prelude.{ℕ};
    ghost use Rattle.std.specs.FinMap as map;
    ghost use Rattle.std.specs.FinMap.{FinMap};
    ghost use Rattle.lr_origin.specs.Kind.{kind_cmp};
    ghost use Rattle.lr_origin.specs.contracts.key.KeyKind as kinds;

    ghost Value = { FinMap kind_cmp ℕ };

    ghost coded = { map.code kinds.the_row.coded coded_ℕ };

    ghost view = { λ a. map.from_entries a.entries.entries };
}

impl DoubtMakers {
    pub(crate) fn new(alloc: Global) -> Self
        ensures { result ≡ map.empty }
    {
        DoubtMakers {
            entries: BTreeMap::new(alloc),
        }
    }

    pub(crate) fn get(&self, key: &Key) -> Option<u64>
        ensures { result ≡ map.get self.now key.now }
    {
        self.entries.get(key).copied()
    }

    /// After an error nothing changed.
    pub(crate) fn insert(&mut self, key: Key, session: u64) -> Result<(), AllocError>
        ensures ok { OnOk result (self.new ≡ map.insert self.old key session) }
        ensures err { OnErr result (self.new ≡ self.old) }
    {
        self.entries.insert(key, session)?;
        Ok(())
    }

    pub(crate) fn remove(&mut self, key: &Key)
        ensures { self.new ≡ map.remove self.old key.now }
    {
        self.entries.remove(key);
    }
}
