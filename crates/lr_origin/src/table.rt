//! Objects in memory, which a contract sees as a finite map.
ghost use Rattle.std.specs.Prelude.{◌≡◌, OnOk, OnErr, IfOk};
ghost use Rattle.std.specs.FinMap as map;
ghost use Rattle.lr_origin.specs.Objects.{IsNext, pointed};
ghost use Rattle.lr_origin.specs.Table.{body_of};

use std::alloc::{AllocError, Global};
use std::collections::BTreeMap;
use std::marker::Model;
use std::ops::Bound;

/// Bodies under keys.
#[derive(Drop)]
pub struct Table {
    entries: BTreeMap<Vec<u8>, Vec<u8>>,
}

impl Model for Table {
    ghost use Rattle.std.specs.FinMap as map;
    ghost use Rattle.std.specs.Coded.{coded_ℕ, coded_list};
    ghost use Rattle.lr_origin.specs.Objects.{Objects};

    ghost Value = { Objects };

    ghost coded = { map.code (coded_list coded_ℕ) (coded_list coded_ℕ) };

    ghost use Rattle.lr_origin.specs.Table.{objects_of};

    ghost view = { λ a. objects_of a.entries.entries };
}

impl Table {
    pub fn new(alloc: Global) -> Self
        ensures { result ≡ map.empty }
    {
        Table {
            entries: BTreeMap::new(alloc),
        }
    }

    pub fn get(&self, key: &[u8]) -> Option<&Vec<u8>>
        ensures { body_of result ≡ map.get self.now key.now }
    {
        self.entries.get(key)
    }

    /// After an error the table is as it was.
    pub fn insert(&mut self, key: Vec<u8>, body: Vec<u8>) -> Result<(), AllocError>
        ensures ok { OnOk result (self.new ≡ map.insert self.old key.items body.items) }
        ensures err { OnErr result (self.new ≡ self.old) }
    {
        self.entries.insert(key, body)?;
        Ok(())
    }

    pub fn remove(&mut self, key: &[u8])
        ensures { self.new ≡ map.remove self.old key.now }
    {
        self.entries.remove(key);
    }

    /// The least key above `after`, or the least key of all.
    pub fn next(&self, alloc: Global, after: Option<&[u8]>) -> Result<Option<&Vec<u8>>, AllocError>
        ensures { IfOk result (λ key. IsNext (pointed after.entry) self.now (body_of key)) }
    {
        match after {
            None => {
                // Its contract says that the keys ascend.
                let _count = self.entries.len();
                match self.entries.first_key_value() {
                    Some((key, _)) => Ok(Some(key)),
                    None => Ok(None),
                }
            }
            Some(bytes) => {
                let start = bytes.to_vec(alloc)?;
                let bounds = (Bound::Excluded(&start), Bound::Unbounded);
                match self.entries.range(bounds).next() {
                    Some((key, _)) => Ok(Some(key)),
                    None => Ok(None),
                }
            }
        }
    }
}
