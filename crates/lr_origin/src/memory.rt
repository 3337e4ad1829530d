//! A store in memory, which fails at chosen calls.
ghost use Rattle.std.specs.Prelude.{◌≡◌, ◌≤◌, Some, OnOk, OnErr};
ghost use Rattle.std.specs.FinMap as map;
ghost use Rattle.lr_spec.specs.Rose.{Rose};
ghost use Rattle.lr_spec.specs.Told.{Told};

use crate::table::Table;
use crate::{Origin, OriginError, OriginFailed, Put};
use lr_spec::OutOfMemory;
use std::alloc::Global;

/// A call of an origin.
#[derive(Clone, Copy, Debug, PartialEq, Eq)]
pub enum Op {
    Get,
    Put,
    Delete,
    NextKey,
}

/// The nth call (from 1) of an operation on a key fails, and has its effect where `done` holds.
///
/// The key of `NextKey` is its argument, empty for `None`. A call that finds no memory isn't counted, but for a put that
/// finds none for its entry when its copies of the key and the body are made.
#[derive(Drop)]
pub struct Fail {
    pub op: Op,
    pub key: Vec<u8>,
    pub nth: u32,
    pub done: bool,
}

// How a call fails.
#[derive(Clone, Copy)]
enum Fault {
    Without,
    Done,
}

impl Fail {
    // Counts a call, and says how it fails, where this is the call that does.
    fn count(&mut self, op: Op, key: &[u8]) -> Option<Fault> {
        if self.op != op || self.key.as_slice() != key || self.nth == 0 {
            return None;
        }
        self.nth -= 1;
        if self.nth > 0 {
            return None;
        }
        if self.done {
            return Some(Fault::Done);
        }
        Some(Fault::Without)
    }
}

// Counts a call, and says how it fails, if it does.
fn count_call(fails: &mut Vec<Fail>, op: Op, key: &[u8]) -> Option<Fault> {
    let mut fault = None;
    for fail in fails.iter_mut() {
        fault = fail.count(op, key).or(fault);
    }
    fault
}

/// Objects in memory. It tells its objects.
#[derive(Drop)]
pub struct MemOrigin {
    table: Table,
    fails: Vec<Fail>,
    faults: u64,
}

impl MemOrigin {
    /// An empty store, which never fails.
    pub fn new(alloc: Global) -> Self
        ensures objects { ⟦<MemOrigin as Origin>⟧.objects result ≡ Some map.empty }
        ensures faults { ⟦<MemOrigin as Origin>⟧.faults result ≡ 0 }
    {
        MemOrigin::failing(alloc, Vec::new(alloc))
    }

    /// An empty store, which fails at these calls.
    pub fn failing(alloc: Global, fails: Vec<Fail>) -> Self
        ensures objects { ⟦<MemOrigin as Origin>⟧.objects result ≡ Some map.empty }
        ensures faults { ⟦<MemOrigin as Origin>⟧.faults result ≡ 0 }
    {
        MemOrigin {
            table: Table::new(alloc),
            fails,
            faults: 0,
        }
    }

    /// Sets an object. After an error the store is as it was.
    pub fn insert(&mut self, _alloc: Global, key: Vec<u8>, body: Vec<u8>) -> Result<(), OutOfMemory>
        ensures ok { OnOk result (Told (⟦<MemOrigin as Origin>⟧.objects self.old) (λ m. ⟦<MemOrigin as Origin>⟧.objects self.new ≡ Some (map.insert m key.items body.items))) }
        ensures err { OnErr result (⟦<MemOrigin as Origin>⟧.objects self.new ≡ ⟦<MemOrigin as Origin>⟧.objects self.old) }
        ensures faults { ⟦<MemOrigin as Origin>⟧.faults self.new ≡ ⟦<MemOrigin as Origin>⟧.faults self.old }
    {
        self.table.insert(key, body)?;
        Ok(())
    }

    fn raise(&mut self)
        ensures table { self.new.table ≡ self.old.table }
        ensures never_falls { self.old.faults ≤ self.new.faults }
        ensures rose { Rose self.old.faults self.new.faults }
    {
        self.faults = self.faults.saturating_add(1);
    }
}

impl Origin for MemOrigin {
    ghost objects = { λ o. Some o.table };

    ghost faults = { λ o. o.faults };

    fn get(&mut self, alloc: Global, key: &[u8]) -> Result<Option<Vec<u8>>, OriginError> {
        let body = match self.table.get(key) {
            Some(body) => Some(body.to_vec(alloc)?),
            None => None,
        };
        if count_call(&mut self.fails, Op::Get, key).is_some() {
            self.raise();
            return Err(OriginError::Failed);
        }
        Ok(body)
    }

    fn put(&mut self, alloc: Global, key: &[u8], body: &[u8]) -> Result<Put, OriginError> {
        if self.table.get(key).is_some() {
            if count_call(&mut self.fails, Op::Put, key).is_some() {
                self.raise();
                return Err(OriginError::Failed);
            }
            return Ok(Put::Present);
        }
        let key_kept = key.to_vec(alloc)?;
        let body_kept = body.to_vec(alloc)?;
        match count_call(&mut self.fails, Op::Put, key) {
            Some(Fault::Without) => {
                self.raise();
                Err(OriginError::Failed)
            }
            Some(Fault::Done) => {
                self.table.insert(key_kept, body_kept)?;
                self.raise();
                Err(OriginError::Failed)
            }
            None => {
                self.table.insert(key_kept, body_kept)?;
                Ok(Put::Stored)
            }
        }
    }

    fn delete(&mut self, key: &[u8]) -> Result<(), OriginFailed> {
        match count_call(&mut self.fails, Op::Delete, key) {
            Some(Fault::Without) => {
                self.raise();
                Err(OriginFailed)
            }
            Some(Fault::Done) => {
                self.table.remove(key);
                self.raise();
                Err(OriginFailed)
            }
            None => {
                self.table.remove(key);
                Ok(())
            }
        }
    }

    fn next_key(
        &mut self,
        alloc: Global,
        after: Option<&[u8]>,
    ) -> Result<Option<Vec<u8>>, OriginError> {
        let named = match after {
            Some(key) => key,
            None => &[],
        };
        let next = match self.table.next(alloc, after)? {
            Some(key) => Some(key.to_vec(alloc)?),
            None => None,
        };
        if count_call(&mut self.fails, Op::NextKey, named).is_some() {
            self.raise();
            return Err(OriginError::Failed);
        }
        Ok(next)
    }
}
