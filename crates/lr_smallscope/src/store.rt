//! The store of the scope, which fails at one of its calls, counted over all of them.
ghost use Rattle.std.specs.Prelude.{◌≡◌, ◌≤◌};
ghost use Rattle.lr_spec.specs.Rose.{Rose};

use lr_manifest::CHUNK;
use lr_origin::{Origin, OriginError, OriginFailed, Put};
use std::alloc::{AllocError, Global};
use std::collections::BTreeMap;

/// The call that fails, counted from 1, or 0 for none, and whether it has its effect.
#[derive(Clone, Copy)]
pub struct Failure {
    pub at: u64,
    pub done: bool,
}

/// Bodies under keys. Of the scope's chunk it keeps the first byte alone. It tells no objects.
#[derive(Drop)]
pub struct ScopeStore {
    bodies: BTreeMap<Vec<u8>, Vec<u8>>,
    calls: u64,
    failure: Failure,
    faults: u64,
}

// Whether all bytes are 1.
fn is_filled(body: &[u8]) -> bool {
    body.iter().fold(0u8, |all, byte| all | (*byte ^ 1)) == 0
}

// What is kept of a body. No other body has one byte.
fn kept(alloc: Global, body: &[u8]) -> Result<Vec<u8>, AllocError> {
    if body.len() == CHUNK && is_filled(body) {
        return vec![in alloc; 1u8; 1];
    }
    body.to_vec(alloc)
}

fn whole(alloc: Global, kept: &Vec<u8>) -> Result<Vec<u8>, AllocError> {
    if kept.len() == 1 {
        return vec![in alloc; 1u8; CHUNK];
    }
    kept.to_vec(alloc)
}

impl ScopeStore {
    pub fn new(alloc: Global, failure: Failure) -> ScopeStore {
        ScopeStore {
            bodies: BTreeMap::new(alloc),
            calls: 0,
            failure,
            faults: 0,
        }
    }

    /// How many calls were made.
    pub fn calls(&self) -> u64 {
        self.calls
    }

    /// How many objects there are.
    pub fn len(&self) -> usize {
        self.bodies.len()
    }

    /// What is kept of the body under a key: of the scope's chunk one byte.
    pub fn kept(&self, key: &[u8]) -> Option<&Vec<u8>> {
        self.bodies.get(key)
    }

    /// The store, which fails no more.
    pub fn mended(self) -> ScopeStore {
        ScopeStore {
            failure: Failure { at: 0, done: false },
            ..self
        }
    }

    /// What is kept of all bodies, each after its key.
    pub fn contents(&self, alloc: Global) -> Result<Vec<u8>, AllocError> {
        let mut contents = Vec::new(alloc);
        for (key, body) in self.bodies.iter() {
            contents.extend_from_slice(key)?;
            contents.extend_from_slice(body)?;
        }
        Ok(contents)
    }

    // Counts a call. Whether it is the one that fails.
    fn fails(&mut self) -> bool
        ensures { self.new.faults ≡ self.old.faults }
    {
        self.calls = self.calls.saturating_add(1);
        self.calls == self.failure.at
    }

    fn raise(&mut self)
        ensures never_falls { self.old.faults ≤ self.new.faults }
        ensures rose { Rose self.old.faults self.new.faults }
    {
        self.faults = self.faults.saturating_add(1);
    }

    fn store(&mut self, alloc: Global, key: &[u8], body: &[u8]) -> Result<Put, AllocError>
        ensures { self.new.faults ≡ self.old.faults }
    {
        if self.bodies.get(key).is_some() {
            return Ok(Put::Present);
        }
        let key = key.to_vec(alloc)?;
        let body = kept(alloc, body)?;
        self.bodies.insert(key, body)?;
        Ok(Put::Stored)
    }
}

impl Origin for ScopeStore {
    ghost use Rattle.std.specs.Prelude.{None};

    ghost objects = { λ _. None };

    ghost faults = { λ o. o.faults };

    fn get(&mut self, alloc: Global, key: &[u8]) -> Result<Option<Vec<u8>>, OriginError> {
        if self.fails() {
            self.raise();
            return Err(OriginError::Failed);
        }
        match self.bodies.get(key) {
            Some(body) => Ok(Some(whole(alloc, body)?)),
            None => Ok(None),
        }
    }

    fn put(&mut self, alloc: Global, key: &[u8], body: &[u8]) -> Result<Put, OriginError> {
        if !self.fails() {
            return Ok(self.store(alloc, key, body)?);
        }
        if self.failure.done {
            let _ = self.store(alloc, key, body);
        }
        self.raise();
        Err(OriginError::Failed)
    }

    fn delete(&mut self, key: &[u8]) -> Result<(), OriginFailed> {
        if !self.fails() {
            self.bodies.remove(key);
            return Ok(());
        }
        if self.failure.done {
            self.bodies.remove(key);
        }
        self.raise();
        Err(OriginFailed)
    }

    fn next_key(
        &mut self,
        alloc: Global,
        after: Option<&[u8]>,
    ) -> Result<Option<Vec<u8>>, OriginError> {
        if self.fails() {
            self.raise();
            return Err(OriginError::Failed);
        }
        for key in self.bodies.keys() {
            if after.is_none_or(|after| key.as_slice() > after) {
                return Ok(Some(key.to_vec(alloc)?));
            }
        }
        Ok(None)
    }
}
