//! Leases and sessions by their numbers.
ghost use Rattle.std.specs.Prelude.{◌≡◌, ◌≢◌, ◌≤◌, ◌<◌, ◌^◌, ◌↔◌, ℕ, length, IsTrue, OnOk, OnErr, MatchOption, Some, option_copied};
ghost use Rattle.std.specs.Ordering.{nat_cmp};
ghost use Rattle.std.specs.List.Sorted.{IsStrictlySortedBy};
ghost use Rattle.std.specs.FinMap as map;
ghost use Rattle.lr_rules.specs.State.{Session as PlainSession};
ghost use Rattle.lr_depot.specs.Sessions.{IsCreation, IsCreated, HasCreation, without_caller};

use crate::job::Job;
use lr_manifest::Manifest;
use lr_origin::ImageName;
use std::alloc::{AllocError, Global};
use std::collections::{BTreeMap, btree_map};
use std::marker::Model;
use std::sync::Arc;

/// A lease: its image and the manifest that the image had.
#[derive(Drop)]
pub(crate) struct Lease {
    pub(crate) image: ImageName,
    pub(crate) manifest: Arc<Manifest>,
}

impl Model for Lease {
    ghost use Rattle.std.specs.Prelude.{ℕ, List};
    ghost use Rattle.std.specs.Arc.{arc_value};
    ghost use Rattle.lr_manifest.specs.Manifest.{ManifestFields};

    ghost Value = { List ℕ × ManifestFields };

    ghost view = { λ l. (l.image, arc_value l.manifest) };
}

/// A session of a caller.
#[derive(Drop)]
pub(crate) struct Session {
    pub(crate) caller: u32,
    pub(crate) job: Job,
}

impl Model for Session {
    ghost use Rattle.lr_rules.specs.State.{Session};
    ghost use Rattle.lr_depot.specs.Jobs.{job_of};

    ghost Value = { Session };

    ghost view = { λ s. record { caller = s.caller; job = job_of s.job } };
}

/// Things by their numbers, which a contract sees as a finite map. Only `insert` takes memory.
#[derive(Drop)]
pub(crate) struct Numbered<T: Drop> {
    entries: BTreeMap<u64, T>,
}

impl<T: Drop> Model for Numbered<T> {
    ghost use Rattle.std.specs.Ordering.{nat_cmp};
    ghost use Rattle.std.specs.Coded.{coded_ℕ};
    ghost use Rattle.std.specs.FinMap as map;
    ghost use Rattle.std.specs.FinMap.{FinMap};

    ghost Value = { FinMap nat_cmp T };

    ghost coded = { map.code coded_ℕ T.code };

    ghost view = { λ a. map.from_entries a.entries.entries };
}

impl<T: Drop> Numbered<T> {
    pub(crate) fn new(alloc: Global) -> Self
        ensures { result ≡ map.empty }
    {
        Numbered {
            entries: BTreeMap::new(alloc),
        }
    }

    pub(crate) fn len(&self) -> usize
        ensures count { result ≡ map.len self.now }
        ensures small { result < 2 ^ 63 }
    {
        self.entries.len()
    }

    pub(crate) fn get(&self, number: u64) -> Option<&T>
        ensures { option_copied result ≡ map.get self.now number }
    {
        self.entries.get(&number)
    }

    /// After an error nothing changed.
    pub(crate) fn insert(&mut self, number: u64, thing: T) -> Result<(), AllocError>
        ensures ok { OnOk result (self.new ≡ map.insert self.old number thing) }
        ensures err { OnErr result (self.new ≡ self.old) }
    {
        self.entries.insert(number, thing)?;
        Ok(())
    }

    pub(crate) fn remove(&mut self, number: u64)
        ensures { self.new ≡ map.remove self.old number }
    {
        self.entries.remove(&number);
    }

    /// All things in the order of their numbers.
    pub(crate) fn iter(&self) -> btree_map::Iter<'_, u64, T>
        ensures list { result ≡ map.entries self.now }
        ensures ordered { IsStrictlySortedBy nat_cmp (map.keys self.now) }
        ensures fits { length result < 2 ^ 63 }
    {
        self.entries.iter()
    }
}

// The number of a session of the caller.
pub(crate) fn session_of(sessions: &Numbered<Session>, caller: u32) -> Option<u64>
    ensures { MatchOption result
        ((n : ℕ) (s : PlainSession) → map.get sessions.now n ≡ Some s → s.caller ≢ caller)
        (λ n. (s : PlainSession) × (map.get sessions.now n ≡ Some s) × (s.caller ≡ caller)) }
{
    for (number, session) in sessions.iter() {
        if session.caller == caller {
            return Some(*number);
        }
    }
    None
}

// Ends all sessions of the caller.
pub(crate) fn end_all(sessions: &mut Numbered<Session>, caller: u32)
    ensures ended { sessions.new ≡ without_caller caller sessions.old }
    ensures fewer { map.len sessions.new ≤ map.len sessions.old }
    ensures some { (n : ℕ) (s : PlainSession) → map.get sessions.old n ≡ Some s → s.caller ≡ caller → map.len sessions.new < map.len sessions.old }
{
    while let Some(number) = session_of(sessions, caller) {
        sessions.remove(number);
    }
}

// The image of a session that creates one.
pub(crate) fn created(session: &Session) -> Option<&ImageName>
    ensures { IsCreated (option_copied result) session.now }
{
    match &session.job {
        Job::Creates { image, .. } => Some(image),
        Job::Moves { .. } => None,
    }
}

// Whether the session creates the image.
pub(crate) fn creates(session: &Session, image: &ImageName) -> bool
    ensures { IsTrue result ↔ IsCreation image.now session.now }
{
    match created(session) {
        Some(own) => own == image,
        None => false,
    }
}

// Whether a create session has the image.
pub(crate) fn is_begun(sessions: &Numbered<Session>, image: &ImageName) -> bool
    ensures { IsTrue result ↔ HasCreation sessions.now image.now }
{
    for (_, session) in sessions.iter() {
        if creates(session, image) {
            return true;
        }
    }
    false
}
