//! All sequences of calls after a start.
use crate::error::ScopeError;
use crate::images::Scope;
use crate::keys::ROOTS;
use crate::moves::{MOVES, Move, ROTATION};
use crate::rules::Broken;
use crate::run::{Left, Trial, judge_store};
use crate::store::Failure;
use std::alloc::Global;
use std::collections::BTreeMap;
use std::mem;

/// What a search saw, and the first sequence after which a rule was broken.
#[derive(Drop)]
pub struct Found {
    pub states: u64,
    pub stores: u64,
    pub runs: u64,
    pub broken: Option<Broken>,
    pub path: Vec<Move>,
}

// A sequence that came to a state not seen before.
#[derive(Drop)]
struct Node {
    path: Vec<Move>,
    failure: Failure,
    calls: u64,
    roots: u32,
    state: Vec<u8>,
}

// The states seen so far, with whether each was seen only after a failure; the contents of stores judged so far; the
// sequences to make longer.
#[derive(Drop)]
struct Search {
    seen: BTreeMap<Vec<u8>, bool>,
    judged: BTreeMap<Vec<u8>, bool>,
    next: Vec<Node>,
    runs: u64,
    broken: Option<Broken>,
    path: Vec<Move>,
}

const NO_FAILURE: Failure = Failure { at: 0, done: false };

// A sequence with one call more.
fn longer(alloc: Global, path: &[Move], step: Move) -> Result<Vec<Move>, ScopeError> {
    let mut path = path.to_vec(alloc)?;
    path.push(step)?;
    Ok(path)
}

impl Search {
    // Keeps what is broken first, with its sequence.
    fn refuse(&mut self, alloc: Global, broken: Broken, path: &[Move]) -> Result<(), ScopeError> {
        if self.broken.is_none() {
            self.broken = Some(broken);
            self.path = path.to_vec(alloc)?;
        }
        Ok(())
    }

    // Whether the state wasn't seen yet, or only after a failure where this one has had none.
    fn is_new(&mut self, alloc: Global, state: &[u8], failed: bool) -> Result<bool, ScopeError> {
        match self.seen.get(state) {
            Some(after_failure) if failed || !*after_failure => Ok(false),
            _ => {
                self.seen.insert(state.to_vec(alloc)?, failed)?;
                Ok(true)
            }
        }
    }

    // Judges a store, unless one of the same contents was judged.
    fn check_store(
        &mut self,
        alloc: Global,
        scope: &Scope,
        left: Left,
        path: &[Move],
    ) -> Result<(), ScopeError> {
        let contents = left.store.contents(alloc)?;
        if self.judged.get(contents.as_slice()).is_some() {
            return Ok(());
        }
        self.judged.insert(contents, true)?;
        if let Some(broken) = judge_store(alloc, scope, left.store)? {
            return self.refuse(alloc, broken, path);
        }
        Ok(())
    }

    // Ends a trial after a sequence, and keeps the state that it came to. How many store calls it made.
    fn finish(
        &mut self,
        alloc: Global,
        scope: &Scope,
        trial: Trial,
        path: Vec<Move>,
        failure: Failure,
    ) -> Result<u64, ScopeError> {
        self.runs = self.runs.saturating_add(1);
        let left = match trial.judge(alloc, scope)? {
            Ok(left) => left,
            Err(broken) => {
                self.refuse(alloc, broken, &path)?;
                return Ok(0);
            }
        };
        let calls = left.calls;
        let roots = left.roots;
        let state = left.state.to_vec(alloc)?;
        self.check_store(alloc, scope, left, &path)?;
        if self.is_new(alloc, &state, failure.at > 0)? {
            self.next.push(Node {
                path,
                failure,
                calls,
                roots,
                state,
            })?;
        }
        Ok(calls)
    }

    // A call made no more than one store call after so many.
    fn check_asked(
        &mut self,
        alloc: Global,
        before: u64,
        calls: u64,
        path: &[Move],
    ) -> Result<(), ScopeError> {
        if calls > before.saturating_add(1) {
            return self.refuse(alloc, Broken::Asked, path);
        }
        Ok(())
    }

    // Makes a sequence with one store call that fails, which is its last one.
    fn attempt(
        &mut self,
        alloc: Global,
        scope: &Scope,
        path: Vec<Move>,
        failure: Failure,
    ) -> Result<(), ScopeError> {
        match Trial::begin(alloc, scope, &path, failure)? {
            Ok(trial) => {
                let made = path.to_vec(alloc)?;
                let calls = self.finish(alloc, scope, trial, path, failure)?;
                if failure.at == 0 {
                    return Ok(());
                }
                self.check_asked(alloc, failure.at - 1, calls, &made)
            }
            Err(broken) => self.refuse(alloc, broken, &path),
        }
    }

    // After a sequence, ends a trial that made this call: keeps its state, and where it asked the store, those that come
    // of a failure.
    fn lengthen(
        &mut self,
        alloc: Global,
        scope: &Scope,
        node: &Node,
        trial: Trial,
        step: Move,
    ) -> Result<(), ScopeError> {
        let path = longer(alloc, &node.path, step)?;
        let calls = self.finish(alloc, scope, trial, path, node.failure)?;
        let path = longer(alloc, &node.path, step)?;
        self.check_asked(alloc, node.calls, calls, &path)?;
        if node.failure.at > 0 || calls <= node.calls {
            return Ok(());
        }
        for done in [false, true] {
            let path = longer(alloc, &node.path, step)?;
            self.attempt(alloc, scope, path, Failure { at: calls, done })?;
        }
        Ok(())
    }

    // Ends a trial whose last calls were all refused: nothing has changed.
    fn settle(
        &mut self,
        alloc: Global,
        scope: &Scope,
        node: &Node,
        trial: Trial,
    ) -> Result<(), ScopeError> {
        self.runs = self.runs.saturating_add(1);
        match trial.judge(alloc, scope)? {
            Ok(left) if left.state == node.state && left.calls == node.calls => Ok(()),
            Ok(_) => self.refuse(alloc, Broken::Changed, &node.path),
            Err(broken) => self.refuse(alloc, broken, &node.path),
        }
    }

    // Makes calls after a sequence up to the first that isn't refused. How many there were.
    fn probe(
        &mut self,
        alloc: Global,
        scope: &Scope,
        node: &Node,
        steps: &[Move],
    ) -> Result<usize, ScopeError> {
        let mut trial = match Trial::begin(alloc, scope, &node.path, node.failure)? {
            Ok(trial) => trial,
            Err(broken) => {
                self.refuse(alloc, broken, &node.path)?;
                return Ok(steps.len());
            }
        };
        let at = match trial.until_done(alloc, scope, steps)? {
            Ok(at) => at,
            Err(broken) => {
                self.refuse(alloc, broken, &node.path)?;
                return Ok(steps.len());
            }
        };
        let Some(step) = steps.get(at) else {
            self.settle(alloc, scope, node, trial)?;
            return Ok(steps.len());
        };
        self.lengthen(alloc, scope, node, trial, *step)?;
        Ok(at.saturating_add(1))
    }

    // A sequence with each call more. No root past those of the scope is begun.
    fn expand(&mut self, alloc: Global, scope: &Scope, node: &Node) -> Result<(), ScopeError> {
        if node.roots < ROOTS {
            self.probe(alloc, scope, node, ROTATION)?;
        }
        let mut rest = MOVES;
        for _ in 0..MOVES.len() {
            let made = self.probe(alloc, scope, node, rest)?;
            if made >= rest.len() {
                return Ok(());
            }
            let (_, left) = rest.split_at(made);
            rest = left;
        }
        Ok(())
    }

    // Each sequence that came to a new state with one call more.
    fn deepen(&mut self, alloc: Global, scope: &Scope) -> Result<(), ScopeError> {
        let nodes = mem::replace(&mut self.next, Vec::new(alloc));
        for node in nodes.iter() {
            self.expand(alloc, scope, node)?;
        }
        Ok(())
    }
}

/// Makes all sequences of up to so many calls after a start.
pub fn explore(
    alloc: Global,
    scope: &Scope,
    start: &[Move],
    depth: u32,
) -> Result<Found, ScopeError> {
    let mut search = Search {
        seen: BTreeMap::new(alloc),
        judged: BTreeMap::new(alloc),
        next: Vec::new(alloc),
        runs: 0,
        broken: None,
        path: Vec::new(alloc),
    };
    search.attempt(alloc, scope, start.to_vec(alloc)?, NO_FAILURE)?;
    for _ in 0..depth {
        search.deepen(alloc, scope)?;
    }
    let Search {
        seen,
        judged,
        next: _,
        runs,
        broken,
        path,
    } = search;
    Ok(Found {
        states: seen.len() as u64,
        stores: judged.len() as u64,
        runs,
        broken,
        path,
    })
}
