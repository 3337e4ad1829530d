//! What a caller's session is for.
ghost use Rattle.std.specs.Prelude.{◌≡◌, ◌≢◌, ◌↔◌, ℕ, List, IsTrue, MatchOption, Some};
ghost use Rattle.std.specs.Arc.{arc_value};
ghost use Rattle.std.specs.FinMap as map;
ghost use Rattle.lr_manifest.specs.Manifest.{ManifestFields};
ghost use Rattle.std.specs.Option.{option_copied, option_map};
ghost use Rattle.lr_depot.specs.Jobs.{job_of as plain};
ghost use Rattle.lr_depot.specs.Sessions.{IsJobOf};
ghost use Rattle.lr_rules.specs.State.{Job as PlainJob, Creates, Moves, target};

use crate::job::Job;
use crate::numbered::{Numbered, Session};
use lr_manifest::Manifest;
use lr_origin::ImageName;
use std::sync::Arc;

/// What a session creates.
#[derive(Clone, Copy)]
pub(crate) struct Creation {
    pub(crate) image: ImageName,
    pub(crate) root: u32,
    pub(crate) number: u64,
}

/// What a session copies, and where.
#[derive(Clone, Copy)]
pub(crate) struct Route {
    pub(crate) image: ImageName,
    pub(crate) from: u32,
    pub(crate) to: u32,
}

/// What a session is for, where it is the caller's.
pub(crate) fn job_of(sessions: &Numbered<Session>, session: u64, caller: u32) -> Option<&Job>
    ensures { IsJobOf sessions.now session caller (option_map plain (option_copied result)) }
{
    let entry = sessions.get(session)?;
    if entry.caller != caller {
        return None;
    }
    Some(&entry.job)
}

/// Whether the session is the caller's.
pub(crate) fn is_own(sessions: &Numbered<Session>, session: u64, caller: u32) -> bool
    ensures { IsTrue result ↔ ((j : PlainJob) × (map.get sessions.now session ≡ Some (record { caller = caller; job = j }))) }
{
    job_of(sessions, session, caller).is_some()
}

/// The root into which a session puts, where it is the caller's.
pub(crate) fn target_of(sessions: &Numbered<Session>, session: u64, caller: u32) -> Option<u32>
    ensures { MatchOption result
        ((j : PlainJob) → map.get sessions.now session ≢ Some (record { caller = caller; job = j }))
        (λ r. (j : PlainJob) × (map.get sessions.now session ≡ Some (record { caller = caller; job = j })) × (target j ≡ r)) }
{
    match job_of(sessions, session, caller) {
        Some(Job::Creates { root, .. }) => Some(*root),
        Some(Job::Moves { to, .. }) => Some(*to),
        None => None,
    }
}

/// The creation of a session, where it is one and the caller's.
pub(crate) fn creation_of(
    sessions: &Numbered<Session>,
    session: u64,
    caller: u32,
) -> Option<Creation>
    ensures { MatchOption result
        ((image : List ℕ) (r d : ℕ) → map.get sessions.now session ≢ Some (record { caller = caller; job = Creates image r d }))
        (λ c. map.get sessions.now session ≡ Some (record { caller = caller; job = Creates c.image c.root c.number })) }
{
    match job_of(sessions, session, caller) {
        Some(
            Job::Creates {
                image,
                root,
                number,
            },
        ) => Some(Creation {
            image: *image,
            root: *root,
            number: *number,
        }),
        _ => None,
    }
}

/// The route of a session that copies, where it is the caller's, and the manifest that it copies.
pub(crate) fn move_of(
    sessions: &Numbered<Session>,
    session: u64,
    caller: u32,
) -> Option<(Route, &Arc<Manifest>)>
    ensures { MatchOption result
        ((image : List ℕ) (from to : ℕ) (m : ManifestFields) → map.get sessions.now session ≢ Some (record { caller = caller; job = Moves image from to m }))
        (λ p. map.get sessions.now session ≡ Some (record { caller = caller; job = Moves p.0.image p.0.from p.0.to (arc_value p.1.now) })) }
{
    match job_of(sessions, session, caller) {
        Some(
            Job::Moves {
                image,
                from,
                to,
                manifest,
            },
        ) => {
            let route = Route {
                image: *image,
                from: *from,
                to: *to,
            };
            Some((route, manifest))
        }
        _ => None,
    }
}
