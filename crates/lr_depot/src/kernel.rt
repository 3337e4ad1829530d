//! What the depot holds beside the store and its log, and the calls that the store isn't asked for.
ghost use Rattle.std.specs.Prelude.{◌≡◌, ◌≢◌, ◌+◌, ◌<◌, ◌^◌, ◌↔◌, IsTrue, Some, None, IfOk};
ghost use Rattle.std.specs.Arc.{arc_value};
ghost use Rattle.std.specs.FinMap as map;
ghost use Rattle.lr_depot.specs.declared.call.DepotCall.TheVariants as call;
ghost use Rattle.lr_depot.specs.declared.call.DepotNoted.TheVariants as noted;
ghost use Rattle.lr_origin.specs.declared.key.KeyKind.{KeyKind as Kind};
ghost use Rattle.lr_origin.specs.declared.key.KeyKind.TheVariants as kind;
ghost use Rattle.lr_roots.specs.View.{Held, salt, manifest, Has, Lacks, Fits};
ghost use Rattle.lr_roots.specs.Roots.{IsHome, IsTop};
ghost use Rattle.lr_rules.specs.Calls.{MayBegin};
ghost use Rattle.lr_depot.specs.Kernel.{Makers, state_of, HasOwnPlace, IsReady, IsServed, places};

use crate::call::{DepotCall, DepotReply, DepotTold};
use crate::doubts::first_manifest;
use crate::images::images;
use crate::job::Job as SessionJob;
use crate::makers::DoubtMakers;
use crate::numbered::{Lease, Numbered, Session, end_all, is_begun, session_of};
use crate::sessions::is_own;
use lr_manifest::Manifest;
use lr_origin::ImageName;
use lr_roots::{Catalog, Keys, NUMBER_MAX};
use lr_rules::IMAGES_MAX;
use lr_spec::OutOfMemory;
use std::alloc::Global;
use std::sync::Arc;

/// The view, the puts and deletions in doubt, the sessions that made puts in doubt, leases and sessions.
#[derive(Drop)]
pub(crate) struct Kernel {
    pub(crate) catalog: Catalog,
    pub(crate) doubts: Keys,
    pub(crate) makers: DoubtMakers,
    pub(crate) leases: Numbered<Lease>,
    pub(crate) sessions: Numbered<Session>,
    pub(crate) next_lease: u64,
    pub(crate) next_session: u64,
    pub(crate) next_number: u64,
}

/// A reply, and what the log keeps of it, if anything.
#[derive(Drop)]
pub(crate) struct Answer {
    pub(crate) reply: DepotReply,
    pub(crate) told: Option<DepotTold>,
}

impl Answer {
    /// Want of memory.
    pub(crate) fn no_memory() -> Answer
        ensures { (result.reply ≡ DepotReply.OutOfMemory) × (result.told ≡ None) }
    {
        Answer {
            reply: DepotReply::OutOfMemory,
            told: None,
        }
    }
}

/// A logged reply.
pub(crate) fn logged(reply: DepotReply, told: DepotTold) -> Answer
    ensures { (result.reply ≡ reply) × (result.told ≡ Some told) }
{
    Answer {
        reply,
        told: Some(told),
    }
}

impl Kernel {
    /// How many leases and sessions are out.
    pub(crate) fn places(&self) -> usize
        requires { places self.now < 2 ^ 64 }
        ensures { result ≡ places self.now }
    {
        self.leases.len() + self.sessions.len()
    }

    /// Whether the caller's call ends something that is out, and so has its place in the log. A reaping may take none.
    pub(crate) fn has_place(&self, caller: u32, asked: &DepotCall) -> bool
        ensures { IsTrue result ↔ HasOwnPlace self.now caller asked.now }
    {
        match asked {
            DepotCall::Close { lease } => self.leases.get(*lease).is_some(),
            DepotCall::Abandon { session } => is_own(&self.sessions, *session, caller),
            DepotCall::Reap => true,
            _ => false,
        }
    }

    /// Leases an image with the manifest of its home.
    pub(crate) fn open_image(&mut self, caller: u32, image: ImageName) -> Answer
        requires ready { IsReady self.old }
        requires number { self.old.next_lease + 1 < 2 ^ 64 }
        ensures served { IsServed self.old self.new caller (call.OpenImage image) (noted.OpenImage image) result }
    {
        if self.catalog.withdrawn(&image) {
            return logged(DepotReply::NoImage, DepotTold::NoImage);
        }
        let Some(home) = self.catalog.home(&image) else {
            return logged(DepotReply::NoImage, DepotTold::NoImage);
        };
        let Ok((manifest, told, leased)) = handles(&self.catalog, home, &image) else {
            return Answer::no_memory();
        };
        let lease = self.next_lease;
        let entry = Lease {
            image,
            manifest: leased,
        };
        let Ok(()) = self.leases.insert(lease, entry) else {
            return Answer::no_memory();
        };
        self.next_lease = lease + 1;
        logged(
            DepotReply::Opened { lease, manifest },
            DepotTold::Opened {
                lease,
                manifest: told,
            },
        )
    }

    /// Ends a lease.
    pub(crate) fn close(&mut self, caller: u32, lease: u64) -> Answer
        requires ready { IsReady self.old }
        ensures served { IsServed self.old self.new caller (call.Close lease) (noted.Close lease) result }
    {
        if self.leases.get(lease).is_none() {
            return logged(DepotReply::NoLease, DepotTold::NoLease);
        }
        self.leases.remove(lease);
        logged(DepotReply::Closed, DepotTold::Closed)
    }

    /// Begins to create an image in the active root.
    pub(crate) fn begin_create(&mut self, alloc: Global, caller: u32, image: ImageName) -> Answer
        requires ready { IsReady self.old }
        requires number { self.old.next_session + 1 < 2 ^ 64 }
        ensures served { IsServed self.old self.new caller (call.BeginCreate image) (noted.BeginCreate image) result }
    {
        let root = self.catalog.roots();
        if root == 0 {
            return logged(DepotReply::NoRoot, DepotTold::NoRoot);
        }
        if self.catalog.is_named(&image) || is_begun(&self.sessions, &image) {
            return logged(DepotReply::Taken, DepotTold::Taken);
        }
        if let Some(key) = first_manifest(&self.doubts, &image) {
            return logged(DepotReply::Doubt(*key), DepotTold::Doubt(*key));
        }
        let Ok(count) = images(alloc, &self.catalog, &self.doubts, &self.sessions) else {
            return Answer::no_memory();
        };
        if count >= IMAGES_MAX as u64 {
            return logged(DepotReply::Full, DepotTold::Full);
        }
        if self.next_number > NUMBER_MAX {
            return logged(DepotReply::Full, DepotTold::Full);
        }
        // Its contract says that the name is one of the grammar.
        let _name = image.as_bytes();
        self.begin(caller, image, root)
    }

    // Begins a session in this root.
    fn begin(&mut self, caller: u32, image: ImageName, root: u32) -> Answer
        requires begins { (makers : Makers) → MayBegin (state_of self.old makers) image root }
        requires ready { IsReady self.old }
        requires number { self.old.next_session + 1 < 2 ^ 64 }
        ensures served { IsServed self.old self.new caller (call.BeginCreate image) (noted.BeginCreate image) result }
    {
        let salt = salt_of(&self.catalog, root);
        let session = self.next_session;
        let number = self.next_number;
        let job = SessionJob::Creates {
            image,
            root,
            number,
        };
        let entry = Session { caller, job };
        let Ok(()) = self.sessions.insert(session, entry) else {
            return Answer::no_memory();
        };
        self.next_session = session + 1;
        self.next_number = number + 1;
        logged(
            DepotReply::Began {
                session,
                root,
                salt,
                number,
            },
            DepotTold::Began {
                session,
                root,
                salt,
                number,
            },
        )
    }

    /// Begins to copy an image from its home to the active root.
    pub(crate) fn begin_migrate(&mut self, caller: u32, image: ImageName) -> Answer
        requires ready { IsReady self.old }
        requires number { self.old.next_session + 1 < 2 ^ 64 }
        ensures served { IsServed self.old self.new caller (call.BeginMigrate image) (noted.BeginMigrate image) result }
    {
        if self.catalog.withdrawn(&image) {
            return logged(DepotReply::NoImage, DepotTold::NoImage);
        }
        let Some(home) = self.catalog.home(&image) else {
            return logged(DepotReply::NoImage, DepotTold::NoImage);
        };
        let to = self.catalog.roots();
        if home == to {
            return logged(
                DepotReply::NotRetiredHome { home },
                DepotTold::NotRetiredHome { home },
            );
        }
        self.begin_move(caller, image, home, to)
    }

    // Begins to copy an image from its home to a later root.
    fn begin_move(&mut self, caller: u32, image: ImageName, from: u32, to: u32) -> Answer
        requires home { IsHome self.old.catalog.view image from }
        requires kept { Lacks self.old.catalog.view (kind.Withdrawn image) }
        requires top { IsTop self.old.catalog.view to }
        requires other { from ≢ to }
        requires ready { IsReady self.old }
        requires number { self.old.next_session + 1 < 2 ^ 64 }
        ensures served { IsServed self.old self.new caller (call.BeginMigrate image) (noted.BeginMigrate image) result }
    {
        let Ok((manifest, told, own)) = handles(&self.catalog, from, &image) else {
            return Answer::no_memory();
        };
        let session = self.next_session;
        let job = SessionJob::Moves {
            image,
            from,
            to,
            manifest: own,
        };
        let entry = Session { caller, job };
        let Ok(()) = self.sessions.insert(session, entry) else {
            return Answer::no_memory();
        };
        self.next_session = session + 1;
        logged(
            DepotReply::Moving {
                session,
                from,
                to,
                manifest,
            },
            DepotTold::Moving {
                session,
                from,
                to,
                manifest: told,
            },
        )
    }

    /// Ends a session of the caller.
    pub(crate) fn abandon(&mut self, caller: u32, session: u64) -> Answer
        requires ready { IsReady self.old }
        ensures served { IsServed self.old self.new caller (call.Abandon session) (noted.Abandon session) result }
    {
        if !is_own(&self.sessions, session, caller) {
            return logged(DepotReply::NoSession, DepotTold::NoSession);
        }
        self.sessions.remove(session);
        logged(DepotReply::Abandoned, DepotTold::Abandoned)
    }

    /// Ends all sessions of the caller.
    pub(crate) fn reap(&mut self, caller: u32) -> Answer
        requires ready { IsReady self.old }
        ensures served { IsServed self.old self.new caller call.Reap noted.Reap result }
    {
        if session_of(&self.sessions, caller).is_none() {
            return Answer {
                reply: DepotReply::Nothing,
                told: None,
            };
        }
        end_all(&mut self.sessions, caller);
        logged(DepotReply::Reaped, DepotTold::Reaped)
    }
}

// Three handles on the manifest of an image in a root.
fn handles(
    catalog: &Catalog,
    root: u32,
    image: &ImageName,
) -> Result<(Arc<Manifest>, Arc<Manifest>, Arc<Manifest>), OutOfMemory>
    requires there { Has catalog.now.view (kind.Manifest root image.now) }
    requires fits { (k : Kind) (x : Held) → map.get catalog.now.view k ≡ Some x → Fits k x }
    ensures { IfOk result (λ ms. (map.get catalog.now.view (kind.Manifest root image.now) ≡ Some (manifest (arc_value ms.0))) × (arc_value ms.1 ≡ arc_value ms.0) × (arc_value ms.2 ≡ arc_value ms.0)) }
{
    let Some(kept) = catalog.manifest(root, image) else {
        unreachable!()
    };
    Ok((
        Arc::try_clone(kept)?,
        Arc::try_clone(kept)?,
        Arc::try_clone(kept)?,
    ))
}

// The salt of a root that is there.
fn salt_of(catalog: &Catalog, root: u32) -> [u8; 32]
    requires there { Has catalog.now.view (kind.Root root) }
    requires fits { (k : Kind) (x : Held) → map.get catalog.now.view k ≡ Some x → Fits k x }
    ensures { map.get catalog.now.view (kind.Root root) ≡ Some (salt result) }
{
    match catalog.salt(root) {
        Some(salt) => *salt,
        None => unreachable!(),
    }
}
