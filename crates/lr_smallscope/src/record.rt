//! What the replies so far tell: leases, sessions, puts in doubt, and the images that were made.
use crate::error::ScopeError;
use crate::images::{IMAGES, Image};
use crate::keys::{Part, ROOTS, place, place_of};
use crate::moves::Ask;
use crate::rules::Broken;
use lr_depot::DepotReply;
use lr_origin::Key;
use std::alloc::Global;

#[derive(Clone, Copy)]
pub struct Lease {
    pub number: u64,
    pub image: Image,
}

/// A session. A creation copies from no root, which is 0 here.
#[derive(Clone, Copy)]
pub struct Session {
    pub number: u64,
    pub caller: u32,
    pub image: Image,
    pub from: u32,
    pub to: u32,
    pub creation: u64,
}

/// A put in doubt: the place of its key, and the session that made it, or 0.
#[derive(Clone, Copy)]
pub struct Doubt {
    pub place: usize,
    pub maker: u64,
}

/// What the replies so far tell.
#[derive(Drop)]
pub struct Record {
    pub leases: Vec<Lease>,
    pub sessions: Vec<Session>,
    pub doubts: Vec<Doubt>,
    pub known_a: bool,
    pub known_b: bool,
}

impl Record {
    pub fn new(alloc: Global) -> Record {
        Record {
            leases: Vec::new(alloc),
            sessions: Vec::new(alloc),
            doubts: Vec::new(alloc),
            known_a: false,
            known_b: false,
        }
    }

    pub fn session(&self, at: usize) -> Option<Session> {
        self.sessions.get(at).copied()
    }

    /// The number of the session at a place, or 0, which none has.
    pub fn session_number(&self, at: usize) -> u64 {
        self.sessions.get(at).map_or(0, |session| session.number)
    }

    /// The number of the lease at a place, or 0, which none has.
    pub fn lease_number(&self, at: usize) -> u64 {
        self.leases.get(at).map_or(0, |lease| lease.number)
    }

    /// The place of the key in doubt, or that of a key that never is.
    pub fn doubt_place(&self, at: usize) -> usize {
        self.doubts.get(at).map_or(0, |doubt| doubt.place)
    }

    /// Whether the image is known or leased, so that it must have a home unless it is withdrawn and not leased.
    pub fn is_known(&self, image: Image) -> bool {
        match image {
            Image::A => self.known_a,
            Image::B => self.known_b,
        }
    }

    pub fn is_leased(&self, image: Image) -> bool {
        self.leases.iter().any(|lease| lease.image == image)
    }

    fn know(&mut self, image: Image) {
        match image {
            Image::A => self.known_a = true,
            Image::B => self.known_b = true,
        }
    }

    fn end_session(&mut self, number: u64) {
        self.sessions.retain(|session| session.number != number);
    }

    fn settle(&mut self, at: usize) {
        self.doubts.retain(|doubt| doubt.place != at);
    }

    // The put of a key is in doubt, in the order of the keys.
    fn put_in_doubt(&mut self, at: usize, maker: u64) -> Result<(), ScopeError> {
        self.settle(at);
        self.doubts.push(Doubt { place: at, maker })?;
        Ok(())
    }

    // The image of the manifest at a place.
    fn image_at(at: usize) -> Option<Image> {
        for image in IMAGES.iter() {
            if (1..=ROOTS).any(|root| image.place(root) == at) {
                return Some(*image);
            }
        }
        None
    }

    // The object of a put in doubt is there.
    fn found(&mut self, at: usize) {
        let maker = self
            .doubts
            .iter()
            .find(|doubt| doubt.place == at)
            .map_or(0, |doubt| doubt.maker);
        self.settle(at);
        if let Some(image) = Record::image_at(at) {
            self.know(image);
            self.end_session(maker);
        }
    }

    // The place of the key that a call puts where it is tried again, and the session that puts it.
    fn put_of(&self, asked: Ask) -> Option<(usize, u64)> {
        match asked {
            Ask::Chunk(at) => {
                let session = self.session(at)?;
                Some((place(session.to, Part::Chunk), session.number))
            }
            Ask::Manifest(at) | Ask::Finish(at) => {
                let session = self.session(at)?;
                Some((session.image.place(session.to), session.number))
            }
            Ask::Withdraw(image) => Some((image.withdrawn(), 0)),
            Ask::Expire(root) => Some((place(root, Part::Expired), 0)),
            Ask::Delete(root) => Some((place(root, Part::Deleted), 0)),
            _ => None,
        }
    }

    // The store failed at a key.
    fn fail(&mut self, asked: Ask, key: &Key) -> Result<(), ScopeError> {
        let Some(at) = place_of(key.as_bytes()) else {
            return Err(ScopeError::Refused);
        };
        if asked == Ask::Rotate {
            return self.put_in_doubt(at, 0);
        }
        match self.put_of(asked) {
            Some((_, maker)) => self.put_in_doubt(at, maker),
            None => Ok(()),
        }
    }

    // A put was acknowledged, and its session ends where it was its last.
    fn done(&mut self, asked: Ask, is_last: bool) {
        let Some((at, session)) = self.put_of(asked) else {
            return;
        };
        self.settle(at);
        if is_last {
            if let Some(image) = Record::image_at(at) {
                self.know(image);
            }
            self.end_session(session);
        }
    }

    fn opened(&mut self, asked: Ask, number: u64) -> Result<(), ScopeError> {
        if let Ask::Open(image) = asked {
            self.leases.push(Lease { number, image })?;
        }
        Ok(())
    }

    fn began(&mut self, asked: Ask, session: Session) -> Result<(), ScopeError> {
        let (Ask::Begin(image) | Ask::Migrate(image)) = asked else {
            return Ok(());
        };
        self.sessions.push(Session { image, ..session })?;
        Ok(())
    }

    // What a call ends that is at a place.
    fn ended(&mut self, asked: Ask) {
        match asked {
            Ask::Close(at) => {
                let number = self.lease_number(at);
                self.leases.retain(|lease| lease.number != number);
            }
            Ask::Abandon(at) => {
                let number = self.session_number(at);
                self.end_session(number);
            }
            Ask::Settle(at) => {
                let at = self.doubt_place(at);
                self.settle(at);
            }
            _ => {}
        }
    }

    /// Keeps what a reply tells. What a reply may never be is broken.
    pub fn keep(
        &mut self,
        caller: u32,
        asked: Ask,
        reply: &DepotReply,
    ) -> Result<Option<Broken>, ScopeError> {
        match reply {
            DepotReply::Opened { lease, .. } => self.opened(asked, *lease)?,
            DepotReply::Began {
                session,
                root,
                number,
                ..
            } => self.began(
                asked,
                Session {
                    number: *session,
                    caller,
                    image: Image::A,
                    from: 0,
                    to: *root,
                    creation: *number,
                },
            )?,
            DepotReply::Moving {
                session,
                from,
                to,
                ..
            } => self.began(
                asked,
                Session {
                    number: *session,
                    caller,
                    image: Image::A,
                    from: *from,
                    to: *to,
                    creation: 0,
                },
            )?,
            DepotReply::Closed | DepotReply::Abandoned | DepotReply::Absent => self.ended(asked),
            DepotReply::Made { .. } | DepotReply::Moved { .. } => self.done(asked, true),
            DepotReply::Kept | DepotReply::Withdrawn | DepotReply::Expired | DepotReply::Deleted =>
                self.done(asked, false),
            DepotReply::Reaped => self.sessions.retain(|session| session.caller != caller),
            DepotReply::There => {
                if let Ask::Settle(at) = asked {
                    let at = self.doubt_place(at);
                    self.found(at);
                }
            }
            DepotReply::Fault(key) => self.fail(asked, key)?,
            DepotReply::Spoiled(_) => return Ok(Some(Broken::Spoiled)),
            DepotReply::OutOfMemory => return Err(ScopeError::OutOfMemory),
            _ => {}
        }
        Ok(None)
    }
}
