//! What is left of a depot.
ghost use Rattle.std.specs.Prelude.{◌≡◌, slice_get};
ghost use Rattle.lr_roots.specs.Keys.{key_of};

use crate::call::{DepotNoted, DepotTold};
use crate::doubts::doubt_at;
use lr_object::Entry;
use lr_origin::Key;
use lr_roots::Keys;
use std::marker::Model;

/// The log of a depot, and the keys of the puts that were in doubt at its end. Nothing here takes memory.
#[derive(Drop)]
pub struct DepotLog {
    pub(crate) log: Vec<Entry<DepotNoted, DepotTold>>,
    pub(crate) doubts: Keys,
}

impl Model for DepotLog {
    ghost use Rattle.lr_depot.specs.Left.{Left};

    ghost Value = { Left };

    ghost use Rattle.std.specs.FinMap as map;

    ghost view = { λ l. record { log = l.log.items; doubts = map.keys l.doubts } };
}

impl DepotLog {
    /// The log.
    pub fn entries(&self) -> &[Entry<DepotNoted, DepotTold>]
        ensures { result.now ≡ self.now.log }
    {
        &self.log
    }

    /// The key in doubt at a place, counted from 0 in byte order: `None` exactly past the last.
    pub fn doubt(&self, at: u64) -> Option<&Key>
        ensures { key_of result ≡ slice_get self.now.doubts at }
    {
        doubt_at(&self.doubts, at)
    }
}
