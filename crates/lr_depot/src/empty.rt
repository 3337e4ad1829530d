//! The log of a depot that wasn't started.
ghost use Rattle.std.specs.Prelude.{◌≡◌, []};

use crate::log::DepotLog;
use lr_roots::Keys;
use std::alloc::Global;

impl DepotLog {
    /// The empty log of a depot that wasn't started. It takes no memory.
    pub fn empty(alloc: Global) -> DepotLog
        ensures { result.log ≡ [] }
    {
        DepotLog {
            log: Vec::new(alloc),
            doubts: Keys::new(alloc),
        }
    }
}
