//! Why the setup stops.
ghost use Rattle.std.specs.Prelude.{◌≡◌};
ghost use Rattle.lr_walk.specs.Depot.{seen_reply};
ghost use Rattle.lr_prepare.specs.Stopped.{Tells};
ghost use Rattle.lr_prepare.specs.declared.error.SetupError.TheVariants.{OutOfMemory as NoMemory};

use lr_depot::DepotReply;
use lr_origin::Key;
use lr_spec::OutOfMemory;

/// Why the setup lines of a script weren't all done. Lines of the script are counted from 1.
#[derive(Drop)]
pub enum SetupError {
    /// The depot refused this line: the image isn't there, is taken or in doubt, there is no root or no room for one more.
    Refused { line: u32, reply: DepotReply },
    /// The tenant's key of this `device` line isn't the one that its image was sealed under.
    Sealed { line: u32 },
    /// The store failed: its count of faults rose.
    Fault,
    /// The object under this key is gone or isn't the one that belongs there.
    Spoiled(Key),
    /// No memory was found.
    OutOfMemory,
}

impl From<OutOfMemory> for SetupError {
    ghost from_gives = { λ _ e. e ≡ NoMemory };

    fn from(_: OutOfMemory) -> SetupError {
        SetupError::OutOfMemory
    }
}

/// What stops a line that the depot gave this reply.
pub(crate) fn error_of(line: u32, reply: DepotReply) -> SetupError
    ensures { Tells line (seen_reply reply) result }
{
    match reply {
        DepotReply::Fault(_) => SetupError::Fault,
        DepotReply::Spoiled(key) => SetupError::Spoiled(key),
        DepotReply::NoImage => SetupError::Refused {
            line,
            reply: DepotReply::NoImage,
        },
        DepotReply::NoRoot => SetupError::Refused {
            line,
            reply: DepotReply::NoRoot,
        },
        DepotReply::Taken => SetupError::Refused {
            line,
            reply: DepotReply::Taken,
        },
        DepotReply::Full => SetupError::Refused {
            line,
            reply: DepotReply::Full,
        },
        DepotReply::RootsEnd => SetupError::Refused {
            line,
            reply: DepotReply::RootsEnd,
        },
        DepotReply::Doubt(key) => SetupError::Refused {
            line,
            reply: DepotReply::Doubt(key),
        },
        _ => SetupError::OutOfMemory,
    }
}
