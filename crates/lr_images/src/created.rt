//! What a creation answers.
ghost use Rattle.std.specs.Prelude.{◌≡◌};
ghost use Rattle.lr_images.specs.Created.{IsAnswer};
ghost use Rattle.lr_creator.specs.Seen.{seen_end};

use lr_creator::CreateEnd;
use lr_depot::DepotReply;

/// How the creation of an image ended.
#[derive(Drop)]
pub enum Created {
    /// The image is made in this root, of all the bytes that the source had.
    Root(u32),
    /// The depot's answer that ended it: a refusal, or that its store failed or is spoiled.
    Refused(DepotReply),
    /// The source failed: its count of faults rose in this call.
    ReadFault,
    /// The source had more than 67,108,864 bytes.
    TooLong,
    /// No memory was found.
    OutOfMemory,
}

/// The answer of a creation that was not stopped for its source.
pub(crate) fn answer_of(end: CreateEnd) -> Created
    ensures unread { result ≡ Created.ReadFault → ⊥ }
    ensures answer { IsAnswer result (seen_end end) }
{
    match end {
        CreateEnd::Made { root } => Created::Root(root),
        CreateEnd::Other(reply) => Created::Refused(reply),
        CreateEnd::Memory => Created::OutOfMemory,
        CreateEnd::Stopped => Created::OutOfMemory,
    }
}
