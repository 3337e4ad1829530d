//! Laws, as contracts of functions that do nothing.
ghost use Rattle.std.specs.Prelude.{◌≡◌, ℕ, List};
ghost use Rattle.lr_depot.specs.Machine.{LogEntry};
ghost use Rattle.lr_desk.specs.declared.words.Command.{Command as AnyCommand};
ghost use Rattle.lr_desk.specs.declared.outcome.Outcome.{Outcome as End};
ghost use Rattle.lr_desk.specs.Ends.{Setting, HasWalked};
ghost use Rattle.lr_desk.specs.Causes.{IsDepots, Tells};
ghost use Rattle.lr_desk.specs.Made.{CreationsLeaveImages, ReadingsWriteImages};
ghost use Rattle.lr_desk.specs.Alone.{CommandsComeAlone, MemoryIsWanted};
ghost use Rattle.lr_desk.specs.Shared.{EqualChunksShareAKey};

use lr_images::created_images_denote;

/// A refusal, a spoiled key and a fault of the store are a walk's outcome exactly where an entry of its log tells of them.
pub fn logs_tell_of_outcomes()
    ensures tells { (c : AnyCommand) (s : Setting) (log : List LogEntry) (o : End) (text : List ℕ) → HasWalked c s log o text → IsDepots o → Tells log o }
    ensures only { (c : AnyCommand) (s : Setting) (log : List LogEntry) (o : End) (text : List ℕ) → HasWalked c s log o text → (e : End) → IsDepots e → Tells log e → o ≡ e }
{}

/// A creation that was done read its source to the end, and left an image of all that it read, in a store that was sound; a
/// reading that was done wrote the bytes of the image.
pub fn done_images()
    ensures made { CreationsLeaveImages }
    ensures written { ReadingsWriteImages }
{
    created_images_denote();
}

/// A command is the only caller of a depot that has just started. So no reply tells it that its lease, its session or a chunk
/// isn't there, that its manifest isn't its session's, that a put was in doubt before, or that another has a session. And its
/// walk ends for want of memory only where the command found none or the depot told of none.
pub fn commands_come_alone()
    ensures alone { CommandsComeAlone }
    ensures memory { MemoryIsWanted }
{}

/// Equal chunks are one object of their root: pieces of whichever images and tenants that are equal once they are filled with
/// zeros to whole chunks have, sealed by creations in one root, one key.
pub fn equal_chunks_share_a_key()
    ensures { EqualChunksShareAKey }
{}
