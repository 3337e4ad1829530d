//! What the end of a machine makes of a command: the text to write, or how else the command ended.
ghost use Rattle.std.specs.Prelude.{◌≡◌, ◌++◌, IfOk, codes, decimal};
ghost use Rattle.lr_walk.specs.Depot.{seen_reply};
ghost use Rattle.lr_collector.specs.Seen.{seen_end as seen_collection};
ghost use Rattle.lr_migrator.specs.Seen.{seen_end as seen_migration};
ghost use Rattle.lr_desk.specs.declared.outcome.Outcome.TheVariants as outcome;
ghost use Rattle.lr_images.specs.Cat.{error_end};
ghost use Rattle.lr_desk.specs.Ends.{outcome_of, text_of, outcome_at, text_at, outcome_moved, text_moved, failure, outcome_made, text_made, outcome_read, Yields};

use crate::outcome::{Outcome, Refusal};
use lr_collector::CollectEnd;
use lr_depot::DepotReply;
use lr_images::{CatError, Created};
use lr_migrator::MigrateEnd;
use lr_spec::OutOfMemory;
use lr_text::put_number;
use std::alloc::Global;

// A text of one line.
fn plain(alloc: Global, text: &[u8]) -> Result<Vec<u8>, Outcome>
    ensures { Yields outcome.Done text.now result }
{
    match Vec::from_slice(alloc, text) {
        Ok(line) => Ok(line),
        Err(_) => Err(Outcome::Memory),
    }
}

// A text with a number, as a line.
fn line_with(alloc: Global, head: &[u8], number: u64) -> Result<Vec<u8>, OutOfMemory>
    ensures { IfOk result (λ v. v.items ≡ head.now ++ (decimal number ++ codes "\n")) }
{
    let mut line = Vec::from_slice(alloc, head)?;
    put_number(&mut line, number)?;
    line.extend_from_slice(b"\n")?;
    Ok(line)
}

// A text of one line that ends with a number.
fn numbered(alloc: Global, head: &[u8], number: u64) -> Result<Vec<u8>, Outcome>
    ensures { Yields outcome.Done (head.now ++ (decimal number ++ codes "\n")) result }
{
    match line_with(alloc, head, number) {
        Ok(line) => Ok(line),
        Err(OutOfMemory) => Err(Outcome::Memory),
    }
}

// `moved FROM TO`, as a line.
fn move_line(alloc: Global, from: u32, to: u32) -> Result<Vec<u8>, OutOfMemory>
    ensures { IfOk result (λ v. v.items ≡ codes "moved " ++ (decimal from ++ (codes " " ++ (decimal to ++ codes "\n")))) }
{
    let mut line = Vec::from_slice(alloc, b"moved ")?;
    put_number(&mut line, u64::from(from))?;
    line.extend_from_slice(b" ")?;
    put_number(&mut line, u64::from(to))?;
    line.extend_from_slice(b"\n")?;
    Ok(line)
}

// The text of an image that moved.
fn moved(alloc: Global, from: u32, to: u32) -> Result<Vec<u8>, Outcome>
    ensures { Yields outcome.Done (codes "moved " ++ (decimal from ++ (codes " " ++ (decimal to ++ codes "\n")))) result }
{
    match move_line(alloc, from, to) {
        Ok(line) => Ok(line),
        Err(OutOfMemory) => Err(Outcome::Memory),
    }
}

// What the reply that ended a machine makes of a command.
fn of_reply(alloc: Global, reply: &DepotReply) -> Result<Vec<u8>, Outcome>
    ensures { Yields (outcome_of (seen_reply reply.now)) (text_of (seen_reply reply.now)) result }
{
    match reply {
        DepotReply::Rotated { root } => numbered(alloc, b"root ", u64::from(*root)),
        DepotReply::Withdrawn => plain(alloc, b"withdrawn\n"),
        DepotReply::Expired => plain(alloc, b"expired\n"),
        DepotReply::Deleted => plain(alloc, b"deleted\n"),
        DepotReply::Fault(_) => Err(Outcome::OriginFault),
        DepotReply::Spoiled(key) => Err(Outcome::Spoiled(*key)),
        DepotReply::NoImage => Err(Outcome::Refused(Refusal::NoImage)),
        DepotReply::NoRoot => Err(Outcome::Refused(Refusal::NoRoot)),
        DepotReply::Taken => Err(Outcome::Refused(Refusal::Taken)),
        DepotReply::Full => Err(Outcome::Refused(Refusal::Full)),
        DepotReply::RootsEnd => Err(Outcome::Refused(Refusal::RootsEnd)),
        DepotReply::Overtaken { home } => Err(Outcome::Refused(Refusal::Overtaken(*home))),
        DepotReply::NotRetiredHome { home } => Err(Outcome::Refused(Refusal::NotRetiredHome(
            *home,
        ))),
        DepotReply::NotRetired => Err(Outcome::Refused(Refusal::NotRetired)),
        DepotReply::NotExpired => Err(Outcome::Refused(Refusal::NotExpired)),
        DepotReply::NotDeleted => Err(Outcome::Refused(Refusal::NotDeleted)),
        DepotReply::Serves(image) => Err(Outcome::Refused(Refusal::Serves(*image))),
        DepotReply::Session(number) => Err(Outcome::Refused(Refusal::Session(*number))),
        DepotReply::Doubt(key) => Err(Outcome::Refused(Refusal::Doubt(*key))),
        _ => Err(Outcome::Memory),
    }
}

/// What the end of a collection makes of a command.
pub(crate) fn of_collection(alloc: Global, end: CollectEnd) -> Result<Vec<u8>, Outcome>
    ensures { Yields (outcome_at (seen_collection end)) (text_at (seen_collection end)) result }
{
    match end {
        CollectEnd::Answered(reply) => of_reply(alloc, &reply),
        CollectEnd::Swept { count } => numbered(alloc, b"swept ", count),
        CollectEnd::Memory => Err(Outcome::Memory),
    }
}

/// What the end of a migration makes of a command.
pub(crate) fn of_migration(alloc: Global, end: MigrateEnd) -> Result<Vec<u8>, Outcome>
    ensures { Yields (outcome_moved (seen_migration end)) (text_moved (seen_migration end)) result }
{
    match end {
        MigrateEnd::Moved { from, to } => moved(alloc, from, to),
        MigrateEnd::Other(reply) => of_reply(alloc, &reply),
        MigrateEnd::Memory => Err(Outcome::Memory),
    }
}

/// How a reply ends a command that it didn't do.
pub fn outcome_of_refusal(alloc: Global, reply: &DepotReply) -> Outcome
    ensures { result ≡ failure (outcome_of (seen_reply reply.now)) }
{
    match of_reply(alloc, reply) {
        Ok(_) => Outcome::Memory,
        Err(outcome) => outcome,
    }
}

/// What the answer of a creation makes of a command.
pub(crate) fn of_creation(alloc: Global, created: Created) -> Result<Vec<u8>, Outcome>
    ensures { Yields (outcome_made created) (text_made created) result }
{
    match created {
        Created::Root(root) => numbered(alloc, b"created ", u64::from(root)),
        Created::Refused(reply) => Err(outcome_of_refusal(alloc, &reply)),
        Created::ReadFault => Err(Outcome::ReadFault),
        Created::TooLong => Err(Outcome::Refused(Refusal::TooLong)),
        Created::OutOfMemory => Err(Outcome::Memory),
    }
}

/// How a command ends whose image wasn't read.
pub(crate) fn of_error(alloc: Global, error: CatError) -> Outcome
    ensures { result ≡ outcome_read (error_end error) }
{
    match error {
        CatError::Refused(reply) => outcome_of_refusal(alloc, &reply),
        CatError::Sealed => Outcome::Refused(Refusal::Sealed),
        CatError::OutOfMemory => Outcome::Memory,
    }
}
