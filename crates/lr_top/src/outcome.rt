//! What a command leaves.
use lr_depot::DepotLog;
use lr_io::Line;
use lr_origin::Origin;
use lr_report::Run;

/// What a command left beside its output.
#[derive(Drop)]
pub enum RunRecord {
    /// Nothing was run.
    Nothing,
    /// A depot was started and no actor was begun: a single command, or a play that stopped before. It has this log.
    Command(DepotLog),
    /// The actors of a script were begun.
    Run(Run),
}

/// What the top call gives back.
#[derive(Drop)]
pub struct Outcome<O: Origin> {
    /// The exit status: 0 done, 2 wrong words, 3 no script, 4 the source failed, 5 the sink failed, 6 the store failed,
    /// 7 want of memory, 8 refused, 9 a foreign key, 10 a spoiled key, 11 too many keys.
    pub status: u8,
    /// The status in words; empty for 0.
    pub line: Line,
    pub run: RunRecord,
    /// The store.
    pub origin: O,
}
