//! The limits of a script, each named once, as in `specs/Limits`.

/// Bytes of a line without its LF.
pub const LINE_MOST: usize = 4096;

/// Lines, passed over ones too.
pub const LINES_MOST: u32 = 100_000;

/// Bytes of a script, each LF too.
pub const BYTES_MOST: usize = 4_194_304;

pub const HOSTS_MOST: usize = 64;

pub const DEVICES_MOST: usize = 64;

pub const ACTORS_MOST: usize = 32;

/// Chunks of a host's cache.
pub const CACHE_MOST: u64 = 1024;

/// Chunks of all caches.
pub const CACHES_MOST: u32 = 2048;

pub const NODES_LEAST: u64 = 5;

pub const NODES_MOST: u64 = 32;

/// Stripes of a node.
pub const NODE_MOST: u64 = 4096;

/// Stripes of all nodes.
pub const ALL_NODES_MOST: u64 = 8192;

/// Nodes where no `nodes` line says it.
pub const NODES_DEFAULT: u32 = 5;

/// Stripes of a node where no `nodes` line says it.
pub const NODE_DEFAULT: u32 = 1024;

/// Raw bytes of an image.
pub const IMAGE_MOST: u64 = 67_108_864;

/// Raw bytes of all images of a script.
pub const IMAGES_MOST: u64 = 268_435_456;

/// Bytes of a device call.
pub const CALL_MOST: u64 = 1_048_576;

/// Bytes of all device calls of a script.
pub const CALLS_MOST: u64 = 268_435_456;

pub const JOBS_MOST: u32 = 20_000;

/// Runs on a line.
pub const RUNS_MOST: usize = 64;

/// The number that a body grows from.
pub const SEED_MOST: u64 = 4_294_967_295;

pub const ROOTS_MOST: u64 = 1000;

/// The greatest index of a chunk.
pub const CHUNK_LAST: u64 = 20_479;

/// The greatest index of a stripe.
pub const STRIPE_LAST: u64 = 4;

/// The place of the last byte of a stripe.
pub const BYTE_LAST: u64 = 131_071;

/// Steps before a crash.
pub const CRASH_MOST: u64 = 1_000_000;

/// Pairs of a schedule.
pub const PAIRS_MOST: usize = 64;

/// The sum of the counts of a schedule's pairs.
pub const COUNTS_MOST: u64 = 1_000_000;
