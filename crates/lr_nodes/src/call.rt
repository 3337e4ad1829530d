//! Calls and replies of a node.
use lr_manifest::Name;
use lr_stripe::Stripe;
use std::sync::Arc;

/// What a caller asks of a node.
#[derive(Drop)]
pub enum NodeCall {
    /// Looks a stripe up.
    Get { name: Name, index: u8 },
    /// Puts a stripe in, in place of one of its name and index.
    Put { stripe: Arc<Stripe> },
    /// Takes a stripe out.
    Drop { name: Name, index: u8 },
    /// Changes one bit of the byte at a place below 131,072 of a stripe, where it has a byte there.
    Flip { name: Name, index: u8, at: u32 },
    /// Takes all stripes out.
    Lose,
}

/// What a node answers.
#[derive(Drop)]
pub enum NodeReply {
    /// The stripe, which goes first.
    Found(Arc<Stripe>),
    /// There is no stripe of this name and index.
    Absent,
    /// The stripe went first, and the last one was dropped where the node was full and had none of this name and
    /// index.
    Kept,
    Dropped,
    Flipped,
    /// So many stripes went.
    Lost(u32),
    /// Nothing changed. Not logged.
    OutOfMemory,
}
