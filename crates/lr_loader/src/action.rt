//! What a load asks and is told.
ghost use Rattle.std.specs.Prelude.{◌≡◌};

use lr_cache::{CacheCall, CacheReply};
use lr_depot::{DepotCall, DepotReply};
use lr_manifest::Chunk;
use lr_nodes::{NodeCall, NodeReply};
use lr_object::ObjectId;
use std::sync::Arc;

/// What a load ends with.
#[derive(Drop)]
pub enum LoadEnd {
    /// The chunk of the name.
    Chunk(Arc<Chunk>),
    /// The depot's answer that ended the load: no chunk, and not want of memory.
    Other(DepotReply),
    /// No memory was found, by an object or by the load itself.
    Memory,
}

/// A call on an object, or the end. Caches and nodes are told by their number.
#[derive(Drop)]
pub enum LoadAction {
    Cache(u32, CacheCall),
    Node(u32, NodeCall),
    Depot(DepotCall),
    End(LoadEnd),
}

/// A reply of the called object.
#[derive(Drop)]
pub enum LoadReply {
    Cache(CacheReply),
    Node(NodeReply),
    Depot(DepotReply),
}

impl LoadAction {
    ghost use Rattle.lr_loader.specs.Seen.{called_object};

    /// The object that is called: none at the end.
    pub fn object(&self) -> Option<ObjectId>
        ensures { result ≡ called_object self.now }
    {
        match self {
            LoadAction::Cache(host, _) => Some(ObjectId::Cache(*host)),
            LoadAction::Node(node, _) => Some(ObjectId::Node(*node)),
            LoadAction::Depot(_) => Some(ObjectId::Depot),
            LoadAction::End(_) => None,
        }
    }
}
