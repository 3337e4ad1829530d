//! What a job asks of objects and is told.
use lr_cache::{CacheCall, CacheReply};
use lr_depot::{DepotCall, DepotReply};
use lr_device::{DeviceAnswer, DeviceStep};
use lr_nodes::{NodeCall, NodeReply};
use lr_walk::Answer;

/// A call on an object. Devices, caches and nodes are told by their number.
#[derive(Drop)]
pub enum ActorCall {
    Device(u32, DeviceStep),
    Cache(u32, CacheCall),
    Node(u32, NodeCall),
    Depot(DepotCall),
}

/// A reply of the called object.
#[derive(Drop)]
pub enum ActorReply {
    Device(DeviceAnswer),
    Cache(CacheReply),
    Node(NodeReply),
    Depot(DepotReply),
}

/// What a job does next: a call, or its end.
#[derive(Drop)]
pub enum JobAction {
    Call(ActorCall),
    End(Answer),
}
