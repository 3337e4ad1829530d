//! What the passes of a shared object leave.
use lr_cache::{CacheCall, CacheReply};
use lr_depot::{DepotNoted, DepotStart, DepotTold};
use lr_device::{DeviceAnswer, DeviceNoted};
use lr_nodes::{NodeCall, NodeReply};
use lr_turn::Joined;

/// The lists of entries of the passes of one shared object. A device is named by its place among the devices, a cache by that
/// of its host among the hosts, a node by its number, each counted from 0.
#[derive(Drop)]
pub enum JoinedOf {
    Device(u32, Joined<DeviceNoted, DeviceAnswer, u64>),
    Cache(u32, Joined<CacheCall, CacheReply, u32>),
    Node(u32, Joined<NodeCall, NodeReply, u32>),
    Depot(Joined<DepotNoted, DepotTold, DepotStart>),
}
