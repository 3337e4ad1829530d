//! What all actors share.
ghost use Rattle.std.specs.Prelude.{◌≡◌, slice_get, option_map};
ghost use Rattle.lr_actors.specs.Places.{seen_place, key_bytes};

use lr_cache::Cache;
use lr_depot::Depot;
use lr_device::Device;
use lr_manifest::{ChunkKey, Manifest, Name};
use lr_nodes::Node;
use lr_origin::Origin;
use lr_seal::KeyTable;
use std::sync::Arc;

/// Where a device stands: the host whose cache serves it, the lease of its image on the depot, the image's manifest, and
/// the keys of its chunks.
#[derive(Drop)]
pub struct DevicePlace {
    pub host: u32,
    pub lease: u64,
    pub manifest: Arc<Manifest>,
    pub keys: KeyTable,
}

impl DevicePlace {
    /// The name of a chunk, by its number. `None` exactly past the last one.
    pub fn name(&self, index: u32) -> Option<Name>
        ensures { result ≡ slice_get (seen_place self.now).names index }
    {
        let names = self.manifest.names();
        names.get(index as usize).copied()
    }

    /// The key of a chunk, by its number. `None` exactly past the last one.
    pub fn key(&self, index: u32) -> Option<ChunkKey>
        ensures { option_map key_bytes result ≡ slice_get (seen_place self.now).keys index }
    {
        self.keys.get(index).copied()
    }
}

/// The devices, hosts and nodes that actors call on. Devices are told by their place here, hosts and nodes by their
/// number, counted from 0.
#[derive(Drop)]
pub struct Context {
    pub devices: Vec<DevicePlace>,
    pub hosts: u32,
    pub nodes: u32,
}

/// The objects that actors call on.
#[derive(Drop)]
pub struct Parts<O: Origin> {
    pub devices: Vec<Device>,
    pub caches: Vec<Cache>,
    pub nodes: Vec<Node>,
    pub depot: Depot<O>,
}
