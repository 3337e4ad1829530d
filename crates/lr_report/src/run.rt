//! A run that is reported.
use lr_actors::{JoinedOf, Trail};
use lr_cache::Cache;
use lr_depot::DepotLog;
use lr_device::Device;
use lr_manifest::Manifest;
use lr_nodes::Node;
use lr_origin::ImageName;
use lr_roots::Catalog;
use lr_script::Script;
use std::sync::Arc;

/// What a `device` line opened: its image, the length of the image in bytes, padded to whole pages, and the manifest that was leased, which
/// names its chunks.
#[derive(Drop)]
pub struct OpenDevice {
    pub image: ImageName,
    pub length: u64,
    pub manifest: Arc<Manifest>,
}

/// What the `device` lines of a script opened, in their order.
#[derive(Drop)]
pub struct Opening {
    pub devices: Vec<OpenDevice>,
}

/// What was run: the script that was read, and what is left of its actors and of all that they called.
///
/// Devices stand in the order of their lines, caches in that of the `host` lines, nodes by their numbers. Trails stand in
/// the order of the actors, that of the after part last.
#[derive(Drop)]
pub struct Run {
    pub script: Script,
    pub opening: Opening,
    pub devices: Vec<Device>,
    pub caches: Vec<Cache>,
    pub nodes: Vec<Node>,
    pub depot: DepotLog,
    /// The depot's view at its end.
    pub catalog: Catalog,
    pub trails: Vec<Trail>,
    /// The lists of those that shared an object, where objects were shared.
    pub joined: Vec<JoinedOf>,
}
