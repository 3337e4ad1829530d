//! What a load is of.
use lr_manifest::Name;

/// The chunk that a load is after, and the objects that have it.
///
/// The cache is that of a host, counted from 0. The lease names the image on the depot, and the index is the chunk's
/// place among the names of its manifest. The stripes stand on nodes, of which there are so many.
#[derive(Clone, Copy, Debug, PartialEq, Eq)]
pub struct LoadPlace {
    pub host: u32,
    pub lease: u64,
    pub index: u32,
    pub name: Name,
    pub nodes: u32,
}
