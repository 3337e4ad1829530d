//! The name of an object of a run.
/// An object of a run. Devices, caches and nodes are counted from 0.
#[derive(Clone, Copy, Debug, PartialEq, Eq)]
pub enum ObjectId {
    Device(u32),
    /// The cache of a host.
    Cache(u32),
    Node(u32),
    Depot,
}
