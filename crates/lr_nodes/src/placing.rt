//! Which node a stripe stands on.
ghost use Rattle.std.specs.Prelude.{◌≡◌, ◌<◌, ◌+◌, ◌%◌};
ghost use Rattle.std.specs.Int.{w16, from_be_bytes};

use byteorder::{BigEndian, ByteOrder};
use lr_manifest::Name;

/// The node, counted from 0, of a stripe of a chunk, where there are so many nodes, at least one.
///
/// It is the first two bytes of the name as a big-endian number, plus the index of the stripe, modulo the nodes.
pub fn place(name: &Name, index: u8, nodes: u32) -> u32
    requires { 0 < nodes }
    ensures node { result ≡ (from_be_bytes w16 name.now.bytes + index) % nodes }
    ensures within { result < nodes }
{
    (u32::from(BigEndian::read_u16(name.bytes.as_slice())) + u32::from(index)) % nodes
}
