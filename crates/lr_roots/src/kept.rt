//! What a view keeps of an object.
ghost use Rattle.std.specs.Prelude.{◌≡◌, Some};

use lr_manifest::Manifest;
use std::sync::Arc;

/// What is kept of an object.
#[derive(Drop)]
pub enum Kept {
    /// The salt of a root: the body of its first key.
    Salt([u8; 32]),
    /// The manifest of an image in a root.
    Manifest(Arc<Manifest>),
    /// The key alone.
    Empty,
}
