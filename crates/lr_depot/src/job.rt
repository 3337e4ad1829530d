//! What a caller's session is for, as the depot keeps it.
use lr_manifest::Manifest;
use lr_origin::ImageName;
use std::sync::Arc;

/// What a session is for.
#[derive(Drop)]
pub(crate) enum Job {
    /// To create an image in a root, with a creation number.
    Creates {
        image: ImageName,
        root: u32,
        number: u64,
    },
    /// To copy an image from one root to another, with its manifest.
    Moves {
        image: ImageName,
        from: u32,
        to: u32,
        manifest: Arc<Manifest>,
    },
}
