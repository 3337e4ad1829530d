//! Calls and replies of a depot, and what its log keeps of them.
use lr_manifest::{Chunk, Manifest, Name};
use lr_origin::{ImageName, Key};
use std::sync::Arc;

/// What a caller asks of the depot. Leases and sessions are counted from 1.
#[derive(Drop)]
pub enum DepotCall {
    /// Leases an image.
    OpenImage {
        image: ImageName,
    },
    /// Gets a chunk of a leased image, by its index in the manifest, from the image's home of this moment.
    Fetch {
        lease: u64,
        index: u32,
    },
    /// Ends a lease.
    Close {
        lease: u64,
    },
    /// Begins to create an image in the active root.
    BeginCreate {
        image: ImageName,
    },
    /// Puts a chunk in the root into which the session puts.
    PutChunk {
        session: u64,
        chunk: Arc<Chunk>,
    },
    /// Puts the manifest of a creation and ends its session.
    PutManifest {
        session: u64,
        manifest: Arc<Manifest>,
    },
    /// Ends a session.
    Abandon {
        session: u64,
    },
    /// Begins the next root, which becomes the active one.
    Rotate {
        salt: [u8; 32],
    },
    /// Begins to copy an image from its home to the active root.
    BeginMigrate {
        image: ImageName,
    },
    /// Gets a chunk of an image that is copied, by its index in the manifest, from the root that it is copied from.
    CopyRead {
        session: u64,
        index: u32,
    },
    /// Puts the manifest of a copied image in the root that it is copied to, and ends the session.
    FinishMigrate {
        session: u64,
    },
    /// Withdraws an image: it can't be opened any more.
    Withdraw {
        image: ImageName,
    },
    /// Expires a retired root that is the home of no owed image.
    Expire {
        root: u32,
    },
    /// Deletes an expired root. Its chunks and manifests may be swept.
    Delete {
        root: u32,
    },
    /// Deletes the least chunk or manifest key of a deleted root.
    Sweep {
        root: u32,
    },
    /// Looks whether the object is there whose put is in doubt.
    Settle {
        key: Key,
    },
    /// Ends all sessions of a caller that is gone.
    Reap,
}

/// What the log keeps of a call: of a chunk that is put, its name.
#[derive(Drop)]
pub enum DepotNoted {
    OpenImage {
        image: ImageName,
    },
    Fetch {
        lease: u64,
        index: u32,
    },
    Close {
        lease: u64,
    },
    BeginCreate {
        image: ImageName,
    },
    PutChunk {
        session: u64,
        name: Name,
    },
    PutManifest {
        session: u64,
        manifest: Arc<Manifest>,
    },
    Abandon {
        session: u64,
    },
    Rotate {
        salt: [u8; 32],
    },
    BeginMigrate {
        image: ImageName,
    },
    CopyRead {
        session: u64,
        index: u32,
    },
    FinishMigrate {
        session: u64,
    },
    Withdraw {
        image: ImageName,
    },
    Expire {
        root: u32,
    },
    Delete {
        root: u32,
    },
    Sweep {
        root: u32,
    },
    Settle {
        key: Key,
    },
    Reap,
}

/// What the depot answers. Refusals are tried in the order of each call's row, and read the view.
#[derive(Drop)]
pub enum DepotReply {
    /// No live root has a manifest of the image, or it is withdrawn.
    NoImage,
    /// The image is leased.
    Opened {
        lease: u64,
        manifest: Arc<Manifest>,
    },
    /// There is no such lease.
    NoLease,
    /// The index is past the names of the manifest.
    NoChunk,
    /// The chunk of the index.
    Fetched(Arc<Chunk>),
    /// The lease is gone.
    Closed,
    /// There is no root.
    NoRoot,
    /// A root has a manifest of the image, it is withdrawn, or a create session has it.
    Taken,
    /// The put of this key is in doubt.
    Doubt(Key),
    /// There are 1,024 image names or more, or no creation number is left.
    Full,
    /// The session, its root, the root's salt, and the creation number.
    Began {
        session: u64,
        root: u32,
        salt: [u8; 32],
        number: u64,
    },
    /// The caller has no such session.
    NoSession,
    /// The chunk is there.
    Kept,
    /// The manifest's nonce isn't the root and number of the session.
    Nonce,
    /// The first index whose chunk isn't there.
    Missing(u32),
    /// The manifest is there, and the session ended.
    Made {
        root: u32,
    },
    /// The session ended.
    Abandoned,
    /// There are 1,000 roots.
    RootsEnd,
    /// The new root.
    Rotated {
        root: u32,
    },
    /// The home of the image is the active root already.
    NotRetiredHome {
        home: u32,
    },
    /// The session, the root that the image is copied from, the root that it is copied to, and its manifest.
    Moving {
        session: u64,
        from: u32,
        to: u32,
        manifest: Arc<Manifest>,
    },
    /// The chunk of the index.
    Copied(Arc<Chunk>),
    /// The home of the image isn't any more the root that it is copied from.
    Overtaken {
        home: u32,
    },
    /// The manifest is there, and the session ended.
    Moved {
        from: u32,
        to: u32,
    },
    /// The image is withdrawn.
    Withdrawn,
    /// The root is unknown, active, expired or deleted.
    NotRetired,
    /// The first owed image, in byte order, whose home the root is.
    Serves(ImageName),
    /// The least session that puts into the root or copies from it.
    Session(u64),
    /// The root is expired.
    Expired,
    /// The root isn't expired, or it is deleted already.
    NotExpired,
    /// The root is deleted.
    Deleted,
    /// The root isn't deleted.
    NotDeleted,
    /// The chunk or manifest key that was deleted.
    Removed(Key),
    /// The root has no chunk and no manifest key.
    Swept,
    /// The put of the key isn't in doubt.
    NoDoubt,
    /// The object is there, and its put counts as acknowledged.
    There,
    /// The object isn't there.
    Absent,
    /// All sessions of the caller ended.
    Reaped,
    /// The caller has no session. Not logged.
    Nothing,
    /// The store failed at this key. A put that failed is in doubt.
    Fault(Key),
    /// A get gave nothing or another body than its key's, or a put found an object that the depot doesn't know.
    Spoiled(Key),
    /// Nothing changed. Not logged.
    OutOfMemory,
}

/// What the log keeps of a reply: of a chunk that was got, its name.
#[derive(Drop)]
pub enum DepotTold {
    NoImage,
    Opened {
        lease: u64,
        manifest: Arc<Manifest>,
    },
    NoLease,
    NoChunk,
    Fetched(Name),
    Closed,
    NoRoot,
    Taken,
    Doubt(Key),
    Full,
    Began {
        session: u64,
        root: u32,
        salt: [u8; 32],
        number: u64,
    },
    NoSession,
    Kept,
    Nonce,
    Missing(u32),
    Made {
        root: u32,
    },
    Abandoned,
    RootsEnd,
    Rotated {
        root: u32,
    },
    NotRetiredHome {
        home: u32,
    },
    Moving {
        session: u64,
        from: u32,
        to: u32,
        manifest: Arc<Manifest>,
    },
    Copied(Name),
    Overtaken {
        home: u32,
    },
    Moved {
        from: u32,
        to: u32,
    },
    Withdrawn,
    NotRetired,
    Serves(ImageName),
    Session(u64),
    Expired,
    NotExpired,
    Deleted,
    NotDeleted,
    Removed(Key),
    Swept,
    NoDoubt,
    There,
    Absent,
    Reaped,
    Fault(Key),
    Spoiled(Key),
}
