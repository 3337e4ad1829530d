//! Names and keys of 32 bytes.
ghost use Rattle.std.specs.Prelude.{◌≡◌, length};

/// The name of a chunk: the SHA-256 of its bytes.
#[derive(Clone, Copy, Debug, PartialEq, Eq, PartialOrd, Ord, Hash)]
pub struct Name {
    pub bytes: [u8; 32],
    pub ghost long: { length bytes ≡ 32 },
}

/// The key of a tenant, under which the keys of chunks are sealed.
#[derive(Clone, Copy, Debug, PartialEq, Eq, PartialOrd, Ord, Hash)]
pub struct TenantKey {
    pub bytes: [u8; 32],
    pub ghost long: { length bytes ≡ 32 },
}

/// The key of a chunk.
#[derive(Clone, Copy, Debug, PartialEq, Eq, PartialOrd, Ord, Hash)]
pub struct ChunkKey {
    pub bytes: [u8; 32],
    pub ghost long: { length bytes ≡ 32 },
}
