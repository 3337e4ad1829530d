//! A manifest and its faults, and chunks under their names.
use lr_manifest::{CHUNK, Chunk, ChunkKey, Manifest, ManifestError, Name, TenantKey};
use std::alloc::{AllocError, Global};
use std::test::Fail;

const HEAD: [u8; 24] = [
    0x4c, 0x52, 0x4d, 0x46, 0, 1, 0, 0, 0, 0, 0, 0, 0, 0, 0x13, 0x88, 0, 8, 0, 0, 0, 0, 0, 1,
];

// A manifest of 5,000 bytes in one chunk, for root 1 and number 1.
fn bytes_of_one_chunk(alloc: Global) -> Result<Vec<u8>, AllocError> {
    let mut bytes = Vec::from_slice(alloc, &HEAD)?;
    bytes.extend_from_slice(&[7u8; 32])?;
    bytes.extend_from_slice(&[0, 0, 0, 1, 0, 0, 0, 0, 0, 0, 0, 1])?;
    bytes.extend_from_slice(&[9u8; 32])?;
    bytes.extend_from_slice(&[3u8; 16])?;
    Ok(bytes)
}

// The first bytes, so many of them.
fn front(bytes: &[u8], count: usize) -> &[u8] {
    if count <= bytes.len() {
        &bytes[..count]
    } else {
        bytes
    }
}

fn fault_of(alloc: Global, bytes: &[u8]) -> Option<ManifestError> {
    Manifest::parse(alloc, bytes).err()
}

#[test]
fn manifest_bytes(rt: HostRuntime) -> Result<(), Fail> {
    let alloc = rt.alloc();
    let bytes = bytes_of_one_chunk(alloc)?;
    let manifest = Manifest::parse(alloc, &bytes)?;
    assert_eq!(rt; bytes.len(), 116);
    assert_eq!(rt; manifest.raw_len(), 5000);
    assert_eq!(rt; manifest.root(), 1);
    assert_eq!(rt; manifest.number(), 1);
    assert_eq!(rt; manifest.names().len(), 1);
    assert_eq!(rt; manifest.sealed().len(), 1);
    let printed = manifest.print(alloc)?;
    assert!(rt; printed.as_slice() == bytes.as_slice());
    let clear = manifest.clear_text(alloc)?;
    assert!(rt; clear.as_slice() == front(&bytes, 56));
    Ok(())
}

#[test]
fn manifest_faults(rt: HostRuntime) -> Result<(), Fail> {
    let alloc = rt.alloc();
    let whole = bytes_of_one_chunk(alloc)?;
    assert_eq!(rt; whole.len(), 116);
    assert!(rt; fault_of(alloc, front(&whole, 23)) == Some(ManifestError::Truncated));
    assert!(rt; fault_of(alloc, front(&whole, 115)) == Some(ManifestError::Length));
    for (at, byte, fault) in [
        (0usize, 0u8, Some(ManifestError::Magic)),
        (5, 2, Some(ManifestError::Version)),
        (7, 1, Some(ManifestError::Fields)),
        (15, 0x89, None),
        (8, 1, Some(ManifestError::Fields)),
        (19, 1, Some(ManifestError::Fields)),
        (23, 2, Some(ManifestError::Fields)),
    ] {
        let mut bytes = bytes_of_one_chunk(alloc)?;
        assert!(rt; at < bytes.len());
        bytes[at] = byte;
        assert!(rt; fault_of(alloc, &bytes) == fault, "at {at}");
    }
    let mut longer = bytes_of_one_chunk(alloc)?;
    longer.push(0)?;
    assert!(rt; fault_of(alloc, &longer) == Some(ManifestError::Length));
    // 524,289 bytes lie in two chunks.
    let mut two = bytes_of_one_chunk(alloc)?;
    assert_eq!(rt; two.len(), 116);
    two[13] = 8;
    two[14] = 0;
    two[15] = 1;
    assert!(rt; fault_of(alloc, &two) == Some(ManifestError::Fields));
    Ok(())
}

#[test]
fn a_chunk_is_checked(rt: HostRuntime) -> Result<(), Fail> {
    let alloc = rt.alloc();
    let chunk = Chunk::of(vec![in alloc; 0; CHUNK]?);
    let name = *chunk.name();
    assert_eq!(rt; name.bytes[..4], [0x07, 0x85, 0x4d, 0x2f][..]);
    assert!(rt; Chunk::check(&name, vec![in alloc; 0; CHUNK]?).is_ok());
    assert!(rt; Chunk::check(&name, vec![in alloc; 1; CHUNK]?).is_err());
    assert!(rt; Chunk::check(&name, vec![in alloc; 0; 4096]?).is_err());
    assert!(rt; chunk.has_name(&name));
    assert_eq!(rt; chunk.bytes().len(), CHUNK);
    Ok(())
}

#[test]
fn names_and_keys_are_in_the_order_of_their_bytes(rt: HostRuntime) {
    assert!(rt; Name { bytes: [1; 32] } < Name { bytes: [2; 32] });
    assert!(rt; ChunkKey { bytes: [1; 32] } != ChunkKey { bytes: [2; 32] });
    assert!(rt; TenantKey { bytes: [3; 32] } > TenantKey { bytes: [2; 32] });
}
