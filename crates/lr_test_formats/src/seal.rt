//! A table sealed and opened again.
use lr_manifest::{ChunkKey, Manifest, ManifestError, Name, TenantKey};
use lr_seal::{KeyTable, UnsealError, make_manifest};
use sha2::{Digest, Sha256};
use std::alloc::Global;
use std::test::Fail;

// The manifest of 5,000 bytes, of root 1 and creation number 1.
fn one_chunk(alloc: Global) -> Option<Manifest> {
    let mut keys = KeyTable::new(alloc);
    keys.push(ChunkKey { bytes: [9u8; 32] }).ok()?;
    let mut names = Vec::new(alloc);
    names.push(Name { bytes: [7u8; 32] }).ok()?;
    if keys.count() != 1 {
        return None;
    }
    let nonce = [0, 0, 0, 1, 0, 0, 0, 0, 0, 0, 0, 1];
    make_manifest(
        alloc,
        5000,
        names,
        &keys,
        nonce,
        &TenantKey { bytes: [5u8; 32] },
    )
    .ok()
}

#[test]
fn a_made_manifest_has_its_bytes(rt: HostRuntime) {
    let Some(manifest) = one_chunk(rt.alloc()) else {
        return assert!(rt; false);
    };
    assert_eq!(rt; manifest.root(), 1);
    assert_eq!(rt; manifest.number(), 1);
    let Ok(bytes) = manifest.print(rt.alloc()) else {
        return assert!(rt; false);
    };
    assert_eq!(rt; bytes.len(), 116);
    let head = [
        0x4cu8, 0x52, 0x4d, 0x46, 0, 1, 0, 0, 0, 0, 0, 0, 0, 0, 0x13, 0x88, 0, 8, 0, 0, 0, 0, 0, 1,
    ];
    assert!(rt; bytes[..24] == head[..]);
}

#[test]
fn a_table_opens_for_its_tenant_alone(rt: HostRuntime) {
    let Some(manifest) = one_chunk(rt.alloc()) else {
        return assert!(rt; false);
    };
    let Ok(table) = KeyTable::unseal(rt.alloc(), &manifest, &TenantKey { bytes: [5u8; 32] }) else {
        return assert!(rt; false);
    };
    assert!(rt; table.get(0).is_some_and(|k| k.bytes == [9u8; 32]));
    assert!(rt; table.get(1).is_none());
    match KeyTable::unseal(rt.alloc(), &manifest, &TenantKey { bytes: [6u8; 32] }) {
        Ok(_) => assert!(rt; false),
        Err(e) => assert!(rt; e == UnsealError::Sealed),
    }
}

// What reading bytes comes to: a fault, or a manifest whose keys open for its tenant or not.
fn outcome_of(alloc: Global, bytes: &[u8]) -> &'static str {
    let manifest = match Manifest::parse(alloc, bytes) {
        Ok(manifest) => manifest,
        Err(ManifestError::Truncated) => return "truncated",
        Err(ManifestError::Magic) => return "magic",
        Err(ManifestError::Version) => return "version",
        Err(ManifestError::Fields) => return "fields",
        Err(ManifestError::Length) => return "length",
        Err(ManifestError::OutOfMemory) => return "memory",
    };
    match KeyTable::unseal(alloc, &manifest, &TenantKey { bytes: [5u8; 32] }) {
        Ok(_) => "opened",
        Err(UnsealError::Sealed) => "sealed",
        Err(UnsealError::OutOfMemory) => "memory",
    }
}

// What a changed byte at this place comes to.
fn damage_at(place: usize) -> &'static str {
    match place {
        0..=3 => "magic",
        4..=5 => "version",
        6..=12 | 16..=23 => "fields",
        _ => "sealed",
    }
}

// Cuts the bytes off and changes the byte at each place in turn. The first place where that isn't told.
fn untold(alloc: Global, bytes: &mut [u8]) -> Option<usize> {
    for place in 0..bytes.len() {
        let short = if place < 24 { "truncated" } else { "length" };
        if outcome_of(alloc, &bytes[..place]) != short {
            return Some(place);
        }
        bytes[place] = bytes[place] ^ 1;
        if outcome_of(alloc, bytes) != damage_at(place) {
            return Some(place);
        }
        bytes[place] = bytes[place] ^ 1;
    }
    None
}

#[test]
fn a_manifest_damaged_byte_by_byte_is_told(rt: HostRuntime) {
    let alloc = rt.alloc();
    let Some(manifest) = one_chunk(alloc) else {
        return assert!(rt; false);
    };
    let Ok(mut bytes) = manifest.print(alloc) else {
        return assert!(rt; false);
    };
    assert_eq!(rt; outcome_of(alloc, &bytes), "opened");
    assert_eq!(rt; untold(alloc, &mut bytes), None);
    if bytes.push(0).is_err() {
        return assert!(rt; false);
    }
    assert_eq!(rt; outcome_of(alloc, &bytes), "length");
}

#[test]
fn a_manifest_of_the_limit_is_printed_and_read(rt: HostRuntime) {
    let alloc = rt.alloc();
    let mut keys = KeyTable::new(alloc);
    let mut names = Vec::new(alloc);
    for _ in 0..20_480u32 {
        let pushed = keys.push(ChunkKey { bytes: [9u8; 32] });
        if pushed.is_err() || names.push(Name { bytes: [7u8; 32] }).is_err() {
            return assert!(rt; false);
        }
    }
    if keys.count() != 20_480 || names.len() != 20_480 {
        return assert!(rt; false);
    }
    let tenant = TenantKey { bytes: [5u8; 32] };
    let Ok(manifest) = make_manifest(alloc, 10_737_418_240, names, &keys, [0; 12], &tenant) else {
        return assert!(rt; false);
    };
    let Ok(bytes) = manifest.print(alloc) else {
        return assert!(rt; false);
    };
    assert_eq!(rt; bytes.len(), 1_310_772);
    assert_eq!(rt; outcome_of(alloc, &bytes), "opened");
}

// 32 bytes, each one more than the one before.
fn ramp(first: u8) -> [u8; 32] {
    let mut bytes = [0u8; 32];
    for i in 0..32usize {
        bytes[i] = first.wrapping_add(i as u8);
    }
    bytes
}

// Whether the 32 bytes are these two numbers, big-endian.
fn are(bytes: &[u8; 32], high: u128, low: u128) -> bool {
    bytes[..16] == high.to_be_bytes()[..] && bytes[16..] == low.to_be_bytes()[..]
}

// Tag and digest were computed by another implementation of AES-256-GCM and SHA-256; they are no standard's example.
#[test]
fn a_manifest_of_two_chunks_has_its_tag_and_bytes(rt: HostRuntime) -> Result<(), Fail> {
    let alloc = rt.alloc();
    let mut keys = KeyTable::new(alloc);
    let mut names = Vec::new(alloc);
    for (name, key) in [(1u8, 33u8), (101, 150)] {
        keys.push(ChunkKey { bytes: ramp(key) })?;
        names.push(Name { bytes: ramp(name) })?;
    }
    let nonce = [0, 0, 0, 7, 1, 2, 3, 4, 5, 6, 7, 8];
    let tenant = TenantKey { bytes: ramp(200) };
    if keys.count() != 2 || names.len() != 2 {
        return Err("two keys were pushed".into());
    }
    let manifest = make_manifest(alloc, 600_000, names, &keys, nonce, &tenant)?;
    assert_eq!(rt; manifest.root(), 7);
    assert_eq!(rt; manifest.number(), 0x0102030405060708);
    assert!(rt; *manifest.tag() == 0x41f949bf27c47d0223eee6c84da4ae08u128.to_be_bytes());
    let bytes = manifest.print(alloc)?;
    assert_eq!(rt; bytes.len(), 180);
    let digest = Sha256::digest(bytes.as_slice());
    assert!(rt;
        are(
            &digest,
            0x781fe0d238282a3c8892944f1b26c8cf,
            0x7dabdd7a1d22c90627cb836ec6fb3773
        )
    );
    Ok(())
}
