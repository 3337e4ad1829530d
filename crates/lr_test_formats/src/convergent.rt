//! Sealing and decrypting, on plaintexts that differ in their zeros alone.
ghost use Rattle.std.specs.Prelude.{◌≡◌, length, IfOk};

use lr_convergent::{Piece, decrypt_into, seal_chunk};
use lr_manifest::{CHUNK, Chunk, ChunkKey};
use lr_spec::OutOfMemory;
use std::alloc::Global;
use std::sync::Arc;
use std::test::Fail;

// So many bytes of this value.
fn filled(alloc: Global, size: usize, byte: u8) -> Result<Vec<u8>, OutOfMemory>
    ensures { IfOk result (λ v. length v.items ≡ size) }
{
    Ok(vec![in alloc; byte; size]?)
}

// 41 and then zeros, so many bytes in all, sealed under a salt of this byte. A longer plaintext is cut.
fn sealed(alloc: Global, size: usize, salt: u8) -> Result<(Chunk, ChunkKey), OutOfMemory> {
    let mut plain = filled(alloc, size.min(CHUNK), 0)?;
    if let Some(first) = plain.first_mut() {
        *first = 0x41;
    }
    if plain.len() > CHUNK {
        return Err(OutOfMemory);
    }
    seal_chunk(alloc, &[salt; 32], &plain)
}

fn opened(alloc: Global, chunk: &Chunk, key: &ChunkKey) -> Result<Vec<u8>, OutOfMemory> {
    let mut buffer = filled(alloc, CHUNK, 0xff)?;
    decrypt_into(chunk, key, &mut buffer);
    Ok(buffer)
}

// Whether the 32 bytes are these two numbers, big-endian.
fn are(bytes: &[u8; 32], high: u128, low: u128) -> bool {
    bytes[..16] == high.to_be_bytes()[..] && bytes[16..] == low.to_be_bytes()[..]
}

// Name and key were computed by another implementation of AES-256 and SHA-256; they are no standard's example.
#[test]
fn equal_filled_plaintexts_are_one_chunk(rt: HostRuntime) -> Result<(), Fail> {
    let (long, key) = sealed(rt.alloc(), 5000, 1)?;
    let (short, _) = sealed(rt.alloc(), 4096, 1)?;
    let (other, _) = sealed(rt.alloc(), 5000, 2)?;
    let (whole, _) = sealed(rt.alloc(), CHUNK, 1)?;
    assert!(rt; short.name() == long.name());
    assert!(rt; whole.name() == long.name());
    assert!(rt;
        are(
            &long.name().bytes,
            0x6d01cb73890fc8c1d6099a94ead90c39,
            0xbadba76502960061093c0ea32b6a0b87
        )
    );
    assert!(rt;
        are(
            &key.bytes,
            0xff536b2ddf71b165ba3cbb8f805a2be4,
            0x3c755675d2992346d828761ff3a4a075
        )
    );
    assert!(rt; other.name() != long.name());
    let plain = opened(rt.alloc(), &long, &key)?;
    assert_eq!(rt; plain.first().copied(), Some(0x41));
    assert!(rt; plain.iter().skip(1).all(|byte| *byte == 0));
    Ok(())
}

#[test]
fn a_piece_has_the_plaintext_of_its_chunk(rt: HostRuntime) -> Result<(), Fail> {
    let alloc = rt.alloc();
    let (chunk, key) = sealed(alloc, 5000, 1)?;
    let name = *chunk.name();
    let piece = Piece::make(alloc, 7, Arc::new(alloc, chunk)?, &key)?;
    assert_eq!(rt; piece.index(), 7);
    let mut plain = filled(alloc, CHUNK, 0xff)?;
    piece.read(0, &mut plain);
    assert_eq!(rt; plain.first().copied(), Some(0x41));
    assert!(rt; plain.iter().skip(1).all(|byte| *byte == 0));
    let mut last = [0xffu8; 16];
    piece.read(CHUNK - 16, &mut last);
    assert!(rt; last == [0; 16]);
    let kept = piece.into_kept();
    assert!(rt; kept.index == 7 && kept.key.bytes == key.bytes);
    assert!(rt; *kept.chunk.name() == name);
    Ok(())
}
