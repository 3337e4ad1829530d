//! The code by hand, and stripes whose digests come from outside.
ghost use Rattle.std.specs.Prelude.{◌≡◌, ◌<◌, length, IfOk};

use lr_manifest::{CHUNK, Chunk};
use lr_stripe::{Code, STRIPE, Stripe};
use std::alloc::{AllocError, Global};
use std::test::Fail;

fn stripe_of_four(chunk: [u8; 4], j: u8) -> u8
    requires { j < 5 }
{
    let mut out = [0u8; 1];
    Code::<4, 5>::encode(&chunk, j, &mut out);
    out[0]
}

// Each by hand, in the field of FIPS 197, section 4; none is a standard's example.
#[test]
fn code_vectors(rt: HostRuntime) {
    let mut out = [0u8; 1];
    Code::<2, 3>::encode(&[0x57, 0x83], 2, &mut out);
    assert_eq!(rt; out[0], 0xe4);
    assert_eq!(rt; stripe_of_four([1, 2, 3, 4], 4), 0x45);
    assert_eq!(rt; stripe_of_four([0, 1, 2, 3], 4), 4);
    assert_eq!(rt; stripe_of_four([1, 2, 3, 4], 2), 3);
    // The weights at the point 4, whose sum is 1.
    assert_eq!(rt; stripe_of_four([1, 0, 0, 0], 4), 0x1b);
    assert_eq!(rt; stripe_of_four([0, 1, 0, 0], 4), 0x1c);
    assert_eq!(rt; stripe_of_four([0, 0, 1, 0], 4), 0x12);
    assert_eq!(rt; stripe_of_four([0, 0, 0, 1], 4), 0x14);
    assert_eq!(rt; stripe_of_four([1, 1, 1, 1], 4), 1);
}

#[test]
fn any_four_of_five_rebuild(rt: HostRuntime) {
    let mut out = [0u8; 4];
    Code::<4, 5>::rebuild(&[4, 1, 2, 3], &[0x45, 2, 3, 4], &mut out);
    assert_eq!(rt; out, [1, 2, 3, 4]);
    Code::<4, 5>::rebuild(&[0, 4, 2, 3], &[1, 0x45, 3, 4], &mut out);
    assert_eq!(rt; out, [1, 2, 3, 4]);
    Code::<4, 5>::rebuild(&[0, 1, 3, 4], &[1, 2, 4, 0x45], &mut out);
    assert_eq!(rt; out, [1, 2, 3, 4]);
    Code::<4, 5>::rebuild(&[4, 2, 1, 0], &[0x45, 3, 2, 1], &mut out);
    assert_eq!(rt; out, [1, 2, 3, 4]);
    Code::<4, 5>::rebuild(&[3, 2, 1, 0], &[4, 3, 2, 1], &mut out);
    assert_eq!(rt; out, [1, 2, 3, 4]);
}

// So many bytes of this value.
fn filled(alloc: Global, size: usize, byte: u8) -> Result<Vec<u8>, AllocError>
    ensures { IfOk result (λ v. length v.items ≡ size) }
{
    vec![in alloc; byte; size]
}

fn chunk_of(alloc: Global, byte: u8) -> Result<Chunk, AllocError> {
    Ok(Chunk::of(filled(alloc, CHUNK, byte)?))
}

#[test]
fn a_stripe_is_good_until_it_is_damaged(rt: HostRuntime) -> Result<(), Fail> {
    let chunk = chunk_of(rt.alloc(), 7)?;
    let stripe = Stripe::make(rt.alloc(), &chunk, 4)?;
    assert_eq!(rt; stripe.bytes.as_slice().len(), STRIPE);
    assert!(rt; stripe.good(chunk.name(), 4));
    assert!(rt; !stripe.good(chunk.name(), 3));
    let damaged = Stripe {
        digest: [0; 32],
        ..stripe
    };
    assert!(rt; !damaged.good(chunk.name(), 4));
    Ok(())
}

// The chunk whose byte i is 7 i + i / 1000, modulo 256.
fn sloping_chunk(alloc: Global) -> Result<Chunk, AllocError> {
    let mut bytes = filled(alloc, CHUNK, 0)?;
    for (i, byte) in bytes.iter_mut().enumerate() {
        *byte = ((7 * i + i / 1000) % 256) as u8;
    }
    Ok(Chunk::of(bytes))
}

// Whether the 32 bytes are these two numbers, big-endian.
fn are(bytes: &[u8; 32], high: u128, low: u128) -> bool {
    bytes[..16] == high.to_be_bytes()[..] && bytes[16..] == low.to_be_bytes()[..]
}

// The digests were computed by another implementation of the code and of SHA-256.
#[test]
fn stripes_of_a_sloping_chunk_have_their_digests(rt: HostRuntime) -> Result<(), Fail> {
    let chunk = sloping_chunk(rt.alloc())?;
    for (index, high, low) in [
        (
            4u8,
            0x666ec72c5363daa17022b2de3b2f1fe1u128,
            0xf943dbd88f88bc7bdea7b532474135b6u128,
        ),
        (
            2,
            0x7b0817b88d1f6711b76fcc3fdbeae486,
            0xbc1b026b8acbb6f50f21b53ce57884ff,
        ),
    ] {
        assert!(rt; index < 5);
        let stripe = Stripe::make(rt.alloc(), &chunk, index)?;
        assert!(rt; are(&stripe.digest, high, low), "stripe {index}");
    }
    Ok(())
}
