//! Stripes of the code of 4 of 5, with their digest.
ghost use Rattle.std.specs.Prelude.{◌≡◌, ◌<◌, ◌↔◌, IsTrue, IfOk, length};
ghost use Rattle.sha2.specs.Sha256.{sha256};
ghost use Rattle.lr_stripe.specs.Code.{IsStripe};

use crate::code::Code;
use lr_manifest::{Chunk, Name};
use lr_spec::OutOfMemory;
use sha2::{Digest, Sha256};
use std::alloc::Global;
use std::marker::Model;

/// Bytes of a stripe: a quarter of a chunk.
pub const STRIPE: usize = 131_072;

/// The bytes of a stripe. Contracts see a list.
#[derive(Drop)]
pub struct StripeBytes {
    bytes: Vec<u8>,
}

impl Model for StripeBytes {
    ghost use Rattle.std.specs.Prelude.{ℕ, List};

    ghost Value = { List ℕ };

    ghost view = { λ b. b.bytes.items };
}

impl StripeBytes {
    /// These bytes. It takes no memory.
    pub fn of(bytes: Vec<u8>) -> StripeBytes
        ensures { result ≡ bytes.items }
    {
        StripeBytes { bytes }
    }

    pub fn as_slice(&self) -> &[u8]
        ensures { result.now ≡ self.now }
    {
        &self.bytes
    }
}

/// A stripe as a node keeps it: of which chunk it is, which of the five, its bytes and the digest that was made of
/// them. A stripe may be damaged or forged: [`good`](Stripe::good) tells.
#[derive(Drop)]
pub struct Stripe {
    pub name: Name,
    pub index: u8,
    pub bytes: StripeBytes,
    /// SHA-256 (FIPS 180-4).
    pub digest: [u8; 32],
}

// The digest of bytes.
fn digest_of(bytes: &[u8]) -> [u8; 32]
    ensures { result ≡ sha256 bytes.now }
{
    Sha256::digest(bytes)
}

impl Stripe {
    ghost use Rattle.lr_stripe.specs.Good.{IsGood};

    /// Whether the stripe is this one of the chunk of this name, has 131,072 bytes, and the digest is theirs.
    pub fn good(&self, name: &Name, index: u8) -> bool
        ensures { IsTrue result ↔ IsGood self.now name.now index }
    {
        let bytes = self.bytes.as_slice();
        self.name.bytes == name.bytes
            && self.index == index
            && bytes.len() == STRIPE
            && self.digest == digest_of(bytes)
    }

    /// Makes this stripe of a chunk, of the code of 4 of 5. The index is below 5.
    pub fn make(alloc: Global, chunk: &Chunk, index: u8) -> Result<Stripe, OutOfMemory>
        requires { index < 5 }
        ensures good { IfOk result (λ s. IsGood s s.name index) }
        ensures name { IfOk result (λ s. s.name.bytes ≡ sha256 chunk.now) }
        ensures stripe { IfOk result (λ s. IsStripe 4 chunk.now index s.bytes) }
    {
        let mut bytes = vec![in alloc; 0u8; STRIPE]?;
        Code::<4, 5>::encode(chunk.bytes(), index, &mut bytes);
        Ok(Stripe {
            name: *chunk.name(),
            index,
            digest: digest_of(&bytes),
            bytes: StripeBytes::of(bytes),
        })
    }
}
