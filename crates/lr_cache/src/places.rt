//! Places in the lists of a cache.
ghost use Rattle.std.specs.Prelude.{◌≡◌, map, position};
ghost use Rattle.std.specs.Arc.{arc_value};
ghost use Rattle.lr_manifest.specs.Chunk.{is_named};
ghost use Rattle.lr_object.specs.Finds.{FindsAt};
ghost use Rattle.lr_cache.specs.Claims.{is_of, is_on};

use crate::call::Claim;
use lr_manifest::{Chunk, Name};
use std::sync::Arc;

fn position_of_name(chunks: &[Arc<Chunk>], name: &Name) -> Option<usize>
    ensures { result ≡ position (λ c. is_named name.now (arc_value c)) chunks.now }
{
    chunks.iter().position(|c| c.has_name(name))
}

fn position_of_caller(claims: &[Claim], caller: u32) -> Option<usize>
    ensures { result ≡ position (is_of caller) claims.now }
{
    claims.iter().position(|c| c.caller == caller)
}

fn position_of_claim(claims: &[Claim], name: &Name) -> Option<usize>
    ensures { result ≡ position (is_on name.now) claims.now }
{
    claims.iter().position(|c| c.name.bytes == name.bytes)
}

// The place of the first chunk of this name.
pub(crate) fn place_of(chunks: &[Arc<Chunk>], name: &Name) -> Option<usize>
    ensures { FindsAt (is_named name.now) (map arc_value chunks.now) result }
{
    position_of_name(chunks, name)
}

// The place of the caller's claim.
pub(crate) fn claim_at(claims: &[Claim], caller: u32) -> Option<usize>
    ensures { FindsAt (is_of caller) claims.now result }
{
    position_of_caller(claims, caller)
}

// The place of the first claim on the name.
pub(crate) fn claim_on(claims: &[Claim], name: &Name) -> Option<usize>
    ensures { FindsAt (is_on name.now) claims.now result }
{
    position_of_claim(claims, name)
}
