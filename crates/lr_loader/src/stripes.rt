//! A chunk from stripes, and stripes from a chunk.
ghost use Rattle.std.specs.Prelude.{◌≡◌, ◌<◌, ◌∷◌, ℕ, List, [], true, false, IfOk, IfSome, IfNone, length, map};
ghost use Rattle.lr_manifest.specs.Chunk.{is_named};
ghost use Rattle.std.specs.Arc.{arc_value};
ghost use Rattle.lr_walk.specs.Stripes.{IsStripeOf, AreStripesOf, IsRebuilt, joined};
ghost use Rattle.lr_loader.specs.Held.{AreHeld, AreWhole, IsRebuiltTo};

use lr_manifest::{CHUNK, Chunk, Name};
use lr_spec::OutOfMemory;
use lr_stripe::{Code, Stripe};
use std::alloc::Global;
use std::sync::Arc;

// The bytes of four stripes, one after another.
fn join(
    alloc: Global,
    first: &Stripe,
    second: &Stripe,
    third: &Stripe,
    last: &Stripe,
) -> Result<Vec<u8>, OutOfMemory>
    ensures { IfOk result (λ v. v.items ≡ joined (first.now ∷ second.now ∷ third.now ∷ last.now ∷ [])) }
{
    let mut bytes = Vec::with_capacity(alloc, CHUNK)?;
    bytes.extend_from_slice(first.bytes.as_slice())?;
    bytes.extend_from_slice(second.bytes.as_slice())?;
    bytes.extend_from_slice(third.bytes.as_slice())?;
    bytes.extend_from_slice(last.bytes.as_slice())?;
    Ok(bytes)
}

// The bytes of a chunk, zeros.
fn zeros(alloc: Global) -> Result<Vec<u8>, OutOfMemory>
    ensures { IfOk result (λ v. length v.items ≡ 524288) }
{
    Ok(vec![in alloc; 0u8; CHUNK]?)
}

// Writes what four stripes are rebuilt to, from their bytes one after another.
fn rebuild_into(
    first: &Stripe,
    second: &Stripe,
    third: &Stripe,
    last: &Stripe,
    stripes: &[u8],
    out: &mut [u8],
)
    requires whole { AreWhole (first.now ∷ second.now ∷ third.now ∷ last.now ∷ []) }
    requires same { stripes.now ≡ joined (first.now ∷ second.now ∷ third.now ∷ last.now ∷ []) }
    requires room { length out.old ≡ 524288 }
    ensures rebuilt { IsRebuilt (first.now ∷ second.now ∷ third.now ∷ last.now ∷ []) out.new }
    ensures only { (chunk : List ℕ) → IsRebuilt (first.now ∷ second.now ∷ third.now ∷ last.now ∷ []) chunk → out.new ≡ chunk }
{
    let indices = [first.index, second.index, third.index, last.index];
    Code::<4, 5>::rebuild(&indices, stripes, out);
}

// What four stripes are rebuilt to.
fn rebuilt_bytes(
    alloc: Global,
    first: &Stripe,
    second: &Stripe,
    third: &Stripe,
    last: &Stripe,
) -> Result<Vec<u8>, OutOfMemory>
    requires { AreWhole (first.now ∷ second.now ∷ third.now ∷ last.now ∷ []) }
    ensures rebuilt { IfOk result (λ v. IsRebuilt (first.now ∷ second.now ∷ third.now ∷ last.now ∷ []) v.items) }
    ensures only { IfOk result (λ v. (chunk : List ℕ) → IsRebuilt (first.now ∷ second.now ∷ third.now ∷ last.now ∷ []) chunk → v.items ≡ chunk) }
    ensures length { IfOk result (λ v. length v.items ≡ 524288) }
{
    let stripes = join(alloc, first, second, third, last)?;
    let mut bytes = zeros(alloc)?;
    rebuild_into(first, second, third, last, &stripes, &mut bytes);
    Ok(bytes)
}

// The chunk of these bytes, where it has the name.
fn named(name: &Name, bytes: Vec<u8>) -> Option<Chunk>
    requires { length bytes.items ≡ 524288 }
    ensures some { IfSome result (λ c. (c ≡ bytes.items) × (is_named name.now c ≡ true)) }
    ensures none { IfNone result (is_named name.now bytes.items ≡ false) }
{
    match Chunk::check(name, bytes) {
        Ok(chunk) => Some(chunk),
        Err(_) => None,
    }
}

// The chunk that four good stripes are rebuilt to, where it has the name.
fn rebuild_four(
    alloc: Global,
    name: &Name,
    first: &Stripe,
    second: &Stripe,
    third: &Stripe,
    last: &Stripe,
) -> Result<Option<Chunk>, OutOfMemory>
    requires { AreHeld name.now 5 (first.now ∷ second.now ∷ third.now ∷ last.now ∷ []) }
    ensures { IfOk result (IsRebuiltTo name.now (first.now ∷ second.now ∷ third.now ∷ last.now ∷ [])) }
{
    let bytes = rebuilt_bytes(alloc, first, second, third, last)?;
    Ok(named(name, bytes))
}

/// The chunk that good stripes are rebuilt to, where there are four and it has the name.
pub(crate) fn rebuild(
    alloc: Global,
    name: &Name,
    held: &[Arc<Stripe>],
) -> Result<Option<Chunk>, OutOfMemory>
    requires { AreHeld name.now 5 (map arc_value held.now) }
    ensures { IfOk result (IsRebuiltTo name.now (map arc_value held.now)) }
{
    match held {
        [first, second, third, last] => rebuild_four(alloc, name, first, second, third, last),
        _ => Ok(None),
    }
}

fn make_stripe(alloc: Global, chunk: &Chunk, index: u8) -> Result<Arc<Stripe>, OutOfMemory>
    requires { index < 5 }
    ensures { IfOk result (λ s. IsStripeOf chunk.now index (arc_value s)) }
{
    Ok(Arc::new(alloc, Stripe::make(alloc, chunk, index)?)?)
}

/// All five stripes of a chunk, in order.
pub(crate) fn make_stripes(alloc: Global, chunk: &Chunk) -> Result<Vec<Arc<Stripe>>, OutOfMemory>
    ensures { IfOk result (λ v. AreStripesOf chunk.now (map arc_value v.items)) }
{
    let mut stripes = Vec::new(alloc);
    stripes.push(make_stripe(alloc, chunk, 0)?)?;
    stripes.push(make_stripe(alloc, chunk, 1)?)?;
    stripes.push(make_stripe(alloc, chunk, 2)?)?;
    stripes.push(make_stripe(alloc, chunk, 3)?)?;
    stripes.push(make_stripe(alloc, chunk, 4)?)?;
    Ok(stripes)
}

/// The first of the stripes, which goes.
pub(crate) fn take_first(stripes: &mut Vec<Arc<Stripe>>) -> Option<Arc<Stripe>>
    ensures first { IfSome result (λ s. map arc_value stripes.old.items ≡ arc_value s ∷ map arc_value stripes.new.items) }
    ensures none { IfNone result (map arc_value stripes.old.items ≡ []) }
{
    if stripes.is_empty() {
        return None;
    }
    Some(stripes.remove(0))
}
