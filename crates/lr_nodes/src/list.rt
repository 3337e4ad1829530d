//! Places in a list of stripes, and the edits that stripes alone have.
ghost use Rattle.std.specs.Prelude.{◌≡◌, ◌<◌, ◌≤◌, IfOk, IfSome, map, position, slice_set, slice_index, bit_xor, remove, vec_len, vec_capacity};
ghost use Rattle.std.specs.Arc.{arc_value};
ghost use Rattle.std.specs.List.{position_or_len};
ghost use Rattle.lr_object.specs.Finds.{FindsAt, without_first};
ghost use Rattle.lr_nodes.specs.Stripes.{is_at, flipped_at};

use lr_manifest::Name;
use lr_spec::OutOfMemory;
use lr_stripe::{Stripe, StripeBytes};
use std::alloc::Global;
use std::sync::Arc;

fn is_at(stripe: &Stripe, name: &Name, index: u8) -> bool
    ensures { result ≡ is_at name.now index stripe.now }
{
    stripe.name.bytes == name.bytes && stripe.index == index
}

fn position_of(stripes: &[Arc<Stripe>], name: &Name, index: u8) -> Option<usize>
    ensures { result ≡ position (λ s. is_at name.now index (arc_value s)) stripes.now }
{
    stripes.iter().position(|s| is_at(s, name, index))
}

// The place of the first stripe of this name and index.
pub(crate) fn place_of(stripes: &[Arc<Stripe>], name: &Name, index: u8) -> Option<usize>
    ensures found { FindsAt (is_at name.now index) (map arc_value stripes.now) result }
    ensures first { IfSome result (λ at. at ≡ position_or_len (is_at name.now index) (map arc_value stripes.now)) }
{
    position_of(stripes, name, index)
}

// The stripe at a place goes.
pub(crate) fn take_out(stripes: &mut Vec<Arc<Stripe>>, at: usize)
    requires { at < vec_len stripes.old }
    ensures stripes { map arc_value stripes.new.items ≡ remove (map arc_value stripes.old.items) at }
    ensures len { vec_len stripes.new < vec_len stripes.old }
    ensures room { vec_capacity stripes.new ≡ vec_capacity stripes.old }
{
    let _gone = stripes.remove(at);
}

// The first stripe of this name and index goes, where there is one.
pub(crate) fn take_out_first(stripes: &mut Vec<Arc<Stripe>>, name: &Name, index: u8)
    ensures stripes { map arc_value stripes.new.items ≡ without_first (is_at name.now index) (map arc_value stripes.old.items) }
    ensures len { vec_len stripes.new ≤ vec_len stripes.old }
    ensures room { vec_capacity stripes.new ≡ vec_capacity stripes.old }
{
    match place_of(stripes.as_slice(), name, index) {
        Some(at) => take_out(stripes, at),
        None => {}
    }
}

// Another stripe in the place of one.
pub(crate) fn put_at(stripes: &mut Vec<Arc<Stripe>>, at: usize, stripe: Arc<Stripe>)
    requires { at < vec_len stripes.old }
    ensures stripes { map arc_value stripes.new.items ≡ slice_set (map arc_value stripes.old.items) at (arc_value stripe) }
    ensures len { vec_len stripes.new ≡ vec_len stripes.old }
{
    stripes[at] = stripe;
}

// Changes the lowest bit of the byte at a place, where there is one.
fn flip_byte(bytes: &mut [u8], at: usize)
    ensures { bytes.new ≡ slice_set bytes.old at (bit_xor (slice_index bytes.old at) 1) }
{
    if at >= bytes.len() {
        return;
    }
    bytes[at] ^= 1;
}

// A copy of a stripe with the lowest bit of a byte changed, and the digest as it was.
pub(crate) fn flipped(alloc: Global, stripe: &Stripe, at: u32) -> Result<Arc<Stripe>, OutOfMemory>
    ensures { IfOk result (λ s. arc_value s ≡ flipped_at at stripe.now) }
{
    let mut bytes = Vec::from_slice(alloc, stripe.bytes.as_slice())?;
    flip_byte(&mut bytes, at as usize);
    let changed = Stripe {
        name: stripe.name,
        index: stripe.index,
        bytes: StripeBytes::of(bytes),
        digest: stripe.digest,
    };
    Ok(Arc::new(alloc, changed)?)
}
