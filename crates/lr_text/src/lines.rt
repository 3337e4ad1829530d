//! Lines of a text and words of a line: bytes cut where a separator stands.
ghost use Rattle.std.specs.Prelude.{◌≡◌, ◌∷◌, ◌++◌, map, IfOk, IfSome, IfNone};
ghost use Rattle.lr_text.specs.Words.{split_at_byte, Lacks};

use lr_spec::OutOfMemory;
use std::alloc::Global;

/// The parts of the bytes before, between and behind the places of a separator: one more than it has places.
pub fn parts<'a>(alloc: Global, bytes: &'a [u8], at: u8) -> Result<Vec<&'a [u8]>, OutOfMemory>
    ensures { IfOk result (λ v. map (λ x. x.now) v.items ≡ split_at_byte at bytes.now) }
{
    Ok(bytes.split(|b| *b == at).collect(alloc)?)
}

/// The bytes before the first place of a separator, and those behind it. `None` where it has no place.
pub fn cut_at(bytes: &[u8], at: u8) -> Option<(&[u8], &[u8])>
    ensures cut { IfSome result (λ p. (bytes.now ≡ p.0.now ++ at ∷ p.1.now) × Lacks at p.0.now) }
    ensures none { IfNone result (Lacks at bytes.now) }
{
    let place = bytes.iter().position(|b| *b == at)?;
    Some((&bytes[..place], &bytes[place + 1..]))
}
