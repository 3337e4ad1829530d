//! Numbers that are drawn one after another.
ghost use Rattle.std.specs.Prelude.{◌<◌};

use rand_core::utils::NextWord;
use rand_pcg::Lcg64Xsh32;

/// A number below a count.
pub(crate) fn below(words: &mut Lcg64Xsh32, count: u32) -> u32
    requires { 0 < count }
    ensures { result < count }
{
    words.next_word() % count
}

/// Whether the first of so many equal cases was drawn.
pub(crate) fn one_in(words: &mut Lcg64Xsh32, count: u32) -> bool
    requires { 0 < count }
{
    below(words, count) == 0
}

/// A byte.
pub(crate) fn byte(words: &mut Lcg64Xsh32) -> u8 {
    words.next_word().to_le_bytes()[0]
}
