//! Examples, computed from the definitions when the crate is checked; `specs/Examples` says which are a standard's.
ghost use Rattle.lr_aes.specs.Examples.{MeetsExamples};

/// The definitions of this crate give what the standards print as examples, and wrap the counter at 2^128.
pub fn definitions_meet_examples()
    ensures { MeetsExamples }
{}
