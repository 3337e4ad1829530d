//! Laws of the code, as contracts of functions that do nothing.
ghost use Rattle.lr_stripe.specs.Code.{StripesAreCodeword, StripesAreOfOneChunk, ChunkHasOneStripe};

/// The stripes of a chunk are a codeword: at each place one polynomial with K coefficients has all their bytes.
pub fn stripes_are_a_codeword()
    ensures { StripesAreCodeword }
{}

/// Any K stripes of a chunk's code are those of exactly one chunk, so there is one chunk that they are rebuilt to.
pub fn stripes_are_of_one_chunk()
    ensures { StripesAreOfOneChunk }
{}

/// A chunk has one stripe of each index.
pub fn a_chunk_has_one_stripe()
    ensures { ChunkHasOneStripe }
{}
