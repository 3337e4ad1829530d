//! Laws, as contracts of functions that do nothing: what a manifest denotes.
ghost use Rattle.lr_seal.specs.Denotation.{IsDenotedByTag, DenotesItsParts};
ghost use Rattle.lr_seal.specs.Made.{MadeManifestsDenote, DenotationsAgree};

/// At a right tag a manifest denotes what its unsealed keys open, and at a wrong one nothing.
pub fn is_denoted_by_tag()
    ensures { IsDenotedByTag }
{}

/// A manifest made of sealed parts denotes these parts, filled to whole chunks, joined and cut to its padded length.
pub fn denotes_its_parts()
    ensures { DenotesItsParts }
{}

/// A manifest that a creation made denotes the padded raw bytes over all bodies of its names, and each manifest denotes the same
/// over two stores that have bodies of its names.
pub fn made_manifests_denote()
    ensures made { MadeManifestsDenote }
    ensures agree { DenotationsAgree }
{}
