//! A law, as the contract of a function that does nothing.
ghost use Rattle.lr_loader.specs.Determined.{LoadsAreDetermined};

/// What a load hands out next rests only on its place and the replies that it took, as long as it finds memory itself.
pub fn loads_are_determined()
    ensures { LoadsAreDetermined }
{}
