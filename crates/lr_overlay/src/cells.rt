//! An array whose elements can be lent.
ghost use Rattle.std.specs.Prelude.{◌≡◌, ◌<◌, slice_index_or};
ghost use Rattle.std.specs.Borrow.{sem};

/// An array in a struct of its own, so that a contract can say what a loan of an element leaves.
#[derive(Drop)]
pub(crate) struct Cells<T, const N: usize> {
    pub(crate) all: [T; N],
}

impl<T, const N: usize> Cells<T, N> {
    ghost use Rattle.lr_overlay.specs.Cells.{lends_at};

    /// An element, to be changed.
    pub(crate) fn at_mut(&mut self, index: usize) -> &mut T
        requires { index < N }
        ensures* writes_back { sem 𝓛 (lends_at T.row N.row self.entry index result) }
        ensures value { result.now ≡ slice_index_or self.old.all index result.now }
    {
        &mut self.all[index]
    }
}
