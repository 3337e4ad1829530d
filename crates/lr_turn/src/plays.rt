//! What each step on the table tells its pass.
ghost use Rattle.std.specs.Prelude.{ℕ};
ghost use Rattle.lr_turn.specs.Views.{giving, newcomer, joining, spent_view};
ghost use Rattle.lr_turn.specs.Steps.{takes, counts, leaves, tells};

use crate::rule::Known;
use crate::view::View;
use atomic_table::{Join, Play, Split};
use lr_object::Object;
use std::marker::{Brand, PhantomData};

/// The turn is taken, with the object, or another pass is found to have it.
pub(crate) struct Take;

impl<S: Object> Play<S, Known<S>> for Take {
    ghost then = { takes S.log S.fixed S.shares S.answers S.enters };
}

/// The caller's entry is counted.
pub(crate) struct Count;

impl<S: Object> Play<S, Known<S>> for Count {
    ghost then = { counts S.log S.fixed };
}

/// The turn is given back, with the object.
pub(crate) struct Leave;

impl<S: Object> Play<S, Known<S>> for Leave {
    ghost then = { leaves };
}

/// The number of entries is told.
pub(crate) struct Tell;

impl<S: Object> Play<S, Known<S>> for Tell {
    ghost then = { tells };
}

/// The number of a new pass, which the call that splits picks.
pub(crate) trait Number {
    ghost number: { ℕ };
}

impl Number for Brand {
    ghost number = { 0 };
}

/// A pass is split for a number.
pub(crate) struct Cut<N> {
    number: PhantomData<N>,
}

impl<N: Number, C, R, F> Split<View<C, R, F>> for Cut<N> {
    ghost left = { giving N.number };

    ghost right = { newcomer N.number };
}

/// The first pass takes in another.
pub(crate) struct Glue;

impl<C, R, F> Join<View<C, R, F>> for Glue {
    ghost both = { joining };

    ghost spent = { spent_view };
}
