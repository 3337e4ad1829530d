//! The lists of all passes at the end, for contracts alone.
ghost use Rattle.std.specs.Prelude.{◌≡◌, []};
ghost use Rattle.lr_turn.specs.Views.{lists_of};

use crate::rule::{Known, Place};
use crate::view::View;
use atomic_table::Badge;
use lr_object::Object;
use std::marker::Model;
use std::snapshot::Snapshot;

/// The lists of the entries that each pass made, with the pass's number. It has no bytes.
///
/// A contract sees it as these lists, that of the first pass before those that it joined.
#[derive(Drop)]
pub struct Joined<C, R, F> {
    first: Snapshot<Badge<View<C, R, F>>>,
}

impl<C, R, F> Model for Joined<C, R, F> {
    ghost use Rattle.std.specs.Prelude.{List};
    ghost use Rattle.lr_turn.specs.declared.view.Own.{Own};
    ghost use Rattle.lr_turn.specs.Views.{lists_of_all};

    ghost Value = { List (Own C R) };

    ghost view = { λ j. lists_of_all j.first.value.views };
}

// The lists of the pass at this seat, which is as it was.
pub(crate) fn remember<S: Object>(
    place: Place<S>,
) -> (Place<S>, Joined<S::Noted, S::Told, S::Fixed>)
    requires { place.me.1 ≡ [] }
    ensures place { (result.0.table_id ≡ place.table_id) × (result.0.id ≡ place.id) × (result.0.me ≡ place.me) }
    ensures lists { result.1 ≡ lists_of place.me.0 }
{
    let badge: Badge<Known<S>> = place.into_badge();
    let first = Snapshot::of(&badge);
    (badge.into_seat(), Joined { first })
}
