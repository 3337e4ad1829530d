//! A caller's token on a shared object.
ghost use Rattle.std.specs.Prelude.{◌≡◌, [], false};

use crate::view::View;
use atomic_table::Seat;
use lr_object::Object;

/// The token, by what the object's entries and its fixed part are. Between calls it hasn't the turn.
#[derive(Drop)]
pub struct PassOf<S, C, R, F> {
    // The seat on the object's table. Contracts read what it shows by `seat_of` and `known_by`.
    pub(crate) place: Seat<S, View<C, R, F>>,
    /// The caller's number, which entries tell.
    pub number: u32,
    ghost number_is: { place.me.0.number ≡ number },
    ghost idle: { (place.me.1 ≡ []) × (place.me.0.spent ≡ false) × (place.me.0.out ≡ false) },
}

/// A caller's token on a shared object of this type.
pub type Pass<S> = PassOf<S, <S as Object>::Noted, <S as Object>::Told, <S as Object>::Fixed>;
