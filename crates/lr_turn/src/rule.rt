//! How a shared object lies in a table: word 0 is the number of its entries, word 1 says whose turn it is, slot 0 holds the object.
use crate::view::View;
use atomic_table::{Seat, Table, TableRule};
use lr_object::Object;
use std::alloc::Global;
use std::marker::PhantomData;
use std::snapshot::Snapshot;

/// The word that has the number of entries.
pub(crate) const COUNT: usize = 0;

/// The word that is 0 while no pass has the turn, 1 while one has it, and 2 while one has it and others may be parked.
pub(crate) const TURN: usize = 1;

/// The rule of the table.
pub struct Turn<S> {
    object: PhantomData<S>,
}

impl<S: Object> TableRule<S, View<S::Noted, S::Told, S::Fixed>, Snapshot<S>> for Turn<S> {
    ghost use Rattle.lr_turn.specs.Kept.{Kept};
    ghost use Rattle.lr_turn.specs.Views.{first_view};

    ghost holds = { λ key. Kept S.log S.fixed S.shares S.answers S.enters (S.fixed key.value) (S.log key.value) };

    ghost first = { λ key. first_view (S.fixed key.value) (S.log key.value) };
}

/// What a pass on an object of this type knows.
pub type Known<S> = View<<S as Object>::Noted, <S as Object>::Told, <S as Object>::Fixed>;

/// The table. Its key is the object as it was when it was first shared.
pub type Board<S> = Table<S, Known<S>, Snapshot<S>, Turn<S>, Global>;

/// A seat on the table.
pub type Place<S> = Seat<S, Known<S>>;
