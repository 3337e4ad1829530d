//! Opening a store: what is known of it when a depot starts.
//!
//! `listing` lists the keys of a store, `body` knows the bodies of their objects, `reading` reads these into a catalog,
//! `opening` does all that and finds the foreign key, `cause` says why a store isn't opened, `laws` what holds of every
//! store. `specs/` has how the objects of a store and a view belong together, and what a sound store is.
#![tactic(auto)]

mod body;
mod cause;
mod laws;
mod listing;
mod opening;
mod reading;

pub use cause::StartCause;
pub use laws::sound_stores_open;
pub use opening::open;
