//! What is known of the keys of a store: roots and their states, images and their homes, and the rules of a sound
//! store.
//!
//! `keys` holds the ordered map of keys, `catalog` the view that the depot reads and changes, `roots` the questions
//! about roots and images, `walks` the search through the keys, `names` the counts and names that it finds, `foreign`
//! the rules of a sound store. Only `Catalog::prepare` takes memory.
#![tactic(auto)]

mod catalog;
mod foreign;
mod index;
mod indexed;
mod kept;
mod keys;
mod names;
mod roots;
mod state;
mod walks;

pub use catalog::Catalog;
pub use kept::Kept;
pub use keys::Keys;
pub use state::RootState;

/// The greatest creation number.
pub const NUMBER_MAX: u64 = 9_223_372_036_854_775_807;
