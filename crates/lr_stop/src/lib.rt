//! What a store keeps wherever a program over it stops, and what opening it again finds.
//!
//! A stop is said in two ways. Over a store whose calls fail from some one on (`lr_origin::FuseOrigin`) a run ends, and what it leaves is
//! what a stop leaves. And the log of any run may be cut (`lr_depot::logs_can_be_cut`): at each of its entries the store held what the laws here
//! say of it.
#![tactic(auto)]

mod laws;

pub use laws::{images_stay, known_images_were_put, stores_open_again, withdrawals_stay};
