//! The top call: one command of the product over a source, a sink and a store, with the headline in its contract.
//!
//! `input` reads a script from a source, `opening` tells what its device lines opened, `playing` plays it, and `choose` has the top call,
//! which gives other words to the commands over a store. `keeping` has what a store keeps of either wherever it stops. `ends` says how a play ends, `outcome` holds what the call gives back, and `laws`
//! has the headline as a law of plays. In `specs/`, `Played` says what a play did, and has the headline; `Top` says what is answered, and
//! why, and `Acts` joins the two.
#![tactic(auto)]

mod choose;
mod ends;
mod input;
mod keeping;
mod laws;
mod opening;
mod outcome;
mod playing;

pub use choose::{desk, top};
pub use ends::PlayEnd;
pub use laws::plays_have_the_headline;
pub use outcome::{Outcome, RunRecord};
pub use playing::play;
