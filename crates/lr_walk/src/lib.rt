//! Walks: grammars of finished lists of steps, and what a machine under way stands for.
//!
//! In `specs/`, `Walk` has the phrases, of any kind of steps; `Stands` what a machine stands for; `Depot`, `Cache`,
//! `Node` and `Device` the calls on one kind of object as plain data, and `Steps` those on all; `Load` is the walk of a load, over the
//! stripes of `Stripes`, `Calls` that of a device call, `Damage` and `Jobs` those of other jobs, and `Trails` says what an
//! actor's trail is. `laws` has what follows for every machine; the lemmas that machines cite stand in `proofs/Stands`.
#![tactic(auto)]

mod laws;
mod place;
mod trail;

pub use laws::{
    cache_answers_by_its_table, depot_answers_by_its_table, device_answers_by_its_table,
    node_answers_by_its_table,
};
pub use place::LoadPlace;
pub use trail::{Answer, Did, JobResult};
