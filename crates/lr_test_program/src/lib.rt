//! Tests of the program: its commands and scripts over stores, sources and sinks that fail, what its plays leave, and made scripts.
//!
//! `edge` moves bytes of the system, `commands` and `scripts` do commands and scripts of which a call fails. `drive` plays a script over a
//! store and looks at what it left; `jobs` has each kind of job, also over a store that finds no memory (`short_store`), `short_jobs` each
//! kind with each of its calls finding no memory in turn (`short`), and `crashes` an actor that crashes after each of its steps. `draw` draws numbers, `made` holds a made script and what its images have, `made_lines`
//! makes its setup lines and `made_jobs` its actors and their jobs, `plain` is a plain device, `right` compares a run with plain devices;
//! `thousand` plays a thousand made scripts, `edges` a few by hand.
#![tactic(auto)]

#[cfg(test)]
mod commands;
#[cfg(test)]
mod crashes;
#[cfg(test)]
mod draw;
#[cfg(test)]
mod drive;
#[cfg(test)]
mod edge;
#[cfg(test)]
mod edges;
#[cfg(test)]
mod jobs;
#[cfg(test)]
mod made;
#[cfg(test)]
mod made_jobs;
#[cfg(test)]
mod made_lines;
#[cfg(test)]
mod plain;
#[cfg(test)]
mod right;
#[cfg(test)]
mod scripts;
#[cfg(test)]
mod short;
#[cfg(test)]
mod short_jobs;
#[cfg(test)]
mod short_store;
#[cfg(test)]
mod thousand;
