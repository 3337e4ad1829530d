//! Migrations: the machine that copies an image to the active root.
//!
//! In `specs/`, `Migration` is the walk of a migration, `Progress` what contracts see of one under way, `Seen` the
//! program's values as plain data.
#![tactic(auto)]

mod migrate;
mod stage;

pub use migrate::{Migrate, MigrateAction, MigrateEnd};
