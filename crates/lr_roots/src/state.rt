//! States of roots.

/// The state of a root, which follows from its keys.
#[derive(Clone, Copy, Debug, PartialEq, Eq)]
pub enum RootState {
    /// The greatest root.
    Active,
    /// A root below the greatest.
    Retired,
    Expired,
    Deleted,
}
