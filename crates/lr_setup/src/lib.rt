//! What the setup delivers of devices, over the depot's machine, and the whole: each device serves its image.
#![tactic(auto)]

mod laws;

pub use laws::{devices_have_own_leases, images_are_served, setup_opens_devices};
