//! What must hold of a set of keys, whatever made it.
use crate::images::{IMAGES, Image};
use crate::keys::{KeySet, PARTS, Part, ROOTS};

/// What doesn't hold.
#[derive(Clone, Copy, Debug)]
pub enum Broken {
    /// A root is there, and one before it isn't.
    Gap,
    /// A root is deleted and not expired, or the greatest one is expired.
    State,
    /// A live root has a manifest and not its chunk.
    Incomplete,
    /// An image that isn't withdrawn has no home, or an expired one.
    Homeless,
    /// So has one that is owed.
    Owed,
    /// A body isn't its key's, or manifests of one image differ.
    Body,
    /// The store has a key that is none of the scope.
    Foreign,
    /// View and store differ at a key that isn't in doubt.
    Differs,
    /// Other keys are in doubt than those whose puts failed.
    Doubts,
    /// A reply told that a body was spoiled.
    Spoiled,
    /// The chunk of a leased image wasn't given.
    Unfetched,
    /// A depot didn't start on the store, or saw another view.
    Start,
    /// A refused call changed something.
    Changed,
    /// A call asked the store more than once.
    Asked,
}

/// The greatest root that is there, or 0.
pub fn top(keys: &KeySet) -> u32 {
    let mut top = 0;
    for root in 1..=ROOTS {
        if keys.has_part(root, Part::Salt) {
            top = root;
        }
    }
    top
}

fn has_gap(keys: &KeySet) -> bool {
    let mut is_whole = true;
    for root in 1..=ROOTS {
        is_whole = is_whole && keys.has_part(root, Part::Salt);
        if !is_whole && PARTS.iter().any(|part| keys.has_part(root, *part)) {
            return true;
        }
    }
    false
}

fn has_states(keys: &KeySet) -> bool {
    let top = top(keys);
    (1..=ROOTS).all(|root| {
        let expired = keys.has_part(root, Part::Expired);
        (expired || !keys.has_part(root, Part::Deleted)) && !(expired && root == top)
    })
}

fn is_live(keys: &KeySet, root: u32) -> bool {
    keys.has_part(root, Part::Salt) && !keys.has_part(root, Part::Deleted)
}

fn is_complete(keys: &KeySet) -> bool {
    (1..=ROOTS).all(|root| {
        !is_live(keys, root)
            || !keys.has_part(root, Part::ManifestA)
            || keys.has_part(root, Part::Chunk)
    })
}

// The greatest live root that has a manifest of the image.
fn home(keys: &KeySet, image: Image) -> Option<u32> {
    let mut home = None;
    for root in 1..=ROOTS {
        if is_live(keys, root) && keys.has(image.place(root)) {
            home = Some(root);
        }
    }
    home
}

/// Whether an image has a home that isn't expired.
pub fn is_homed(keys: &KeySet, image: Image) -> bool {
    match home(keys, image) {
        Some(root) => !keys.has_part(root, Part::Expired),
        None => false,
    }
}

fn is_homeless(keys: &KeySet, image: Image) -> bool {
    let named = (1..=ROOTS).any(|root| keys.has(image.place(root)));
    named && !keys.has(image.withdrawn()) && !is_homed(keys, image)
}

/// The first rule of a sound store that is broken.
pub fn first_broken(keys: &KeySet) -> Option<Broken> {
    if has_gap(keys) {
        return Some(Broken::Gap);
    }
    if !has_states(keys) {
        return Some(Broken::State);
    }
    if !is_complete(keys) {
        return Some(Broken::Incomplete);
    }
    if IMAGES.iter().any(|image| is_homeless(keys, *image)) {
        return Some(Broken::Homeless);
    }
    None
}
