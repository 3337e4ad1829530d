//! Laws, as contracts of functions that do nothing: what a creation leaves in the store, and which answers come.
ghost use Rattle.lr_images.specs.Answered.{SoundStoresAreUnspoiled, CreationsTellWhy, ReadingsTellWhy};
ghost use Rattle.lr_images.specs.Made.{CreationsAreMade};

use lr_depot::{calls_keep_the_promise, store_stays_sound};
use lr_seal::denotes_its_parts;

/// An image that was made is in the store: its manifest in the root that was told denotes the padded bytes that were read.
///
/// The store told its objects and was sound when the depot started. Nothing is asked of its faults.
pub fn created_images_denote()
    ensures { CreationsAreMade }
{
    calls_keep_the_promise();
    store_stays_sound();
    denotes_its_parts();
}

/// The depot's answer that ended a creation or a reading stands in its log, and no log over a store that was sound when the
/// depot started tells that it is spoiled.
pub fn answers_are_told()
    ensures unspoiled { SoundStoresAreUnspoiled }
    ensures created { CreationsTellWhy }
    ensures read { ReadingsTellWhy }
{
    store_stays_sound();
}
