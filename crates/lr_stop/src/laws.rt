//! Laws, as contracts of functions that do nothing.
ghost use Rattle.lr_stop.specs.Stops.{KnownImagesStay, OpenedImagesStay, CreatedImagesStay, StoresKeepImages, WithdrawalsStay, KnownImagesWerePut, SoundStoresStart, ImagesAreFoundAgain};

use lr_opening::sound_stores_open;
use lr_seal::made_manifests_denote;

/// Each known image that nobody withdrew is in the store with its manifest. There it denotes what it denoted at the start, under each
/// tenant's key, or the padded bytes of its creation, where digests tell strings apart.
pub fn images_stay()
    ensures known { KnownImagesStay }
    ensures opened { OpenedImagesStay }
    ensures created { CreatedImagesStay }
    ensures kept { StoresKeepImages }
{
    made_manifests_denote();
    sound_stores_open();
}

/// What was withdrawn stays so: an image that nobody has withdrawn in the end was never withdrawn.
pub fn withdrawals_stay()
    ensures { WithdrawalsStay }
{}

/// The manifest by which an image is known was in the store at the start, or a creation put it.
pub fn known_images_were_put()
    ensures { KnownImagesWerePut }
{}

/// A sound store of fewer than 2^32 keys that doesn't fail is opened, or memory wants; and an image that it has may then be opened with
/// its manifest.
pub fn stores_open_again()
    ensures starts { SoundStoresStart }
    ensures found { ImagesAreFoundAgain }
{
    sound_stores_open();
}
