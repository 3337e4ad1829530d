//! What a store keeps wherever a program over it stops, as contracts of functions that do nothing.
ghost use Rattle.std.specs.Prelude.{ℕ, List};
ghost use Rattle.lr_stop.specs.Stops.{KeepsSound};
ghost use Rattle.lr_top.specs.declared.outcome.RunRecord.{RunRecord as Record};
ghost use Rattle.lr_top.specs.Gives.{Streams, Plays, Commands};
ghost use Rattle.lr_top.specs.Again.{ImagesAreReadAgain, ReadsAgain};

use lr_depot::store_stays_sound;
use lr_origin::Origin;
use lr_seal::is_denoted_by_tag;
use lr_stop::{images_stay, stores_open_again};

// `cat` of an image that a store has, and that nobody withdrew, is never refused: it writes the image's bytes, or memory wants.
fn images_are_read_again()
    ensures { ImagesAreReadAgain }
{
    stores_open_again();
    is_denoted_by_tag();
}

// A play and a command leave a sound store sound, whichever of its calls fail and with or without their effect; each image that read back
// over it reads back over what is left, unless somebody withdrew it.
pub(crate) fn sound_stores_are_kept<O: Origin>()
    ensures plays { (before after : O) (s : Streams) (left : Record) (status : ℕ) (line : List ℕ) → Plays O.objects O.faults before after s left status line → KeepsSound (O.objects before) (O.objects after) }
    ensures commands { (before after : O) (s : Streams) (words : List (List ℕ)) (left : Record) (status : ℕ) (line : List ℕ) → Commands O.objects O.faults before after s words left status line → KeepsSound (O.objects before) (O.objects after) }
{
    images_stay();
    store_stays_sound();
}

// After a stop, `cat` of an image that the store has writes its bytes, or memory wants.
pub(crate) fn commands_read_again<O: Origin>()
    ensures { (before after : O) (s : Streams) (words : List (List ℕ)) (left : Record) (status : ℕ) (line : List ℕ) → Commands O.objects O.faults before after s words left status line → ReadsAgain (O.objects before) (O.faults before) (O.faults after) s words status }
{
    images_are_read_again();
    stores_open_again();
}
