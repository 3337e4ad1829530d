//! What holds of every store that is opened.
ghost use Rattle.std.specs.Prelude.{◌≡◌, ◌^◌, ℕ, List};
ghost use Rattle.lr_origin.specs.Objects.{Objects};
ghost use Rattle.lr_origin.specs.declared.key.KeyKind.{KeyKind as Kind};
ghost use Rattle.lr_roots.specs.View.{View};
ghost use Rattle.lr_roots.specs.Foreign.{IsForeign};
ghost use Rattle.lr_roots.specs.Sound.{IsSound};
ghost use Rattle.lr_opening.specs.Listing.{HasFewer, HasMany};
ghost use Rattle.lr_opening.specs.Store.{Mirrors, IsForeignKey};

/// A store has one view, and no key of a sound store is foreign: opening it can't be refused for one. A store with
/// fewer keys than the limit is never refused for too many.
pub fn sound_stores_open()
    ensures one_view { (m : Objects) (v w : View) → Mirrors m v → Mirrors m w → v ≡ w }
    ensures rules { (v : View) → IsSound v → (k : Kind) → ¬ (IsForeign v k) }
    ensures keys { (m : Objects) (v : View) → Mirrors m v → IsSound v → (key : List ℕ) → ¬ (IsForeignKey m key) }
    ensures few { (m : Objects) → HasFewer m (2 ^ 32) → ¬ (HasMany m (2 ^ 32)) }
{}
