//! A law, as the contract of a function that does nothing.
ghost use Rattle.std.specs.Prelude.{ℕ, List};
ghost use Rattle.lr_script.specs.Seen.{ScriptSeen};
ghost use Rattle.lr_script.specs.Grammar.{Spells};
ghost use Rattle.lr_script.specs.Within.{IsWithin};

/// Each host, device, node and actor that a script names is declared, and its numbers are within the limits. Only the after part
/// closes devices, each at most once.
pub fn scripts_are_within()
    ensures { (bytes : List ℕ) (script : ScriptSeen) → Spells bytes script → IsWithin script }
{}
