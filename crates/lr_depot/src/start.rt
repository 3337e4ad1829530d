//! What a depot was started with, as a name for contracts.
use std::marker::Model;

/// What a depot was started with: the objects that the store told, how often it had failed, the view, and the first
/// creation number. It is a name for contracts; no value of it is made.
pub struct DepotStart;

impl Model for DepotStart {
    ghost use Rattle.std.specs.Prelude.{None};
    ghost use Rattle.std.specs.FinMap as map;
    ghost use Rattle.lr_manifest.specs.contracts.manifest.Manifest as manifests;
    ghost use Rattle.lr_origin.specs.contracts.key.KeyKind as kinds;
    ghost use Rattle.lr_depot.specs.Begun.{Start, start_code};

    ghost Value = { Start };

    ghost coded = { start_code kinds.the_row.coded manifests.the_row.coded };

    ghost view = { λ _. record { objects = None; faults = 0; view = map.empty; number = 1 } };
}
