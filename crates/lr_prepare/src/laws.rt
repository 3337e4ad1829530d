//! Laws, as contracts of functions that do nothing.
ghost use Rattle.std.specs.Prelude.{◌≡◌, ℕ, List, [], Some};
ghost use Rattle.std.specs.List.{AllByRecursion};
ghost use Rattle.std.specs.FinMap as map;
ghost use Rattle.lr_script.specs.Seen.{ScriptSeen};
ghost use Rattle.lr_script.specs.Within.{IsWithin};
ghost use Rattle.lr_depot.specs.Begun.{Start};
ghost use Rattle.lr_depot.specs.Depot.{IsStart, first_state, state};
ghost use Rattle.lr_depot.specs.Machine.{LogEntry};
ghost use Rattle.lr_depot.specs.Store.{IsRun};
ghost use Rattle.lr_history.specs.Run.{DeviceLine};
ghost use Rattle.lr_setup.specs.Setup.{SetupLine, devices_of, IsSetup};
ghost use Rattle.lr_prepare.specs.Fit.{IsFit};
ghost use Rattle.lr_prepare.specs.Told.{ErrorsAreTold, ToldErrorsCome, DoneSetupsArePlain};

use lr_depot::leases_last;
use lr_images::answers_are_told;

/// Each script within the limits can be set up.
pub fn scripts_fit()
    ensures { (script : ScriptSeen) → IsWithin script → IsFit script }
{}

/// After the setup each device's lease is out, on its image with its manifest.
pub fn leases_are_out()
    ensures { (start : Start) (lines : List SetupLine) (log : List LogEntry) → IsStart start → IsRun (first_state start) log → IsSetup (first_state start) [] lines log
        → AllByRecursion (λ (d : DeviceLine). map.get (state start log).desk.leases d.lease ≡ Some (d.image, d.manifest)) (devices_of lines) }
{
    leases_last();
}

/// A refusal, a fault of the store and a spoiled key stop the setup exactly where an entry of the depot's log has this reply.
pub fn stops_are_told()
    ensures told { ErrorsAreTold }
    ensures only { ToldErrorsCome }
    ensures done { DoneSetupsArePlain }
{
    answers_are_told();
}
