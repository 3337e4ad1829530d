//! Laws, as contracts of functions that do nothing.
ghost use Rattle.std.specs.Prelude.{◌≡◌, List, []};
ghost use Rattle.std.specs.List.{AllByRecursion};
ghost use Rattle.lr_origin.specs.Objects.{Objects};
ghost use Rattle.lr_opening.specs.Store.{Mirrors};
ghost use Rattle.lr_depot.specs.Begun.{Start};
ghost use Rattle.lr_depot.specs.Depot.{IsStart, first_state};
ghost use Rattle.lr_depot.specs.Machine.{LogEntry};
ghost use Rattle.lr_depot.specs.Store.{IsRun};
ghost use Rattle.lr_history.specs.Run.{DeviceLine, Run};
ghost use Rattle.lr_seal.specs.Made.{HaveDistinctDigests};
ghost use Rattle.lr_history.specs.Strings.{strings_of};
ghost use Rattle.lr_history.specs.Lists.{context_of};
ghost use Rattle.lr_history.specs.Claims.{HaveOwnLeases};
ghost use Rattle.lr_history.specs.Premises.{IsOpened};
ghost use Rattle.lr_setup.specs.Setup.{SetupLine, images_of, devices_of, IsSetup};
ghost use Rattle.lr_setup.specs.Whole.{IsWhole, Serves};

/// After the log of setup lines, each device is opened on its image's manifest, whose chunks are all there; where an image line
/// made the image, the manifest is that line's.
pub fn setup_opens_devices()
    ensures { (start : Start) (opening : Objects) (lines : List SetupLine) (log : List LogEntry) → IsStart start → Mirrors opening start.view → IsRun (first_state start) log → IsSetup (first_state start) [] lines log → AllByRecursion (λ (d : DeviceLine). IsOpened opening (images_of lines) d) (devices_of lines) }
{}

/// No two devices have one lease.
pub fn devices_have_own_leases()
    ensures { (start : Start) (lines : List SetupLine) (run : Run) → IsWhole start lines run → HaveOwnLeases (context_of run) }
{}

/// Each device's answered calls form one legal history of a plain device on its image's bytes, each call once and in the order of
/// its caller's jobs, and a call fails only with a failure of its own fetches, none of which finds a chunk spoiled.
pub fn images_are_served()
    ensures { (start : Start) (lines : List SetupLine) (run : Run) → IsWhole start lines run → HaveDistinctDigests (strings_of run) → Serves run }
{
    lr_history::grown_logs_are_legal();
}
