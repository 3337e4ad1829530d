//! The device as an object with a log.
ghost use Rattle.std.specs.Prelude.{◌≡◌, ℕ, ◌*◌, ◌%◌, ◌≤◌, List, [], length, IfOk};
ghost use Rattle.lr_overlay.specs.Pages.{is_written, over};
ghost use Rattle.lr_device.specs.PlainDevice.{IsLegal, bytes_after};
ghost use Rattle.lr_device.specs.Machine.{run, history, AgreesWith};

use crate::commit::commit;
use crate::device::{drop_plan, plan, reap};
use crate::held::Held;
use crate::step::{DeviceAnswer, DeviceNoted, DeviceStep};
use lr_layout::{PAGE, RAW_LIMIT};
use lr_object::{Entry, Object};
use lr_overlay::Overlay;
use lr_spec::OutOfMemory;
use std::alloc::Global;
use std::marker::Model;

/// A device over an image that is loaded on demand: written pages over chunks of the image.
///
/// A contract sees its capacity, in bytes, and its log; the pages that are written and the plans that are out are what the machine
/// makes of these.
#[derive(Drop)]
pub struct Device {
    held: Held,
}

impl Model for Device {
    ghost use Rattle.lr_device.specs.Held.{Seen, seen, IsWhole};

    ghost Value = { Seen };

    ghost view = { λ d. seen d.held };

    ghost invariant = { λ d. IsWhole d.held };
}

impl Device {
    ghost use Rattle.lr_device.specs.Held.{Seen};

    /// A device of this length, of which no page is written.
    pub fn new(alloc: Global, length: u64) -> Result<Device, OutOfMemory>
        requires whole { length % PAGE ≡ 0 }
        requires within { length ≤ RAW_LIMIT }
        ensures { IfOk result (λ d. d ≡ record { capacity = length; log = [] }) }
    {
        let overlay = Overlay::new(alloc, length)?;
        let held = Held {
            size: length,
            overlay,
            plans: Vec::new(alloc),
            log: Vec::new(alloc),
        };
        Ok(Device { held })
    }

    /// Bytes of the device.
    pub fn size(&self) -> u64
        ensures { result ≡ self.now.capacity }
    {
        self.held.size
    }

    /// The pages that are written.
    ///
    /// On every base of the device's size that agrees with the plaintexts of all pieces that were used, the history is
    /// that of one plain device, and the pages over the base are what it made of it.
    pub fn overlay(&self) -> &Overlay
        ensures count { 4096 * length result.now.pages ≡ self.now.capacity }
        ensures written { is_written result.now.pages ≡ (run self.now.capacity self.now.log).written }
        ensures legal { (base : List ℕ) → length base ≡ self.now.capacity → AgreesWith base self.now.log → IsLegal base (history self.now.log) }
        ensures shows { (base : List ℕ) → length base ≡ self.now.capacity → AgreesWith base self.now.log → over 4096 result.now.pages base ≡ bytes_after base (history self.now.log) }
    {
        &self.held.overlay
    }
}

impl Object for Device {
    ghost use Rattle.lr_device.specs.Answers.{May, Answers};
    ghost use Rattle.lr_device.specs.Enters.{is_logged, Enters};

    type Call = DeviceStep;

    type Noted = DeviceNoted;

    type Reply = DeviceAnswer;

    type Told = DeviceAnswer;

    type Fixed = u64;

    ghost log = { λ s. s.log };

    ghost fixed = { λ s. s.capacity };

    ghost unchanged = { λ old new. new ≡ old };

    ghost may = { May };

    ghost opens = { λ _. Unit {0} };

    ghost shares = { λ _. Unit {0} };

    ghost logged = { is_logged };

    ghost answers = { Answers };

    ghost enters = { λ size log caller step answer e. Enters size log caller step answer e };

    fn apply(&mut self, alloc: Global, caller: u32, call: DeviceStep) -> DeviceAnswer {
        match call {
            DeviceStep::Plan(call) => plan(&mut self.held, alloc, caller, call),
            DeviceStep::Commit { pieces, room } => {
                commit(&mut self.held, alloc, caller, pieces, room)
            }
            DeviceStep::Drop => drop_plan(&mut self.held, caller),
            DeviceStep::Reap => reap(&mut self.held, caller),
        }
    }

    fn entries(&self) -> u64 {
        self.held.log.len() as u64
    }

    fn entry(&self, at: u64) -> Option<&Entry<DeviceNoted, DeviceAnswer>> {
        self.held.log.get(at as usize)
    }
}
