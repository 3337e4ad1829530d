//! What the setup lines so far made.
ghost use Rattle.std.specs.Prelude.{◌≡◌, ◌<◌, ◌++◌, ◌∷◌, [], OnOk};
ghost use Rattle.lr_prepare.specs.New.{new_cache};

use lr_actors::DevicePlace;
use lr_cache::Cache;
use lr_device::Device;
use lr_spec::OutOfMemory;
use std::alloc::Global;

/// The caches of the hosts, and the devices with their places, in the order of their lines.
#[derive(Drop)]
pub(crate) struct Draft {
    pub(crate) devices: Vec<Device>,
    pub(crate) places: Vec<DevicePlace>,
    pub(crate) caches: Vec<Cache>,
}

impl Draft {
    pub(crate) fn new(alloc: Global) -> Draft
        ensures devices { result.devices.items ≡ [] }
        ensures places { result.places.items ≡ [] }
        ensures caches { result.caches.items ≡ [] }
    {
        Draft {
            devices: Vec::new(alloc),
            places: Vec::new(alloc),
            caches: Vec::new(alloc),
        }
    }

    /// Adds a host, whose cache holds so many chunks.
    pub(crate) fn add_host(&mut self, alloc: Global, capacity: u32) -> Result<(), OutOfMemory>
        requires { 0 < capacity }
        ensures caches { OnOk result (self.new.caches.items ≡ self.old.caches.items ++ new_cache capacity ∷ []) }
        ensures devices { self.new.devices.items ≡ self.old.devices.items }
        ensures places { self.new.places.items ≡ self.old.places.items }
    {
        let cache = Cache::new(alloc, capacity)?;
        self.caches.push(cache)?;
        Ok(())
    }

    /// Adds a device.
    pub(crate) fn add_device(
        &mut self,
        device: Device,
        place: DevicePlace,
    ) -> Result<(), OutOfMemory>
        ensures devices { OnOk result (self.new.devices.items ≡ self.old.devices.items ++ device ∷ []) }
        ensures places { OnOk result (self.new.places.items ≡ self.old.places.items ++ place ∷ []) }
        ensures caches { self.new.caches.items ≡ self.old.caches.items }
    {
        self.devices.push(device)?;
        self.places.push(place)?;
        Ok(())
    }
}
