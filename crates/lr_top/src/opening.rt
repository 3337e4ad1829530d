//! What the device lines of a script opened.
ghost use Rattle.std.specs.Prelude.{◌≡◌, ◌++◌, length, IfOk, OnOk};
ghost use Rattle.lr_script.specs.Seen.{setup_seen};
ghost use Rattle.lr_prepare.specs.Lines.{seen_lines};
ghost use Rattle.lr_top.specs.Opening.{image_opened, images_opened, IsOpenedAs, AreOpened};

use lr_actors::DevicePlace;
use lr_device::Device;
use lr_origin::ImageName;
use lr_report::{OpenDevice, Opening};
use lr_script::{Script, Setup};
use lr_spec::OutOfMemory;
use std::alloc::Global;
use std::sync::Arc;

// Adds the image of a `device` line.
fn add_image(images: &mut Vec<ImageName>, line: &Setup) -> Result<(), OutOfMemory>
    ensures { OnOk result (images.new.items ≡ images.old.items ++ image_opened (setup_seen line.now)) }
{
    match line {
        Setup::Device(_, _, image, _) => Ok(images.push(*image)?),
        Setup::Host(_, _) => Ok(()),
        Setup::Root(_) => Ok(()),
        Setup::Image(_, _, _, _) => Ok(()),
    }
}

// The images of the devices, in the order of their lines.
fn images_of(alloc: Global, setup: &[(u32, Setup)]) -> Result<Vec<ImageName>, OutOfMemory>
    ensures { IfOk result (λ images. images.items ≡ images_opened (seen_lines setup.now)) }
{
    let mut images = Vec::new(alloc);
    for line in setup {
        add_image(&mut images, &line.1)?;
    }
    Ok(images)
}

// A device that was opened.
fn open_one(
    image: ImageName,
    device: &Device,
    place: &DevicePlace,
) -> Result<OpenDevice, OutOfMemory>
    ensures { IfOk result (λ o. IsOpenedAs image device.now place.now o) }
{
    let manifest = Arc::try_clone(&place.manifest)?;
    Ok(OpenDevice {
        image,
        length: device.size(),
        manifest,
    })
}

// The devices of these images, each with its place.
fn open_each(
    alloc: Global,
    images: &[ImageName],
    devices: &[Device],
    places: &[DevicePlace],
) -> Result<Vec<OpenDevice>, OutOfMemory>
    requires devices { length devices.now ≡ length images.now }
    requires places { length places.now ≡ length images.now }
    ensures { IfOk result (λ v. AreOpened images.now devices.now places.now v.items) }
{
    let mut opened = Vec::new(alloc);
    for at in 0..images.len() {
        let one = open_one(images[at], &devices[at], &places[at])?;
        opened.push(one)?;
    }
    Ok(opened)
}

/// What the `device` lines of a script opened: for each its image, the bytes of its device and its manifest.
pub(crate) fn opening_of(
    alloc: Global,
    script: &Script,
    devices: &[Device],
    places: &[DevicePlace],
) -> Result<Opening, OutOfMemory>
    requires devices { length devices.now ≡ length (images_opened script.now.setup) }
    requires places { length places.now ≡ length (images_opened script.now.setup) }
    ensures { IfOk result (λ o. AreOpened (images_opened script.now.setup) devices.now places.now o.devices.items) }
{
    let images = images_of(alloc, &script.setup)?;
    let devices = open_each(alloc, &images, devices, places)?;
    Ok(Opening { devices })
}
