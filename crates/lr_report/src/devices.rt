//! The part of the devices.
ghost use Rattle.std.specs.Prelude.{◌≡◌, ◌++◌, OnOk, zip};
ghost use Rattle.std.specs.List.{flat_map};
ghost use Rattle.lr_device.specs.Machine.{answered, history};
ghost use Rattle.lr_report.specs.Report.{call_word, call_text, reply_text, entry_text, device_line, device_part, devices_part};

use crate::names::name_of;
use crate::run::OpenDevice;
use lr_device::{Device, DeviceAnswer, DeviceCall, DeviceNoted, DeviceReply, answered};
use lr_object::{Entry, Object};
use lr_origin::ImageName;
use lr_spec::OutOfMemory;
use lr_text::{put_bytes, put_number};

fn call_word(call: &DeviceCall) -> &'static [u8]
    ensures { result.now ≡ call_word call.now }
{
    match call {
        DeviceCall::Read { .. } => b" read ",
        DeviceCall::Write { .. } => b" write ",
        DeviceCall::Zero { .. } => b" zero ",
    }
}

#[tactic(auto, unfolding(crate::specs::Report::call_text))]
fn put_call(out: &mut Vec<u8>, call: &DeviceCall) -> Result<(), OutOfMemory>
    ensures { OnOk result (out.new.items ≡ out.old.items ++ call_text call.now) }
{
    out.extend_from_slice(call_word(call))?;
    put_number(out, call.offset())?;
    out.extend_from_slice(b" ")?;
    put_number(out, call.length())?;
    out.extend_from_slice(b" ")?;
    Ok(())
}

fn put_reply(out: &mut Vec<u8>, reply: &DeviceReply) -> Result<(), OutOfMemory>
    ensures { OnOk result (out.new.items ≡ out.old.items ++ reply_text reply.now) }
{
    match reply {
        DeviceReply::Got(bytes) => put_bytes(out, bytes.as_slice()),
        DeviceReply::Done => Ok(out.extend_from_slice(b"done")?),
        DeviceReply::Range => Ok(out.extend_from_slice(b"range")?),
    }
}

// Adds the line of a call that the device answered; nothing for another entry.
#[tactic(auto, unfolding(crate::specs::Report::entry_text))]
fn put_entry(
    out: &mut Vec<u8>,
    callers: &[ImageName],
    entry: &Entry<DeviceNoted, DeviceAnswer>,
) -> Result<(), OutOfMemory>
    ensures { OnOk result (out.new.items ≡ out.old.items ++ flat_map (entry_text callers.now) (answered entry.now.caller entry.now.call entry.now.reply)) }
{
    let Some((call, reply)) = answered(entry) else {
        return Ok(());
    };
    out.extend_from_slice(name_of(callers, entry.caller))?;
    put_call(out, call)?;
    put_reply(out, reply)?;
    out.extend_from_slice(b"\n")?;
    Ok(())
}

fn put_entries(out: &mut Vec<u8>, callers: &[ImageName], device: &Device) -> Result<(), OutOfMemory>
    ensures { OnOk result (out.new.items ≡ out.old.items ++ flat_map (entry_text callers.now) (history device.now.log)) }
{
    for at in 0..device.entries() {
        let Some(entry) = device.entry(at) else {
            unreachable!();
        };
        put_entry(out, callers, entry)?;
    }
    Ok(())
}

#[tactic(auto, unfolding(crate::specs::Report::device_line))]
fn put_device_line(
    out: &mut Vec<u8>,
    name: &ImageName,
    opened: &OpenDevice,
) -> Result<(), OutOfMemory>
    ensures { OnOk result (out.new.items ≡ out.old.items ++ device_line name.now opened.now) }
{
    out.extend_from_slice(b"device ")?;
    out.extend_from_slice(name.as_bytes())?;
    out.extend_from_slice(b" ")?;
    out.extend_from_slice(opened.image.as_bytes())?;
    out.extend_from_slice(b" ")?;
    put_number(out, opened.length)?;
    out.extend_from_slice(b"\n")?;
    Ok(())
}

#[tactic(auto, unfolding(crate::specs::Report::device_part))]
fn put_device(
    out: &mut Vec<u8>,
    callers: &[ImageName],
    name: &ImageName,
    opened: &OpenDevice,
    device: &Device,
) -> Result<(), OutOfMemory>
    ensures { OnOk result (out.new.items ≡ out.old.items ++ device_part callers.now (name.now, (opened.now, device.now))) }
{
    put_device_line(out, name, opened)?;
    put_entries(out, callers, device)
}

// Adds each device with the calls that it answered.
pub fn put_devices(
    out: &mut Vec<u8>,
    callers: &[ImageName],
    names: &[ImageName],
    opened: &[OpenDevice],
    devices: &[Device],
) -> Result<(), OutOfMemory>
    ensures { OnOk result (out.new.items ≡ out.old.items ++ devices_part callers.now (zip names.now (zip opened.now devices.now))) }
{
    for (at, name) in names.iter().enumerate() {
        let Some(open) = opened.get(at) else {
            return Ok(());
        };
        let Some(device) = devices.get(at) else {
            return Ok(());
        };
        put_device(out, callers, name, open, device)?;
    }
    Ok(())
}
