//! The names that a script declares.
ghost use Rattle.std.specs.Prelude.{◌≡◌, ◌++◌, IfOk, OnOk, codes, option_map};
ghost use Rattle.lr_script.specs.Seen.{setup_seen, jobs_seen};
ghost use Rattle.lr_report.specs.Names.{device_name, device_names, after_name, caller_names, name_of};

use lr_origin::ImageName;
use lr_script::{Job, Script, Setup};
use lr_spec::OutOfMemory;
use std::alloc::Global;

// Adds the name of a `device` line.
fn add_device(names: &mut Vec<ImageName>, line: &Setup) -> Result<(), OutOfMemory>
    ensures { OnOk result (names.new.items ≡ names.old.items ++ device_name (setup_seen line.now)) }
{
    match line {
        Setup::Device(name, _, _, _) => Ok(names.push(*name)?),
        Setup::Host(_, _) => Ok(()),
        Setup::Root(_) => Ok(()),
        Setup::Image(_, _, _, _) => Ok(()),
    }
}

// The names of the devices, in the order of their lines.
pub fn device_names(alloc: Global, script: &Script) -> Result<Vec<ImageName>, OutOfMemory>
    ensures { IfOk result (λ names. names.items ≡ device_names script.now) }
{
    let mut names = Vec::new(alloc);
    for (_, line) in &script.setup {
        add_device(&mut names, line)?;
    }
    Ok(names)
}

fn after_word() -> ImageName
    ensures { result ≡ codes "after" }
{
    ImageName::parse(b"after").unwrap()
}

// Adds the name of the after part, where there is one.
fn add_after(names: &mut Vec<ImageName>, after: &Option<Vec<Job>>) -> Result<(), OutOfMemory>
    ensures { OnOk result (names.new.items ≡ names.old.items ++ after_name (option_map (λ v. jobs_seen v.items) after.now)) }
{
    match after {
        Some(_) => Ok(names.push(after_word())?),
        None => Ok(()),
    }
}

// The names of the callers 1, 2 and so on: the actors in the order of their lines, then the after part.
pub fn caller_names(alloc: Global, script: &Script) -> Result<Vec<ImageName>, OutOfMemory>
    ensures { IfOk result (λ names. names.items ≡ caller_names script.now) }
{
    let mut names = Vec::new(alloc);
    for (name, _) in &script.actors {
        names.push(*name)?;
    }
    add_after(&mut names, &script.after)?;
    Ok(names)
}

// The name of a caller; nothing for a number that is none of theirs.
pub fn name_of(names: &[ImageName], caller: u32) -> &[u8]
    ensures { result.now ≡ name_of names.now caller }
{
    if caller == 0 {
        return b"";
    }
    match names.get(caller as usize - 1) {
        Some(name) => name.as_bytes(),
        None => b"",
    }
}
