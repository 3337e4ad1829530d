//! The calls that a device's log answers.
ghost use Rattle.std.specs.Prelude.{◌≡◌, option_map, option_copied, Option};
ghost use Rattle.std.specs.Option.{option_to_list};
ghost use Rattle.lr_device.specs.Machine.{answered, planned_in, reply_in};

use crate::call::{DeviceCall, DeviceReply};
use crate::step::{DeviceAnswer, DeviceNoted};
use lr_object::Entry;

// The planned call that is kept of a commit.
fn planned_in(noted: &DeviceNoted) -> Option<&DeviceCall>
    ensures { option_copied result ≡ planned_in noted.now }
{
    match noted {
        DeviceNoted::Commit { planned, .. } => match planned {
            Some(call) => Some(&**call),
            None => None,
        },
        DeviceNoted::Plan(_) => None,
        DeviceNoted::Drop => None,
        DeviceNoted::Reap => None,
    }
}

// The reply of a commit that was made.
fn reply_in(answer: &DeviceAnswer) -> Option<&DeviceReply>
    ensures { option_copied result ≡ reply_in answer.now }
{
    match answer {
        DeviceAnswer::Committed(reply) => Some(reply),
        DeviceAnswer::HasPlan => None,
        DeviceAnswer::Planned { .. } => None,
        DeviceAnswer::NoPlan => None,
        DeviceAnswer::Lacking(_) => None,
        DeviceAnswer::Small => None,
        DeviceAnswer::Dropped => None,
        DeviceAnswer::Reaped => None,
        DeviceAnswer::Nothing => None,
        DeviceAnswer::OutOfMemory => None,
    }
}

/// The call and the reply of an entry of a commit that was made. Of the other entries the history keeps nothing.
pub fn answered(entry: &Entry<DeviceNoted, DeviceAnswer>) -> Option<(&DeviceCall, &DeviceReply)>
    ensures { answered entry.now.caller entry.now.call entry.now.reply ≡ option_to_list (option_map (λ r. record { caller = entry.now.caller; call = r.0.now; reply = r.1.now }) result) }
{
    let Some(call) = planned_in(&entry.call) else {
        return None;
    };
    let Some(reply) = reply_in(&entry.reply) else {
        return None;
    };
    Some((call, reply))
}
