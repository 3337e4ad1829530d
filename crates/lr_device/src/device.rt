//! The calls of the device object, on what it holds.
ghost use Rattle.std.specs.Prelude.{◌≡◌, ◌≤◌, ◌<◌, [], length, map, position, vec_len, IsNone};
ghost use Rattle.std.specs.Arc.{arc_value};
ghost use Rattle.lr_object.specs.Finds.{FindsAt};
ghost use Rattle.lr_device.specs.declared.step.DeviceStep.{DeviceStep};
ghost use Rattle.lr_device.specs.declared.step.DeviceStep.TheVariants.{Plan, Commit, Drop, Reap};
ghost use Rattle.lr_device.specs.declared.step.DeviceAnswer.TheVariants.{OutOfMemory};
ghost use Rattle.lr_device.specs.PlainDevice.{size_of};
ghost use Rattle.lr_device.specs.Machine.{is_of, run, plan_of, used_by};
ghost use Rattle.lr_device.specs.Enters.{is_logged};
ghost use Rattle.lr_device.specs.Held.{IsWhole, Holds, seen, plan_seen, Serves, refused, Refuses};

use crate::call::DeviceCall;
use crate::demand::{buffers_of, demand_of, reserve_for};
use crate::held::{Held, HeldPlan, Refusal};
use crate::step::{DeviceAnswer, DeviceNoted};
use lr_object::Entry;
use std::alloc::Global;
use std::sync::Arc;

fn position_of_caller(plans: &[HeldPlan], caller: u32) -> Option<usize>
    ensures { result ≡ position (λ p. is_of caller (plan_seen p)) plans.now }
{
    plans.iter().position(|p| p.caller == caller)
}

// The place of the caller's plan.
pub(crate) fn plan_at(plans: &[HeldPlan], caller: u32) -> Option<usize>
    ensures { FindsAt (is_of caller) (map plan_seen plans.now) result }
{
    position_of_caller(plans, caller)
}

fn answer_of(refusal: Refusal) -> DeviceAnswer
    ensures { result ≡ refused refusal }
{
    match refusal {
        Refusal::NoPlan => DeviceAnswer::NoPlan,
        Refusal::Lacking(index) => DeviceAnswer::Lacking(index),
        Refusal::Small => DeviceAnswer::Small,
    }
}

// A call that is refused, and logged so.
pub(crate) fn refuse(
    held: &mut Held,
    caller: u32,
    noted: DeviceNoted,
    refusal: Refusal,
) -> DeviceAnswer
    requires { IsWhole held.old }
    ensures whole { IsWhole held.new }
    ensures served { (step : DeviceStep) → Refuses (seen held.old) caller step noted refusal → Serves (seen held.old) (seen held.new) caller step result }
{
    if held.log.reserve(held.plans.len() + 1).is_err() {
        return DeviceAnswer::OutOfMemory;
    }
    held.log.push_reserved(Entry {
        caller,
        call: noted,
        reply: answer_of(refusal),
    });
    answer_of(refusal)
}

/// Plans a call.
pub(crate) fn plan(
    held: &mut Held,
    alloc: Global,
    caller: u32,
    call: Arc<DeviceCall>,
) -> DeviceAnswer
    requires whole { IsWhole held.old }
    requires small { size_of (arc_value call) ≤ 1048576 }
    ensures whole { IsWhole held.new }
    ensures served { Serves (seen held.old) (seen held.new) caller (Plan call) result }
{
    if plan_at(held.plans.as_slice(), caller).is_some() {
        return DeviceAnswer::HasPlan;
    }
    let Ok(kept) = Arc::try_clone(&call) else {
        return DeviceAnswer::OutOfMemory;
    };
    let Ok(used) = Vec::with_capacity(alloc, 3) else {
        return DeviceAnswer::OutOfMemory;
    };
    if held.plans.reserve(1).is_err() || held.log.reserve(held.plans.len() + 2).is_err() {
        return DeviceAnswer::OutOfMemory;
    }
    if reserve_for(&mut held.overlay, &call).is_err() {
        return DeviceAnswer::OutOfMemory;
    }
    let needs = demand_of(&held.overlay, &call);
    let pages = buffers_of(&held.overlay, &call);
    held.plans.push_reserved(HeldPlan {
        caller,
        call: kept,
        pages,
        used,
    });
    held.log.push_reserved(Entry {
        caller,
        call: DeviceNoted::Plan(call),
        reply: DeviceAnswer::Planned {
            needs: needs.copy(),
            pages,
        },
    });
    DeviceAnswer::Planned { needs, pages }
}

/// Ends the caller's plan.
pub(crate) fn drop_plan(held: &mut Held, caller: u32) -> DeviceAnswer
    requires { IsWhole held.old }
    ensures whole { IsWhole held.new }
    ensures served { Serves (seen held.old) (seen held.new) caller Drop result }
{
    let Some(at) = plan_at(held.plans.as_slice(), caller) else {
        return refuse(held, caller, DeviceNoted::Drop, Refusal::NoPlan);
    };
    held.plans.remove(at);
    held.log.push_reserved(Entry {
        caller,
        call: DeviceNoted::Drop,
        reply: DeviceAnswer::Dropped,
    });
    DeviceAnswer::Dropped
}

/// Ends the plan of a caller that is gone.
pub(crate) fn reap(held: &mut Held, caller: u32) -> DeviceAnswer
    requires { IsWhole held.old }
    ensures whole { IsWhole held.new }
    ensures served { Serves (seen held.old) (seen held.new) caller Reap result }
{
    let Some(at) = plan_at(held.plans.as_slice(), caller) else {
        return DeviceAnswer::Nothing;
    };
    held.plans.remove(at);
    held.log.push_reserved(Entry {
        caller,
        call: DeviceNoted::Reap,
        reply: DeviceAnswer::Reaped,
    });
    DeviceAnswer::Reaped
}
