//! One call on an object of the parts.
ghost use Rattle.std.specs.Prelude.{◌≡◌, ◌<◌, length, MatchBool};
ghost use Rattle.lr_object.specs.Kept.{Sized};
ghost use Rattle.lr_device.specs.declared.step.DeviceNoted.{DeviceNoted};
ghost use Rattle.lr_device.specs.declared.step.DeviceAnswer.{DeviceAnswer as Answer};
ghost use Rattle.lr_device.specs.Answers.{May as MayStep, Answers};
ghost use Rattle.lr_device.specs.Enters as device;
ghost use Rattle.lr_cache.specs.Machine as cache;
ghost use Rattle.lr_nodes.specs.Machine as node;
ghost use Rattle.lr_actors.specs.Asked.{MayCall};
ghost use Rattle.lr_replies.specs.Objects.{LogsAt, Calls};
ghost use Rattle.lr_world.specs.World.{Keeps};
ghost use Rattle.lr_world.specs.Calling.{objects_in, IsThere, AtDevice, AtCache, AtNode, memory_of};

use lr_actors::{ActorCall, ActorReply, Parts};
use lr_cache::{Cache, CacheCall, CacheReply};
use lr_depot::{DepotCall, DepotReply};
use lr_device::{Device, DeviceAnswer, DeviceStep};
use lr_nodes::{Node, NodeCall, NodeReply};
use lr_object::Object;
use lr_origin::Origin;
use std::alloc::Global;

fn on_device(
    devices: &mut Vec<Device>,
    alloc: Global,
    caller: u32,
    at: u32,
    call: DeviceStep,
) -> DeviceAnswer
    requires there { at < length devices.old.items }
    requires may { MayStep call }
    ensures replies { AtDevice devices.old.items at caller call result }
    ensures logs { LogsAt devices.old.items at (device.is_logged result) (λ d e. device.Enters d.capacity d.log caller call result e) caller devices.new.items }
{
    let device = &mut devices[at as usize];
    device.apply(alloc, caller, call)
}

fn on_cache(
    caches: &mut Vec<Cache>,
    alloc: Global,
    caller: u32,
    at: u32,
    call: CacheCall,
) -> CacheReply
    requires there { at < length caches.old.items }
    ensures replies { AtCache caches.old.items at caller call result }
    ensures logs { LogsAt caches.old.items at (cache.is_logged result) (λ c e. cache.Enters call result e) caller caches.new.items }
{
    let cache = &mut caches[at as usize];
    cache.apply(alloc, caller, call)
}

fn on_node(nodes: &mut Vec<Node>, alloc: Global, caller: u32, at: u32, call: NodeCall) -> NodeReply
    requires there { at < length nodes.old.items }
    requires may { node.May call }
    ensures replies { AtNode nodes.old.items at call result }
    ensures logs { LogsAt nodes.old.items at (node.is_logged result) (λ s e. node.Enters call result e) caller nodes.new.items }
{
    let node = &mut nodes[at as usize];
    node.apply(alloc, caller, call)
}

/// Makes a call of a caller on the object that it names.
pub(crate) fn serve<O: Origin>(
    parts: &mut Parts<O>,
    alloc: Global,
    caller: u32,
    call: ActorCall,
) -> ActorReply
    requires there { IsThere parts.old call }
    requires may { MayCall call }
    ensures called { Calls caller call result (objects_in parts.old) (objects_in parts.new) }
    ensures depot { Keeps O.objects O.faults call result caller parts.old.depot parts.new.depot }
{
    match call {
        ActorCall::Device(at, step) => {
            ActorReply::Device(on_device(&mut parts.devices, alloc, caller, at, step))
        }
        ActorCall::Cache(at, call) => {
            ActorReply::Cache(on_cache(&mut parts.caches, alloc, caller, at, call))
        }
        ActorCall::Node(at, call) => {
            ActorReply::Node(on_node(&mut parts.nodes, alloc, caller, at, call))
        }
        ActorCall::Depot(call) => ActorReply::Depot(parts.depot.apply(alloc, caller, call)),
    }
}

// What an object that finds no memory replies to a call, where the call may want some.
fn memory_of(call: &ActorCall) -> Option<ActorReply>
    ensures { result ≡ memory_of call.now }
{
    match call {
        ActorCall::Device(_, DeviceStep::Plan(_)) => {
            Some(ActorReply::Device(DeviceAnswer::OutOfMemory))
        }
        ActorCall::Device(..) => None,
        ActorCall::Cache(_, CacheCall::GiveUp | CacheCall::Reap) => None,
        ActorCall::Cache(..) => Some(ActorReply::Cache(CacheReply::OutOfMemory)),
        ActorCall::Node(..) => Some(ActorReply::Node(NodeReply::OutOfMemory)),
        ActorCall::Depot(DepotCall::Close { .. } | DepotCall::Abandon { .. } | DepotCall::Reap) =>
            None,
        ActorCall::Depot(_) => Some(ActorReply::Depot(DepotReply::OutOfMemory)),
    }
}

/// As `serve`, but where it is to be short, the object finds no memory for a call that may want some.
pub(crate) fn serve_or_want<O: Origin>(
    parts: &mut Parts<O>,
    alloc: Global,
    caller: u32,
    call: ActorCall,
    short: bool,
) -> ActorReply
    requires there { IsThere parts.old call }
    requires may { MayCall call }
    ensures called { Calls caller call result (objects_in parts.old) (objects_in parts.new) }
    ensures depot { Keeps O.objects O.faults call result caller parts.old.depot parts.new.depot }
{
    if short {
        if let Some(reply) = memory_of(&call) {
            return reply;
        }
    }
    serve(parts, alloc, caller, call)
}
