//! Each call, answered from the store and from what the depot holds.
ghost use Rattle.std.specs.Prelude.{◌≡◌, ◌≤◌, ◌<◌, ◌+◌, ◌^◌};
ghost use Rattle.lr_spec.specs.Rose.{Rose};
ghost use Rattle.lr_spec.specs.Told.{Told};
ghost use Rattle.lr_depot.specs.Machine.{IsNoted, IsShared, IsSharedEntry};
ghost use Rattle.lr_depot.specs.Store.{StoreStep, IsFault, IsUnasked};
ghost use Rattle.lr_depot.specs.Kernel.{Makers, state_of, IsReady, IsServed};

use crate::asking::{fetch, put_chunk, put_manifest, rotate};
use crate::call::{DepotCall, DepotNoted};
use crate::collecting::{delete, expire, sweep, withdraw};
use crate::copying::{copy_read, finish_migrate};
use crate::kernel::{Answer, Kernel};
use crate::settle::settle;
use lr_origin::Origin;
use std::alloc::Global;

/// A call as the log keeps it, and its answer.
#[derive(Drop)]
pub(crate) struct Served {
    pub(crate) call: DepotNoted,
    pub(crate) answer: Answer,
}

/// Makes a caller's call.
pub(crate) fn serve<O: Origin>(
    origin: &mut O,
    kernel: &mut Kernel,
    alloc: Global,
    caller: u32,
    asked: DepotCall,
) -> Served
    requires ready { IsReady kernel.old }
    requires lease { kernel.old.next_lease + 1 < 2 ^ 64 }
    requires session { kernel.old.next_session + 1 < 2 ^ 64 }
    ensures served { IsServed kernel.old kernel.new caller asked result.call result.answer }
    ensures noted { IsNoted asked result.call }
    ensures shared { IsShared asked → IsSharedEntry result.call }
    ensures store { (makers : Makers) → Told (O.objects origin.old) (λ m. StoreStep (state_of kernel.old makers) caller asked result.answer.reply m (O.objects origin.new)) }
    ensures never_falls { O.faults origin.old ≤ O.faults origin.new }
    ensures cause { IsFault result.answer.reply → Rose (O.faults origin.old) (O.faults origin.new) }
    ensures unasked { (makers : Makers) → IsUnasked (state_of kernel.old makers) caller asked result.answer.reply → origin.new ≡ origin.old }
{
    match asked {
        DepotCall::OpenImage { image } => {
            let answer = kernel.open_image(caller, image);
            let call = DepotNoted::OpenImage { image };
            Served { call, answer }
        }
        DepotCall::Fetch { lease, index } => {
            let answer = fetch(origin, kernel, alloc, caller, lease, index);
            let call = DepotNoted::Fetch { lease, index };
            Served { call, answer }
        }
        DepotCall::Close { lease } => {
            let answer = kernel.close(caller, lease);
            let call = DepotNoted::Close { lease };
            Served { call, answer }
        }
        DepotCall::BeginCreate { image } => {
            let answer = kernel.begin_create(alloc, caller, image);
            let call = DepotNoted::BeginCreate { image };
            Served { call, answer }
        }
        DepotCall::PutChunk { session, chunk } => {
            let name = *chunk.name();
            let answer = put_chunk(origin, kernel, alloc, caller, session, chunk);
            let call = DepotNoted::PutChunk { session, name };
            Served { call, answer }
        }
        DepotCall::PutManifest { session, manifest } => {
            let answer = put_manifest(origin, kernel, alloc, caller, session, &manifest);
            let call = DepotNoted::PutManifest { session, manifest };
            Served { call, answer }
        }
        DepotCall::Abandon { session } => {
            let answer = kernel.abandon(caller, session);
            let call = DepotNoted::Abandon { session };
            Served { call, answer }
        }
        DepotCall::Rotate { salt } => {
            let answer = rotate(origin, kernel, alloc, caller, salt);
            let call = DepotNoted::Rotate { salt };
            Served { call, answer }
        }
        DepotCall::BeginMigrate { image } => {
            let answer = kernel.begin_migrate(caller, image);
            let call = DepotNoted::BeginMigrate { image };
            Served { call, answer }
        }
        DepotCall::CopyRead { session, index } => {
            let answer = copy_read(origin, kernel, alloc, caller, session, index);
            let call = DepotNoted::CopyRead { session, index };
            Served { call, answer }
        }
        DepotCall::FinishMigrate { session } => {
            let answer = finish_migrate(origin, kernel, alloc, caller, session);
            let call = DepotNoted::FinishMigrate { session };
            Served { call, answer }
        }
        DepotCall::Withdraw { image } => {
            let answer = withdraw(origin, kernel, alloc, caller, image);
            let call = DepotNoted::Withdraw { image };
            Served { call, answer }
        }
        DepotCall::Expire { root } => {
            let answer = expire(origin, kernel, alloc, caller, root);
            let call = DepotNoted::Expire { root };
            Served { call, answer }
        }
        DepotCall::Delete { root } => {
            let answer = delete(origin, kernel, alloc, caller, root);
            let call = DepotNoted::Delete { root };
            Served { call, answer }
        }
        DepotCall::Sweep { root } => {
            let answer = sweep(origin, kernel, caller, root);
            let call = DepotNoted::Sweep { root };
            Served { call, answer }
        }
        DepotCall::Settle { key } => {
            let answer = settle(origin, kernel, alloc, caller, key);
            let call = DepotNoted::Settle { key };
            Served { call, answer }
        }
        DepotCall::Reap => {
            let answer = kernel.reap(caller);
            let call = DepotNoted::Reap;
            Served { call, answer }
        }
    }
}
