//! How each job of a script begins.
ghost use Rattle.std.specs.Prelude.{◌≤◌, ◌<◌, length};
ghost use Rattle.lr_text.specs.Bytes.{bytes_of_runs as bytes_seen};
ghost use Rattle.lr_device.specs.PlainDevice.{size_of};
ghost use Rattle.lr_device.specs.declared.call.DeviceCall.TheVariants as device_call;
ghost use Rattle.lr_script.specs.Seen.{job_seen, body_seen};
ghost use Rattle.lr_actors.specs.Creating.{raw_of};
ghost use Rattle.lr_actors.specs.Jobs.{seen_context, job_of, calls, creates, collects, closes, drops_stripe, flips_stripe, forges};
ghost use Rattle.lr_actors.specs.Begun.{IsContext, HasDevice, IsJob, Begins};

use crate::bytes::{bytes_of_runs, raw_bytes};
use crate::collecting::CollectingJob;
use crate::creating::CreatingJob;
use crate::forge::ForgeJob;
use crate::migrating::MigratingJob;
use crate::place::Context;
use crate::running::{Running, place_at};
use crate::serving::DeviceJob;
use crate::single::{Single, SingleJob};
use lr_collector::CollectJob;
use lr_device::{Bytes, DeviceCall};
use lr_manifest::TenantKey;
use lr_origin::ImageName;
use lr_script::{Body, Job};
use lr_walk::Answer;
use std::alloc::Global;

/// A job that was begun.
#[derive(Drop)]
pub enum Begun {
    Under(Running),
    /// It ended with no step.
    Over(Answer),
}

fn begin_call(alloc: Global, context: &Context, device: u32, call: DeviceCall) -> Begun
    requires context { IsContext (seen_context context.now) }
    requires device { HasDevice (seen_context context.now) device }
    requires small { size_of call ≤ 1048576 }
    ensures { Begins (seen_context context.now) (calls device call) result }
{
    let place = place_at(context, device);
    let job = DeviceJob::new(alloc, context.nodes, device, place, call);
    Begun::Under(Running::Serves(device, job))
}

fn begin_write(
    alloc: Global,
    context: &Context,
    device: u32,
    offset: u64,
    runs: &[(u64, u8)],
) -> Begun
    requires context { IsContext (seen_context context.now) }
    requires device { HasDevice (seen_context context.now) device }
    requires small { length (bytes_seen runs.now) ≤ 1048576 }
    ensures { Begins (seen_context context.now) (calls device (device_call.Write offset (bytes_seen runs.now))) result }
{
    match bytes_of_runs(alloc, runs) {
        Ok(bytes) => begin_call(
            alloc,
            context,
            device,
            DeviceCall::Write {
                offset,
                bytes: Bytes::of(bytes),
            },
        ),
        Err(_) => over_for_memory(context, device, offset, runs),
    }
}

// Where no memory is found for the bytes, no step is made.
fn over_for_memory(context: &Context, device: u32, _offset: u64, _runs: &[(u64, u8)]) -> Begun
    requires { HasDevice (seen_context context.now) device }
    ensures { Begins (seen_context context.now) (calls device (device_call.Write _offset (bytes_seen _runs.now))) result }
{
    let _place = place_at(context, device);
    Begun::Over(Answer::Memory)
}

fn begin_creation(
    alloc: Global,
    _context: &Context,
    image: ImageName,
    tenant: [u8; 32],
    whole: u64,
    body: &Body,
) -> Begun
    requires { length (raw_of whole (body_seen body.now)) ≤ 10737418240 }
    ensures { Begins (seen_context _context.now) (creates image tenant (raw_of whole (body_seen body.now))) result }
{
    match raw_bytes(alloc, body, whole) {
        Ok(raw) => {
            let tenant = TenantKey { bytes: tenant };
            let job = CreatingJob::new(alloc, image, tenant, raw);
            Begun::Under(Running::Creates(job))
        }
        Err(_) => Begun::Over(Answer::Memory),
    }
}

fn begin_collection(alloc: Global, _context: &Context, job: CollectJob) -> Begun
    ensures { Begins (seen_context _context.now) (collects job) result }
{
    Begun::Under(Running::Collects(CollectingJob::new(alloc, job)))
}

fn begin_close(context: &Context, device: u32) -> Begun
    requires { HasDevice (seen_context context.now) device }
    ensures { Begins (seen_context context.now) (closes device) result }
{
    let place = place_at(context, device);
    let job = SingleJob::new(Single::Close { lease: place.lease });
    Begun::Under(Running::Makes(job))
}

fn begin_drop(context: &Context, index: u8, device: u32, chunk: u32) -> Begun
    requires context { IsContext (seen_context context.now) }
    requires device { HasDevice (seen_context context.now) device }
    ensures { Begins (seen_context context.now) (drops_stripe index device chunk) result }
{
    let place = place_at(context, device);
    match place.name(chunk) {
        Some(name) => {
            let node = lr_nodes::place(&name, index, context.nodes);
            let job = SingleJob::new(Single::Drop { node, name, index });
            Begun::Under(Running::Makes(job))
        }
        None => Begun::Over(Answer::NoChunk),
    }
}

fn begin_flip(context: &Context, index: u8, device: u32, chunk: u32, at: u32) -> Begun
    requires context { IsContext (seen_context context.now) }
    requires device { HasDevice (seen_context context.now) device }
    requires at { at < 131072 }
    ensures { Begins (seen_context context.now) (flips_stripe index device chunk at) result }
{
    let place = place_at(context, device);
    match place.name(chunk) {
        Some(name) => {
            let node = lr_nodes::place(&name, index, context.nodes);
            let job = SingleJob::new(Single::Flip {
                node,
                name,
                index,
                at,
            });
            Begun::Under(Running::Makes(job))
        }
        None => Begun::Over(Answer::NoChunk),
    }
}

fn begin_forging(alloc: Global, context: &Context, device: u32, chunk: u32) -> Begun
    requires context { IsContext (seen_context context.now) }
    requires device { HasDevice (seen_context context.now) device }
    ensures { Begins (seen_context context.now) (forges device chunk) result }
{
    let place = place_at(context, device);
    match place.name(chunk) {
        Some(name) => {
            let job = ForgeJob::new(alloc, context.nodes, name);
            Begun::Under(Running::Forges(job))
        }
        None => Begun::Over(Answer::NoChunk),
    }
}

/// Begins a job.
pub(crate) fn begin(alloc: Global, context: &Context, job: &Job) -> Begun
    requires context { IsContext (seen_context context.now) }
    requires job { IsJob (seen_context context.now) (job_of (job_seen job.now)) }
    ensures { Begins (seen_context context.now) (job_of (job_seen job.now)) result }
{
    match job {
        Job::Read(device, offset, length) => {
            let (offset, length) = (*offset, *length);
            begin_call(alloc, context, *device, DeviceCall::Read { offset, length })
        }
        Job::Zero(device, offset, length) => {
            let (offset, length) = (*offset, *length);
            begin_call(alloc, context, *device, DeviceCall::Zero { offset, length })
        }
        Job::Write(device, offset, runs) => begin_write(
            alloc,
            context,
            *device,
            *offset,
            runs.as_slice(),
        ),
        Job::Create(image, tenant, whole, body) => {
            begin_creation(alloc, context, *image, *tenant, *whole, body)
        }
        Job::Migrate(image) => Begun::Under(Running::Migrates(MigratingJob::new(alloc, *image))),
        Job::Withdraw(image) => begin_collection(
            alloc,
            context,
            CollectJob::Withdraw { image: *image },
        ),
        Job::Rotate(salt) => begin_collection(alloc, context, CollectJob::Rotate { salt: *salt }),
        Job::Expire(root) => begin_collection(alloc, context, CollectJob::Expire { root: *root }),
        Job::Delete(root) => begin_collection(alloc, context, CollectJob::Delete { root: *root }),
        Job::Sweep(root) => begin_collection(alloc, context, CollectJob::Sweep { root: *root }),
        Job::Settle(key) => begin_collection(alloc, context, CollectJob::Settle { key: *key }),
        Job::Evict(host) => {
            Begun::Under(Running::Makes(SingleJob::new(Single::Evict { host: *host })))
        }
        Job::Drop(index, device, chunk) => begin_drop(context, *index, *device, *chunk),
        Job::Flip(index, device, chunk, at) => begin_flip(context, *index, *device, *chunk, *at),
        Job::Forge(device, chunk) => begin_forging(alloc, context, *device, *chunk),
        Job::Lose(node) => Begun::Under(Running::Makes(SingleJob::new(Single::Lose {
            node: *node,
        }))),
        Job::Close(device) => begin_close(context, *device),
    }
}
