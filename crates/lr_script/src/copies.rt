//! Jobs, copied.
ghost use Rattle.std.specs.Prelude.{◌≡◌, IfOk, map, take};
ghost use Rattle.lr_script.specs.Seen.{body_seen, job_seen, jobs_seen};

use crate::script::{Body, Job};
use lr_spec::OutOfMemory;
use std::alloc::Global;

fn copy_body(alloc: Global, body: &Body) -> Result<Body, OutOfMemory>
    ensures { IfOk result (λ b. body_seen b ≡ body_seen body.now) }
{
    match body {
        Body::Runs(runs) => Ok(Body::Runs(Vec::from_slice(alloc, runs.as_slice())?)),
        Body::Seed(number) => Ok(Body::Seed(*number)),
    }
}

fn copy_write(
    alloc: Global,
    device: u32,
    offset: u64,
    runs: &Vec<(u64, u8)>,
) -> Result<Job, OutOfMemory>
    ensures { IfOk result (λ j. job_seen j ≡ job_seen (Job.Write device offset runs.now)) }
{
    let runs = Vec::from_slice(alloc, runs.as_slice())?;
    Ok(Job::Write(device, offset, runs))
}

fn copy_job(alloc: Global, job: &Job) -> Result<Job, OutOfMemory>
    ensures { IfOk result (λ j. job_seen j ≡ job_seen job.now) }
{
    let copy = match job {
        Job::Write(device, offset, runs) => return copy_write(alloc, *device, *offset, runs),
        Job::Create(name, tenant, len, body) => {
            Job::Create(*name, *tenant, *len, copy_body(alloc, body)?)
        }
        Job::Read(device, offset, len) => Job::Read(*device, *offset, *len),
        Job::Zero(device, offset, len) => Job::Zero(*device, *offset, *len),
        Job::Migrate(image) => Job::Migrate(*image),
        Job::Withdraw(image) => Job::Withdraw(*image),
        Job::Rotate(salt) => Job::Rotate(*salt),
        Job::Expire(root) => Job::Expire(*root),
        Job::Delete(root) => Job::Delete(*root),
        Job::Sweep(root) => Job::Sweep(*root),
        Job::Settle(key) => Job::Settle(*key),
        Job::Evict(host) => Job::Evict(*host),
        Job::Drop(stripe, device, index) => Job::Drop(*stripe, *device, *index),
        Job::Flip(stripe, device, index, at) => Job::Flip(*stripe, *device, *index, *at),
        Job::Forge(device, index) => Job::Forge(*device, *index),
        Job::Lose(node) => Job::Lose(*node),
        Job::Close(device) => Job::Close(*device),
    };
    Ok(copy)
}

/// The same jobs once more.
pub fn copy_jobs(alloc: Global, jobs: &[Job]) -> Result<Vec<Job>, OutOfMemory>
    ensures { IfOk result (λ v. jobs_seen v.items ≡ jobs_seen jobs.now) }
{
    let mut copies = Vec::new(alloc);
    for job in jobs {
        copies.push(copy_job(alloc, job)?)?;
    }
    Ok(copies)
}
