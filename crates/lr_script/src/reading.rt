//! What the lines so far come to, and what a further line adds.
ghost use Rattle.std.specs.Prelude.{◌≡◌, ◌<◌, ◌≤◌, ◌+◌, ◌++◌, ◌∷◌, [], ◌↔◌, length, map, true, Some, None, IfOk, IfSome, IsTrue, ◌==◌, position, nat_eq};
ghost use Rattle.std.specs.Cmp.Lexicographic.{pointwise};
ghost use Rattle.std.specs.List.{list_any};
ghost use Rattle.lr_text.specs.Name.{place_of};
ghost use Rattle.lr_script.specs.Kinds.{has_begun};
ghost use Rattle.lr_script.specs.State.{start, counted, with_setup, with_job, actor_names, onto_last};
ghost use Rattle.lr_script.specs.Seen.{setup_seen, job_seen, schedule_seen, actors_seen};
ghost use Rattle.lr_script.specs.Limits.{lines_most, bytes_most, hosts_most, devices_most, actors_most, caches_most, images_most, calls_most, jobs_most, nodes_most};

use crate::kind::Part;
use crate::limits::{
    ACTORS_MOST, DEVICES_MOST, HOSTS_MOST, JOBS_MOST, NODE_DEFAULT, NODES_DEFAULT,
};
use crate::script::{Job, Schedule, Script, Setup};
use lr_spec::OutOfMemory;
use lr_text::{ImageName, place_of};
use std::alloc::Global;
use std::marker::Model;

/// What the lines so far come to.
#[derive(Drop)]
pub struct Reading {
    lines: u32,
    bytes: u32,
    part: Part,
    sized: bool,
    hosts: Vec<ImageName>,
    devices: Vec<ImageName>,
    chunks: u32,
    raw: u64,
    job_count: u32,
    called: u32,
    closed: Vec<u32>,
    nodes: u32,
    cap: u32,
    setup: Vec<(u32, Setup)>,
    actors: Vec<(ImageName, Vec<Job>)>,
    after: Option<Vec<Job>>,
    crashes: Vec<(u32, u64)>,
    schedule: Schedule,
}

impl Model for Reading {
    ghost use Rattle.lr_script.specs.State.{State};
    ghost use Rattle.lr_script.specs.Seen.{setup_seen, jobs_seen, actors_seen, schedule_seen};
    ghost use Rattle.lr_script.specs.Limits.{lines_most, hosts_most, devices_most, actors_most, caches_most, images_most, calls_most, nodes_most};
    ghost use Rattle.std.specs.Prelude.{map, option_map, ◌≤◌, length};

    ghost Value = { State };

    ghost view = { λ s. record {
      lines = s.lines;
      bytes = s.bytes;
      part = s.part;
      sized = s.sized;
      hosts = s.hosts.items;
      devices = s.devices.items;
      chunks = s.chunks;
      raw = s.raw;
      jobs = s.job_count;
      called = s.called;
      closed = s.closed.items;
      script = record {
        nodes = s.nodes;
        cap = s.cap;
        setup = map (λ p. (p.0, setup_seen p.1)) s.setup.items;
        actors = actors_seen s.actors.items;
        after = option_map (λ v. jobs_seen v.items) s.after;
        crashes = s.crashes.items;
        schedule = schedule_seen s.schedule;
      };
    } };

    ghost invariant = { λ s.
        (s.lines ≤ lines_most) × (length s.hosts.items ≤ hosts_most) × (length s.devices.items ≤ devices_most) × (length s.actors.items ≤ actors_most)
        × (s.chunks ≤ caches_most) × (s.raw ≤ images_most) × (s.called ≤ calls_most) × (1 ≤ s.nodes) × (s.nodes ≤ nodes_most) };
}

// Where the actor of this name stands.
fn actor_place(actors: &[(ImageName, Vec<Job>)], name: &[u8]) -> Option<usize>
    ensures { result ≡ position (λ a. pointwise nat_eq a.0 name.now) actors.now }
{
    actors.iter().position(|a| a.0.as_bytes() == name)
}

// A job more of the last actor.
fn push_last(actors: &mut Vec<(ImageName, Vec<Job>)>, job: Job) -> Result<(), OutOfMemory>
    ensures few { length actors.new.items ≤ length actors.old.items }
    ensures job { IfOk result (λ _. actors_seen actors.new.items ≡ onto_last (job_seen job) (actors_seen actors.old.items)) }
{
    let Some(last) = actors.pop() else {
        return Ok(());
    };
    let (name, mut jobs) = last;
    jobs.push(job)?;
    actors.push((name, jobs))?;
    Ok(())
}

impl Reading {
    pub fn new(alloc: Global) -> Reading
        ensures { result ≡ start }
    {
        Reading {
            lines: 0,
            bytes: 0,
            part: Part::Start,
            sized: false,
            hosts: Vec::new(alloc),
            devices: Vec::new(alloc),
            chunks: 0,
            raw: 0,
            job_count: 0,
            called: 0,
            closed: Vec::new(alloc),
            nodes: NODES_DEFAULT,
            cap: NODE_DEFAULT,
            setup: Vec::new(alloc),
            actors: Vec::new(alloc),
            after: None,
            crashes: Vec::new(alloc),
            schedule: Schedule::Serial,
        }
    }

    pub fn lines(&self) -> u32
        ensures same { result ≡ self.now.lines }
        ensures few { result ≤ lines_most }
    {
        self.lines
    }

    pub fn bytes(&self) -> u32
        ensures { result ≡ self.now.bytes }
    {
        self.bytes
    }

    pub fn part(&self) -> Part
        ensures { result ≡ self.now.part }
    {
        self.part
    }

    /// Whether the first line came.
    pub fn has_begun(&self) -> bool
        ensures { result ≡ has_begun self.now.part }
    {
        !matches!(self.part, Part::Start)
    }

    pub fn is_sized(&self) -> bool
        ensures { result ≡ self.now.sized }
    {
        self.sized
    }

    /// Chunks of all caches so far.
    pub fn chunks(&self) -> u32
        ensures same { result ≡ self.now.chunks }
        ensures few { result ≤ caches_most }
    {
        self.chunks
    }

    /// Raw bytes of all images so far.
    pub fn raw(&self) -> u64
        ensures same { result ≡ self.now.raw }
        ensures few { result ≤ images_most }
    {
        self.raw
    }

    pub fn has_job_room(&self) -> bool
        ensures { IsTrue result ↔ (self.now.jobs < jobs_most) }
    {
        self.job_count < JOBS_MOST
    }

    /// Bytes of all device calls so far.
    pub fn called(&self) -> u32
        ensures same { result ≡ self.now.called }
        ensures few { result ≤ calls_most }
    {
        self.called
    }

    pub fn nodes(&self) -> u32
        ensures same { result ≡ self.now.script.nodes }
        ensures some { 1 ≤ result }
        ensures few { result ≤ nodes_most }
    {
        self.nodes
    }

    pub fn has_host_room(&self) -> bool
        ensures { IsTrue result ↔ (length self.now.hosts < hosts_most) }
    {
        self.hosts.len() < HOSTS_MOST
    }

    pub fn has_device_room(&self) -> bool
        ensures { IsTrue result ↔ (length self.now.devices < devices_most) }
    {
        self.devices.len() < DEVICES_MOST
    }

    pub fn has_no_device(&self) -> bool
        ensures { IsTrue result ↔ (self.now.devices ≡ []) }
    {
        self.devices.is_empty()
    }

    pub fn has_actor_room(&self) -> bool
        ensures { IsTrue result ↔ (length self.now.script.actors < actors_most) }
    {
        self.actors.len() < ACTORS_MOST
    }

    pub fn host(&self, name: &[u8]) -> Option<u32>
        ensures { result ≡ place_of self.now.hosts name.now }
    {
        match place_of(&self.hosts, name) {
            Some(place) => Some(place as u32),
            None => None,
        }
    }

    pub fn device(&self, name: &[u8]) -> Option<u32>
        ensures { result ≡ place_of self.now.devices name.now }
    {
        match place_of(&self.devices, name) {
            Some(place) => Some(place as u32),
            None => None,
        }
    }

    pub fn actor(&self, name: &[u8]) -> Option<u32>
        ensures place { result ≡ place_of (actor_names self.now) name.now }
        ensures few { IfSome result (λ n. n < actors_most) }
    {
        match actor_place(&self.actors, name) {
            Some(place) => Some(place as u32),
            None => None,
        }
    }

    pub fn is_closed(&self, device: u32) -> bool
        ensures { result ≡ list_any (λ d. d == device) self.now.closed }
    {
        self.closed.iter().any(|d| *d == device)
    }

    pub fn has_crash(&self, actor: u32) -> bool
        ensures { result ≡ list_any (λ c. c.0 == actor) self.now.script.crashes }
    {
        self.crashes.iter().any(|c| c.0 == actor)
    }

    pub fn count_line(&mut self, line: &[u8])
        requires few { self.old.lines < lines_most }
        requires within { self.old.bytes + length line.now + 1 ≤ bytes_most }
        ensures { self.new ≡ counted self.old line.now }
    {
        self.lines += 1;
        self.bytes += line.len() as u32 + 1;
    }

    pub fn enter(&mut self, part: Part)
        ensures { self.new ≡ record self.old { part = part } }
    {
        self.part = part;
    }

    pub fn set_nodes(&mut self, nodes: u32, cap: u32)
        requires some { 1 ≤ nodes }
        requires few { nodes ≤ nodes_most }
        ensures { self.new ≡ record self.old { sized = true; script = record self.old.script { nodes = nodes; cap = cap } } }
    {
        self.sized = true;
        self.nodes = nodes;
        self.cap = cap;
    }

    pub fn add_setup(&mut self, entry: Setup) -> Result<(), OutOfMemory>
        ensures { IfOk result (λ _. self.new ≡ with_setup self.old (setup_seen entry)) }
    {
        self.setup.push((self.lines, entry))?;
        Ok(())
    }

    pub fn add_host(&mut self, name: ImageName, cap: u32) -> Result<(), OutOfMemory>
        requires room { length self.old.hosts < hosts_most }
        requires fits { self.old.chunks + cap ≤ caches_most }
        ensures { IfOk result (λ _. self.new ≡ record self.old { hosts = self.old.hosts ++ name ∷ []; chunks = self.old.chunks + cap }) }
    {
        self.hosts.push(name)?;
        self.chunks += cap;
        Ok(())
    }

    pub fn add_raw(&mut self, len: u64)
        requires { self.old.raw + len ≤ images_most }
        ensures { self.new ≡ record self.old { raw = self.old.raw + len } }
    {
        self.raw += len;
    }

    pub fn add_device(&mut self, name: ImageName) -> Result<(), OutOfMemory>
        requires { length self.old.devices < devices_most }
        ensures { IfOk result (λ _. self.new ≡ record self.old { devices = self.old.devices ++ name ∷ [] }) }
    {
        self.devices.push(name)?;
        Ok(())
    }

    pub fn add_called(&mut self, len: u32)
        requires { self.old.called + len ≤ calls_most }
        ensures { self.new ≡ record self.old { called = self.old.called + len } }
    {
        self.called += len;
    }

    pub fn add_closed(&mut self, device: u32) -> Result<(), OutOfMemory>
        ensures { IfOk result (λ _. self.new ≡ record self.old { closed = self.old.closed ++ device ∷ [] }) }
    {
        self.closed.push(device)?;
        Ok(())
    }

    pub fn add_actor(&mut self, alloc: Global, name: ImageName) -> Result<(), OutOfMemory>
        requires { length self.old.script.actors < actors_most }
        ensures { IfOk result (λ _. self.new ≡ record self.old { script = record self.old.script { actors = self.old.script.actors ++ (name, []) ∷ [] } }) }
    {
        self.actors.push((name, Vec::new(alloc)))?;
        Ok(())
    }

    pub fn begin_after(&mut self, alloc: Global)
        ensures { self.new ≡ record self.old { script = record self.old.script { after = Some [] } } }
    {
        self.after = Some(Vec::new(alloc));
    }

    pub fn add_job(&mut self, job: Job) -> Result<(), OutOfMemory>
        requires { self.old.jobs < jobs_most }
        ensures { IfOk result (λ _. self.new ≡ with_job self.old (job_seen job)) }
    {
        self.job_count += 1;
        match self.after.take() {
            None => {
                push_last(&mut self.actors, job)?;
                Ok(())
            }
            Some(mut jobs) => {
                jobs.push(job)?;
                self.after = Some(jobs);
                Ok(())
            }
        }
    }

    pub fn add_crash(&mut self, actor: u32, steps: u64) -> Result<(), OutOfMemory>
        ensures { IfOk result (λ _. self.new ≡ record self.old { script = record self.old.script { crashes = self.old.script.crashes ++ (actor, steps) ∷ [] } }) }
    {
        self.crashes.push((actor, steps))?;
        Ok(())
    }

    pub fn set_schedule(&mut self, schedule: Schedule)
        ensures { self.new ≡ record self.old { script = record self.old.script { schedule = schedule_seen schedule } } }
    {
        self.schedule = schedule;
    }

    /// What was read.
    pub fn into_script(self) -> Script
        ensures { result ≡ self.script }
    {
        Script {
            nodes: self.nodes,
            cap: self.cap,
            setup: self.setup,
            actors: self.actors,
            after: self.after,
            crashes: self.crashes,
            schedule: self.schedule,
        }
    }
}
