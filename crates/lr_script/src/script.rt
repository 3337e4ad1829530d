//! A script, as it was read.
use lr_origin::Key;
use lr_text::ImageName;
use std::marker::Model;

/// The bytes of an image.
#[derive(Drop)]
pub enum Body {
    /// How often which byte, at most 64 runs whose sum is at most the image's length. Zeros follow.
    Runs(Vec<(u64, u8)>),
    /// The bytes that grow from this number.
    Seed(u32),
}

/// A setup line. A host is named by its place among the `host` lines, counted from 0.
#[derive(Drop)]
pub enum Setup {
    /// A host, and the chunks of its cache, from 1 to 1,024.
    Host(ImageName, u32),
    /// A rotation to a root with this salt.
    Root([u8; 32]),
    /// A creation: the image, its tenant's key, its raw bytes, at most 67,108,864, and their contents.
    Image(ImageName, [u8; 32], u64, Body),
    /// A device, its host, its image and the key of the image's tenant.
    Device(ImageName, u32, ImageName, [u8; 32]),
}

/// A job. A host or a device is named by its place among the lines that declare them, counted from 0.
#[derive(Drop)]
pub enum Job {
    /// A device, an offset and a length in bytes, at most 1,048,576.
    Read(u32, u64, u32),
    /// As `Read`.
    Zero(u32, u64, u32),
    /// A device, an offset in bytes, and 1 to 64 runs whose sum is the length, at most 1,048,576 bytes.
    Write(u32, u64, Vec<(u64, u8)>),
    /// As `Setup::Image`.
    Create(ImageName, [u8; 32], u64, Body),
    Migrate(ImageName),
    Withdraw(ImageName),
    /// The salt of the new root.
    Rotate([u8; 32]),
    /// A root from 1 to 1,000.
    Expire(u32),
    /// As `Expire`.
    Delete(u32),
    /// As `Expire`.
    Sweep(u32),
    Settle(Key),
    /// A host whose cache is emptied.
    Evict(u32),
    /// A stripe from 0 to 4 of a device's chunk, whose index is at most 20,479.
    Drop(u8, u32, u32),
    /// As `Drop`, and the place of a byte in the stripe, below 131,072.
    Flip(u8, u32, u32, u32),
    /// A device and the index of its chunk, at most 20,479.
    Forge(u32, u32),
    /// A node, counted from 0.
    Lose(u32),
    /// A device, closed at most once. It stands in the after part alone.
    Close(u32),
}

/// In which order actors take their steps.
#[derive(Drop)]
pub enum Schedule {
    /// One actor after another.
    Serial,
    /// A step of each in turn.
    Rounds,
    /// An actor's number, from 1, and how many steps, at least 1: 1 to 64 pairs, at most 1,000,000 steps together.
    /// Whether rounds follow.
    Pairs(Vec<(u32, u32)>, bool),
}

/// A script as it was written. Contracts see it as numbers and lists.
#[derive(Drop)]
pub struct Script {
    /// From 5 to 32.
    pub nodes: u32,
    /// Stripes of each node.
    pub cap: u32,
    /// The setup lines but `nodes`, each with its line number, from 1.
    pub setup: Vec<(u32, Setup)>,
    /// At most 32 actors with their jobs. An actor's number is its place, counted from 1.
    pub actors: Vec<(ImageName, Vec<Job>)>,
    /// The jobs of the after part, where there is one.
    pub after: Option<Vec<Job>>,
    /// An actor's number, and after how many of its steps it crashes, at most 1,000,000.
    pub crashes: Vec<(u32, u64)>,
    pub schedule: Schedule,
}

impl Model for Script {
    ghost use Rattle.lr_script.specs.Seen.{ScriptSeen, setup_seen, jobs_seen, actors_seen, schedule_seen};
    ghost use Rattle.std.specs.Prelude.{map, option_map};

    ghost Value = { ScriptSeen };

    ghost view = { λ s. record {
      nodes = s.nodes;
      cap = s.cap;
      setup = map (λ p. (p.0, setup_seen p.1)) s.setup.items;
      actors = actors_seen s.actors.items;
      after = option_map (λ v. jobs_seen v.items) s.after;
      crashes = s.crashes.items;
      schedule = schedule_seen s.schedule;
    } };
}
