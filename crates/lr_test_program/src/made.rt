//! A made script: its text as it grows, and what its images have.
ghost use Rattle.std.specs.Prelude.{◌<◌};

use crate::draw::{below, byte, one_in};
use lr_gen::fill;
use lr_spec::OutOfMemory;
use lr_text::{put_key, put_number, put_run};
use rand_pcg::Lcg64Xsh32;
use std::alloc::Global;

// Bytes of a page.
const PAGE: u64 = 4096;

/// The bytes of an image before it is padded.
#[derive(Drop)]
pub(crate) enum MadeBody {
    Seed(u32),
    /// Runs, and zeros behind them.
    Runs(Vec<(u64, u8)>),
}

/// An image of a made script.
#[derive(Drop)]
pub(crate) struct MadeImage {
    /// Pages of the padded image.
    pub(crate) pages: u32,
    /// Bytes of the image.
    pub(crate) raw: u64,
    pub(crate) body: MadeBody,
}

// The bytes of the runs from the front of a list on.
fn put_runs(bytes: &mut [u8], runs: &[(u64, u8)]) {
    let mut at = 0;
    for (count, byte) in runs {
        if let Some(behind) = bytes.get_mut(at..) {
            if let Some(part) = behind.get_mut(..*count as usize) {
                part.fill(*byte);
            }
        }
        at = at.saturating_add(*count as usize);
    }
}

impl MadeImage {
    /// The bytes of a device that is opened on the image.
    pub(crate) fn padded(&self, alloc: Global) -> Result<Vec<u8>, OutOfMemory> {
        let whole = u64::from(self.pages) * PAGE;
        let mut bytes = vec![in alloc; 0u8; whole as usize]?;
        if let Some(front) = bytes.as_mut_slice().get_mut(..self.raw as usize) {
            match &self.body {
                MadeBody::Seed(number) => fill(*number, 0, front),
                MadeBody::Runs(runs) => put_runs(front, runs),
            }
        }
        Ok(bytes)
    }
}

/// A made script, and the store that it is played over.
#[derive(Drop)]
pub(crate) struct Made {
    pub(crate) text: Vec<u8>,
    /// The images of the `image` lines.
    pub(crate) images: Vec<MadeImage>,
    /// The image of each device, counted from 0.
    pub(crate) devices: Vec<u32>,
    /// How many calls of the store pass, where it fails at all. All later ones fail.
    pub(crate) calls: Option<u64>,
    /// Whether the first of these has its effect.
    pub(crate) done: bool,
}

/// A script that is being made.
#[derive(Drop)]
pub(crate) struct Maker {
    pub(crate) words: Lcg64Xsh32,
    pub(crate) text: Vec<u8>,
    pub(crate) images: Vec<MadeImage>,
    pub(crate) devices: Vec<u32>,
    pub(crate) hosts: u32,
    pub(crate) nodes: u32,
}

impl Maker {
    /// An empty script, whose numbers are drawn from a beginning of its own.
    pub(crate) fn new(alloc: Global, number: u32) -> Maker {
        Maker {
            words: Lcg64Xsh32::new(u64::from(number), 3),
            text: Vec::new(alloc),
            images: Vec::new(alloc),
            devices: Vec::new(alloc),
            hosts: 0,
            nodes: 5,
        }
    }

    pub(crate) fn below(&mut self, count: u32) -> u32
        requires { 0 < count }
        ensures { result < count }
    {
        below(&mut self.words, count)
    }

    pub(crate) fn one_in(&mut self, count: u32) -> bool
        requires { 0 < count }
    {
        one_in(&mut self.words, count)
    }

    /// Adds a text.
    pub(crate) fn put(&mut self, text: &[u8]) -> Result<(), OutOfMemory> {
        Ok(self.text.extend_from_slice(text)?)
    }

    /// Adds a text and a number behind it.
    pub(crate) fn put_at(&mut self, text: &[u8], number: u64) -> Result<(), OutOfMemory> {
        self.put(text)?;
        put_number(&mut self.text, number)
    }

    /// Adds a text and a number that is drawn below a count.
    pub(crate) fn put_drawn(&mut self, text: &[u8], count: u32) -> Result<(), OutOfMemory>
        requires { 0 < count }
    {
        let number = self.below(count);
        self.put_at(text, u64::from(number))
    }

    /// Adds a space and a key of one byte.
    pub(crate) fn put_key(&mut self, byte: u8) -> Result<(), OutOfMemory> {
        self.put(b" ")?;
        put_key(&mut self.text, &[byte; 32])
    }

    /// Adds a space and a key of a byte that is drawn.
    pub(crate) fn put_salt(&mut self) -> Result<(), OutOfMemory> {
        let byte = byte(&mut self.words);
        self.put_key(byte)
    }

    /// Adds a space and a run of a byte that is drawn.
    pub(crate) fn put_run(&mut self, count: u64) -> Result<u8, OutOfMemory> {
        let byte = byte(&mut self.words);
        self.put(b" ")?;
        put_run(&mut self.text, count, byte)?;
        Ok(byte)
    }

    /// The pages of the image of a device.
    pub(crate) fn pages_of(&self, device: u32) -> u32 {
        let Some(image) = self.devices.get(device as usize) else {
            return 0;
        };
        match self.images.get(*image as usize) {
            Some(image) => image.pages,
            None => 0,
        }
    }

    /// The script as it stands, over a store of which so many calls pass.
    pub(crate) fn into_made(self, calls: Option<u64>, done: bool) -> Made {
        let Maker {
            words: _,
            text,
            images,
            devices,
            hosts: _,
            nodes: _,
        } = self;
        Made {
            text,
            images,
            devices,
            calls,
            done,
        }
    }
}
