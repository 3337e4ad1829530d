//! The actors of a made script and their jobs, the after part, crash lines and the schedule.
ghost use Rattle.std.specs.Prelude.{◌<◌};

use crate::made::{Made, Maker};
use lr_spec::OutOfMemory;
use std::alloc::Global;

// Bytes of a sector, and sectors of a page.
const SECTOR: u64 = 512;

const PAGE_SECTORS: u32 = 8;

// Keys that a put may leave in doubt.
const KEYS: &[&[u8]] = &[
    b"r/0000000001/m/i0",
    b"r/0000000002/a",
    b"r/0000000002/m/i0",
    b"w/i0",
];

impl Maker {
    // Adds the word of a device that is drawn, and tells the device.
    fn put_device(&mut self, text: &[u8]) -> Result<u32, OutOfMemory> {
        let count = if self.devices.len() > 1 { 2 } else { 1 };
        let device = self.below(count);
        self.put_at(text, u64::from(device))?;
        Ok(device)
    }

    // An offset on a device, in bytes: most of them within the first sectors, and some within no device or no sector.
    fn offset(&mut self, device: u32) -> u64 {
        if self.one_in(24) {
            return u64::from(self.below(2_000_000));
        }
        let pages = self.pages_of(device) % 1024;
        let sectors = if self.one_in(3) {
            pages * PAGE_SECTORS + 1
        } else {
            16
        };
        u64::from(self.below(sectors)) * SECTOR
    }

    // Bytes of a call: whole sectors in most cases, up to four pages or up to the most.
    fn length(&mut self) -> u32 {
        match self.below(32) {
            0 => self.below(3_000),
            1 => 512 * (1 + self.below(2_048)),
            _ => 512 * (1 + self.below(32)),
        }
    }

    // Adds a call that has a length: a read or a write of zeros.
    fn put_call(&mut self, text: &[u8]) -> Result<(), OutOfMemory> {
        let device = self.put_device(text)?;
        let offset = self.offset(device);
        let length = self.length();
        self.put_at(b" ", offset)?;
        self.put_at(b" ", u64::from(length))
    }

    // Adds a write of one run or of two.
    fn put_write(&mut self) -> Result<(), OutOfMemory> {
        let device = self.put_device(b"write d")?;
        let offset = self.offset(device);
        let length = self.length().max(1);
        self.put_at(b" ", offset)?;
        let first = self.below(length);
        if first > 0 {
            self.put_run(u64::from(first))?;
        }
        self.put_run(u64::from(length.saturating_sub(first)))?;
        Ok(())
    }

    // Adds damage to a stripe of a device's chunk, or to all of them.
    fn put_damage(&mut self) -> Result<(), OutOfMemory> {
        match self.below(3) {
            0 => {
                self.put_drawn(b"drop ", 5)?;
                self.put_device(b" d")?;
                self.put_drawn(b" ", 4)
            }
            1 => {
                self.put_drawn(b"flip ", 5)?;
                self.put_device(b" d")?;
                self.put_drawn(b" ", 2)?;
                self.put_drawn(b" ", 131_072)
            }
            _ => {
                self.put_device(b"forge d")?;
                self.put_drawn(b" ", 2)
            }
        }
    }

    fn put_creation(&mut self, alloc: Global) -> Result<(), OutOfMemory> {
        self.put_drawn(b"create c", 3)?;
        let pages = self.below(2);
        let _image = self.put_image(alloc, 7, pages)?;
        Ok(())
    }

    // Adds the name of an image that may be there.
    fn put_name(&mut self, text: &[u8]) -> Result<(), OutOfMemory> {
        self.put(text)?;
        if self.one_in(4) {
            self.put_drawn(b" c", 3)
        } else {
            self.put_drawn(b" i", 2)
        }
    }

    fn put_settling(&mut self) -> Result<(), OutOfMemory> {
        let at = self.below(4);
        self.put(b"settle ")?;
        match KEYS.get(at as usize) {
            Some(key) => self.put(*key),
            None => self.put(b"w/i1"),
        }
    }

    // Adds a job on one of the first roots.
    fn put_root_job(&mut self, text: &[u8]) -> Result<(), OutOfMemory> {
        let root = 1 + self.below(3);
        self.put_at(text, u64::from(root))
    }

    // Adds a job of the depot that may also stand in the after part.
    fn put_depot_job(&mut self) -> Result<(), OutOfMemory> {
        match self.below(12) {
            0 | 1 | 2 => self.put_name(b"migrate")?,
            3 => self.put_name(b"withdraw")?,
            4 | 5 => {
                self.put(b"rotate")?;
                self.put_salt()?;
            }
            6 | 7 => self.put_root_job(b"expire ")?,
            8 | 9 => self.put_root_job(b"delete ")?,
            10 => self.put_root_job(b"sweep ")?,
            _ => self.put_settling()?,
        }
        self.put(b"\n")
    }

    // Adds a job of an actor.
    fn put_job(&mut self, alloc: Global) -> Result<(), OutOfMemory> {
        match self.below(32) {
            0 => return self.put_creation(alloc),
            1 | 2 | 3 | 4 => return self.put_depot_job(),
            5 | 6 => {
                let hosts = if self.hosts > 1 { 2 } else { 1 };
                self.put_drawn(b"evict h", hosts)?;
            }
            7 | 8 | 9 => self.put_damage()?,
            10 => self.put_drawn(b"lose ", 5)?,
            11 | 12 => self.put_call(b"zero d")?,
            13 | 14 | 15 | 16 | 17 | 18 | 19 => self.put_write()?,
            _ => self.put_call(b"read d")?,
        }
        self.put(b"\n")
    }

    fn put_actors(&mut self, alloc: Global, actors: u32) -> Result<(), OutOfMemory> {
        for actor in 0..actors {
            self.put_at(b"actor a", u64::from(actor))?;
            self.put(b"\n")?;
            let jobs = 4 + self.below(13);
            for _ in 0..jobs {
                self.put_job(alloc)?;
            }
        }
        Ok(())
    }

    fn put_after(&mut self) -> Result<(), OutOfMemory> {
        self.put(b"after\n")?;
        if self.one_in(2) {
            self.put(b"close d0\n")?;
        }
        for _ in 0..self.below(6) {
            self.put_depot_job()?;
        }
        Ok(())
    }

    fn put_crashes(&mut self, actors: u32) -> Result<(), OutOfMemory> {
        for actor in 0..actors {
            if self.one_in(6) {
                self.put_at(b"crash a", u64::from(actor))?;
                self.put_drawn(b" ", 40)?;
                self.put(b"\n")?;
            }
        }
        Ok(())
    }

    fn put_pairs(&mut self, actors: u32) -> Result<(), OutOfMemory>
        requires { 0 < actors }
    {
        let pairs = 1 + self.below(12);
        for _ in 0..pairs {
            self.put_drawn(b" a", actors)?;
            let count = 1 + self.below(12);
            self.put_at(b" ", u64::from(count))?;
        }
        if self.one_in(3) {
            return Ok(());
        }
        self.put(b" rounds")
    }

    fn put_schedule(&mut self, actors: u32) -> Result<(), OutOfMemory>
        requires { 0 < actors }
    {
        match self.below(8) {
            0 => return Ok(()),
            1 => self.put(b"schedule serial")?,
            2 | 3 => self.put(b"schedule rounds")?,
            _ => {
                self.put(b"schedule")?;
                self.put_pairs(actors)?;
            }
        }
        self.put(b"\n")
    }

    // The calls of the store that pass, in the scripts in which it fails.
    fn passing(&mut self) -> Option<u64> {
        match self.below(6) {
            0 => Some(u64::from(self.below(12))),
            1 => Some(u64::from(self.below(60))),
            _ => None,
        }
    }
}

/// A script of this number.
pub(crate) fn made(alloc: Global, number: u32) -> Result<Made, OutOfMemory> {
    let mut maker = Maker::new(alloc, number);
    maker.put_setup(alloc)?;
    let actors = 1 + maker.below(4);
    maker.put_actors(alloc, actors)?;
    if maker.one_in(3) {
        maker.put_after()?;
    }
    maker.put_crashes(actors)?;
    maker.put_schedule(actors)?;
    let calls = maker.passing();
    let done = maker.one_in(2);
    Ok(maker.into_made(calls, done))
}
