//! The setup lines of a made script.
ghost use Rattle.std.specs.Prelude.{◌<◌};

use crate::made::{MadeBody, MadeImage, Maker};
use lr_spec::OutOfMemory;
use std::alloc::Global;

// Pages of a chunk.
const CHUNK_PAGES: u32 = 128;

impl Maker {
    // Pages of an image: none, at most those of one chunk in most cases, or of three.
    fn image_pages(&mut self) -> u32 {
        match self.below(16) {
            0 => 0,
            1 => 1 + self.below(3 * CHUNK_PAGES),
            2 => CHUNK_PAGES,
            _ => 1 + self.below(CHUNK_PAGES),
        }
    }

    // Adds up to three runs, whose sum is at most the image's length.
    fn put_body_runs(&mut self, alloc: Global, raw: u64) -> Result<MadeBody, OutOfMemory> {
        self.put(b" bytes")?;
        let mut runs = Vec::new(alloc);
        let most = raw / 4;
        for _ in 0..self.below(4) {
            let count = 1 + u64::from(self.below(600_000)) % (most + 1);
            if count <= most {
                let byte = self.put_run(count)?;
                runs.push((count, byte))?;
            }
        }
        Ok(MadeBody::Runs(runs))
    }

    // Adds what an image has.
    fn put_body(&mut self, alloc: Global, raw: u64) -> Result<MadeBody, OutOfMemory> {
        if self.one_in(3) {
            return self.put_body_runs(alloc, raw);
        }
        let seed = self.below(1_000_000);
        self.put_at(b" seed ", u64::from(seed))?;
        Ok(MadeBody::Seed(seed))
    }

    /// Adds the words behind an image's name: its tenant, its length and what it has, and the end of the line.
    pub(crate) fn put_image(
        &mut self,
        alloc: Global,
        tenant: u8,
        pages: u32,
    ) -> Result<MadeImage, OutOfMemory> {
        let whole = u64::from(pages) * 4096;
        let raw = whole.saturating_sub(u64::from(self.below(4096)));
        self.put_key(tenant)?;
        self.put_at(b" ", raw)?;
        let body = self.put_body(alloc, raw)?;
        self.put(b"\n")?;
        Ok(MadeImage { pages, raw, body })
    }

    fn put_hosts(&mut self) -> Result<(), OutOfMemory> {
        if self.one_in(3) {
            self.nodes = 5 + self.below(4);
            let nodes = self.nodes;
            self.put_at(b"nodes ", u64::from(nodes))?;
            let cap = 1 + self.below(8);
            self.put_at(b" ", u64::from(cap))?;
            self.put(b"\n")?;
        }
        self.hosts = 1 + self.below(2);
        for host in 0..self.hosts {
            self.put_at(b"host h", u64::from(host))?;
            let cap = 1 + self.below(2);
            self.put_at(b" ", u64::from(cap))?;
            self.put(b"\n")?;
        }
        Ok(())
    }

    fn put_root(&mut self) -> Result<(), OutOfMemory> {
        self.put(b"root")?;
        self.put_salt()?;
        self.put(b"\n")
    }

    fn put_images(&mut self, alloc: Global) -> Result<(), OutOfMemory> {
        let count = if self.one_in(10) { 2u8 } else { 1 };
        for at in 0..count {
            self.put_at(b"image i", u64::from(at))?;
            let pages = self.image_pages();
            let image = self.put_image(alloc, at, pages)?;
            self.images.push(image)?;
            if self.one_in(6) {
                self.put_root()?;
            }
        }
        Ok(())
    }

    fn put_devices(&mut self, images: u8, hosts: u32) -> Result<(), OutOfMemory>
        requires some { 0 < images }
        requires hosts { 0 < hosts }
    {
        let count = 1 + self.below(2);
        for at in 0..count {
            self.put_at(b"device d", u64::from(at))?;
            self.put_drawn(b" h", hosts)?;
            let image = self.below(u32::from(images)) as u8;
            self.put_at(b" i", u64::from(image))?;
            self.put_key(image)?;
            self.put(b"\n")?;
            self.devices.push(u32::from(image))?;
        }
        Ok(())
    }

    /// Adds all setup lines.
    pub(crate) fn put_setup(&mut self, alloc: Global) -> Result<(), OutOfMemory> {
        self.put(b"script 1\n")?;
        self.put_hosts()?;
        self.put_root()?;
        self.put_images(alloc)?;
        let images = if self.images.len() > 1 { 2u8 } else { 1 };
        let hosts = if self.hosts > 1 { 2 } else { 1 };
        self.put_devices(images, hosts)
    }
}
