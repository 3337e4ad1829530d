//! Written pages over a base.
//!
//! A page of 4,096 bytes is written or not. Over any base, the pages show the written ones and the base for the rest.
//! The table of pages is a directory of chunks: a chunk gets a leaf with the places of its 128 pages when one of them is
//! reserved, and a page's buffer is then put into its place without any memory. `leaf` holds the places of a chunk.
#![tactic(auto)]

ghost use Rattle.std.specs.Prelude.{◌≡◌, ℕ, ◌/◌, ◌%◌, ◌*◌, ◌<◌, ◌≤◌, ◌+◌, length, slice_get, slice_set, Some, None, [], replicate, true, IfOk, IfSome, option_map, box_value, All, OnOk, vec_len};
ghost use Rattle.lr_overlay.specs.Pages.{HasLength, HasPlaces, KeepsPlaces, is_placed, is_written, fitted};
ghost use Rattle.lr_overlay.specs.Directory.{place_of, leaves_of};

mod cells;
mod leaf;

use leaf::{Leaf, has_all};
use lr_layout::{PAGE, RAW_LIMIT};
use lr_spec::OutOfMemory;
use std::alloc::Global;
use std::marker::Model;

// Pages of a chunk.
const PAGES: u32 = 128;

/// Which pages are written, and their bytes.
#[derive(Drop)]
pub struct Overlay {
    alloc: Global,
    count: u32,
    chunks: Vec<Leaf>,
}

impl Model for Overlay {
    ghost use Rattle.std.specs.Prelude.{◌≤◌, ◌*◌, length};
    ghost use Rattle.lr_overlay.specs.Pages.{OverlaySeen};
    ghost use Rattle.lr_overlay.specs.Directory.{table};

    ghost Value = { OverlaySeen };

    ghost view = { λ s. table s.chunks.items s.count };

    ghost invariant = { λ s. (s.count ≤ 128 * length s.chunks.items) × (s.count ≤ 2621440) };
}

// A directory of so many chunks, none of which has places.
fn directory(alloc: Global, count: usize) -> Result<Vec<Leaf>, OutOfMemory>
    ensures { IfOk result (λ chunks. chunks.items ≡ replicate count []) }
{
    let mut chunks = Vec::with_capacity(alloc, count)?;
    for _ in 0..count {
        chunks.push_reserved(Leaf::new());
    }
    Ok(chunks)
}

// Gives each chunk from one to before another its places.
fn add_leaves(alloc: Global, chunks: &mut Vec<Leaf>, from: u32, end: u32) -> Result<(), OutOfMemory>
    requires { end ≤ vec_len chunks.old }
    ensures len { vec_len chunks.new ≡ vec_len chunks.old }
    ensures kept { (page : ℕ) → place_of chunks.new.items page ≡ place_of chunks.old.items page }
    ensures grows { KeepsPlaces (leaves_of chunks.old.items) (leaves_of chunks.new.items) }
    ensures ok { OnOk result ((page : ℕ) → from ≤ page / 128 → page / 128 < end → is_placed (leaves_of chunks.new.items) page ≡ true) }
{
    for chunk in from..end {
        chunks[chunk as usize].fill(alloc)?;
    }
    Ok(())
}

impl Overlay {
    ghost use Rattle.std.specs.Borrow.{sem};
    ghost use Rattle.lr_overlay.specs.Lending.{LendsPage};

    /// The pages of a device of this length in bytes, none of them written. It takes the directory: one entry a chunk.
    pub fn new(alloc: Global, length: u64) -> Result<Overlay, OutOfMemory>
        requires whole { length % PAGE ≡ 0 }
        requires within { length ≤ RAW_LIMIT }
        ensures { IfOk result (λ o. o ≡ record { pages = replicate (length / 4096) None; leaves = replicate ((length / 4096 + 127) / 128) 0 }) }
    {
        let count = (length / PAGE) as u32;
        let chunks = directory(alloc, count.div_ceil(PAGES) as usize)?;
        Ok(Overlay {
            alloc,
            count,
            chunks,
        })
    }

    /// The number of pages.
    pub fn count(&self) -> u32
        ensures count { result ≡ length self.now.pages }
        ensures within { result ≤ 2621440 }
    {
        self.count
    }

    /// Each written page has its bytes.
    pub fn is_whole(&self)
        ensures { All (HasLength 4096) self.now.pages }
    {
        let _ = &self.chunks;
    }

    /// Makes room for so many pages from the first on: placing them then takes no memory.
    pub fn reserve(&mut self, first: u32, pages: u32) -> Result<(), OutOfMemory>
        requires { first + pages ≤ length self.old.pages }
        ensures kept { self.new.pages ≡ self.old.pages }
        ensures ok { OnOk result (HasPlaces self.new.leaves first pages) }
        ensures grows { KeepsPlaces self.old.leaves self.new.leaves }
    {
        let end = (first as u64 + pages as u64).div_ceil(u64::from(PAGES)) as u32;
        add_leaves(self.alloc, &mut self.chunks, first / PAGES, end)
    }

    /// Puts a page's bytes in their place. It takes no memory.
    pub fn place(&mut self, page: u32, bytes: Box<[u8; 4096]>)
        requires { is_placed self.old.leaves page ≡ true }
        ensures { self.new ≡ record { pages = slice_set self.old.pages page (Some bytes.value); leaves = self.old.leaves } }
    {
        has_all(&bytes);
        self.chunks[(page / PAGES) as usize].place((page % PAGES) as usize, bytes);
    }

    /// Takes a page out of its place, which is then as if the page had not been written.
    pub fn take_page(&mut self, page: u32) -> Option<Box<[u8; 4096]>>
        requires within { page < length self.old.pages }
        requires placed { is_placed self.old.leaves page ≡ true }
        ensures got { slice_get self.old.pages page ≡ Some (option_map box_value result) }
        ensures left { self.new ≡ record { pages = slice_set self.old.pages page None; leaves = self.old.leaves } }
        ensures length { IfSome result (λ b. length b.value ≡ 4096) }
    {
        self.chunks[(page / PAGES) as usize].take((page % PAGES) as usize)
    }

    /// The bytes of a page that is written.
    pub fn page(&self, page: u32) -> Option<&[u8; 4096]>
        requires { page < length self.now.pages }
        ensures got { slice_get self.now.pages page ≡ Some (option_map (λ b. b.now) result) }
        ensures length { IfSome result (λ b. length b.now ≡ 4096) }
    {
        self.chunks[(page / PAGES) as usize].page((page % PAGES) as usize)
    }

    /// The bytes of a page that is written, to be changed.
    pub fn page_mut(&mut self, page: u32) -> Option<&mut [u8; 4096]>
        requires { page < length self.old.pages }
        ensures* writes_back { sem 𝓛 (LendsPage self.entry page result) }
        ensures got { slice_get self.old.pages page ≡ Some (option_map (λ b. fitted 4096 b.now) result) }
    {
        if self.chunks[(page / PAGES) as usize].count() <= (page % PAGES) as usize {
            return None;
        }
        let leaf = &mut self.chunks[(page / PAGES) as usize];
        leaf.page_mut((page % PAGES) as usize)
    }

    /// Whether a page is written.
    pub fn is_written(&self, page: u32) -> bool
        requires { page < length self.now.pages }
        ensures { result ≡ is_written self.now.pages page }
    {
        self.page(page).is_some()
    }
}
