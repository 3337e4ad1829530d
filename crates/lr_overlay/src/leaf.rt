//! The places of a chunk's pages.
ghost use Rattle.std.specs.Prelude.{◌≡◌, ◌<◌, ◌≤◌, ℕ, length, slice_set, get_or, Some, None, [], IfOk, IfSome, OnOk, option_map, box_value};
ghost use Rattle.lr_overlay.specs.Pages.{fitted};
ghost use Rattle.lr_overlay.specs.Places.{page_seen};

use crate::cells::Cells;
use lr_spec::OutOfMemory;
use std::alloc::Global;
use std::marker::Model;
use std::mem::{replace, size_of};

// Pages of a chunk.
const PLACES: usize = 128;

// A page's buffer, where the page is written.
type Place = Option<Box<[u8; 4096]>>;

/// The places of a chunk's pages: 128, or none. Contracts see the pages.
#[derive(Drop)]
pub struct Leaf {
    places: Option<Box<Cells<Place, PLACES>>>,
}

// The entry of a chunk has 16 bytes, and the places of its pages have 16 bytes each.
const _: () = prove!(size_of::<Leaf>() == 16);

const _: () = prove!(size_of::<Cells<Place, PLACES>>() == 16 * PLACES);

impl Model for Leaf {
    ghost use Rattle.std.specs.Prelude.{map};
    ghost use Rattle.lr_overlay.specs.Pages.{Pages};
    ghost use Rattle.lr_overlay.specs.Places.{places_of, page_seen};

    ghost Value = { Pages };

    ghost view = { λ s. map page_seen (places_of s.places) };
}

// A page has all its bytes.
pub(crate) fn has_all(page: &[u8; 4096])
    ensures { length page.now ≡ 4096 }
{
    let _count = page.len();
}

// A chunk has a place for each of its pages.
fn has_all_places(places: &[Place; PLACES])
    ensures { length places.now ≡ 128 }
{
    let _count = places.len();
}

// All the places of a chunk, each of them empty.
fn empty_places() -> [Place; PLACES]
    ensures long { length result ≡ 128 }
    ensures empty { (at : ℕ) → get_or result at None ≡ None }
{
    Default::default()
}

impl Leaf {
    ghost use Rattle.std.specs.Borrow.{sem};
    ghost use Rattle.lr_overlay.specs.Lending.{LendsPlace};

    /// No places. It takes no memory.
    pub fn new() -> Leaf
        ensures { result ≡ [] }
    {
        Leaf { places: None }
    }

    // All the places, each of them empty.
    fn filled(alloc: Global) -> Result<Leaf, OutOfMemory>
        ensures all { IfOk result (λ leaf. 128 ≤ length leaf) }
        ensures empty { IfOk result (λ leaf. (at : ℕ) → get_or leaf at None ≡ None) }
    {
        let places = Cells {
            all: empty_places(),
        };
        Ok(Leaf {
            places: Some(Box::new(alloc, places)?),
        })
    }

    /// How many places there are.
    pub fn count(&self) -> usize
        ensures count { result ≡ length self.now }
        ensures most { result ≤ 128 }
    {
        match &self.places {
            Some(places) => {
                has_all_places(&places.all);
                PLACES
            }
            None => 0,
        }
    }

    /// Makes all 128 places; the pages stay as they are.
    pub fn fill(&mut self, alloc: Global) -> Result<(), OutOfMemory>
        ensures kept { (at : ℕ) → get_or self.new at None ≡ get_or self.old at None }
        ensures ok { OnOk result (128 ≤ length self.new) }
        ensures grows { length self.old ≤ length self.new }
    {
        match &self.places {
            Some(places) => has_all_places(&places.all),
            None => *self = Leaf::filled(alloc)?,
        }
        Ok(())
    }

    // Puts something else into a place, and answers what was there.
    fn swap(&mut self, at: usize, place: Place) -> Place
        requires { at < length self.old }
        ensures was { get_or self.old at None ≡ page_seen result }
        ensures left { self.new ≡ slice_set self.old at (page_seen place) }
    {
        let Some(places) = &mut self.places else {
            return place;
        };
        has_all_places(&places.all);
        replace(places.at_mut(at), place)
    }

    /// Puts a page's bytes in their place. It takes no memory.
    pub fn place(&mut self, at: usize, bytes: Box<[u8; 4096]>)
        requires { at < length self.old }
        ensures { self.new ≡ slice_set self.old at (Some bytes.value) }
    {
        has_all(&bytes);
        let _was = self.swap(at, Some(bytes));
    }

    /// Takes a page out of its place.
    pub fn take(&mut self, at: usize) -> Option<Box<[u8; 4096]>>
        requires { at < length self.old }
        ensures got { get_or self.old at None ≡ option_map box_value result }
        ensures left { self.new ≡ slice_set self.old at None }
        ensures length { IfSome result (λ b. length b.value ≡ 4096) }
    {
        match self.swap(at, None) {
            Some(bytes) => {
                has_all(&bytes);
                Some(bytes)
            }
            None => None,
        }
    }

    /// The bytes of a page that is written.
    pub fn page(&self, at: usize) -> Option<&[u8; 4096]>
        ensures got { get_or self.now at None ≡ option_map (λ b. b.now) result }
        ensures length { IfSome result (λ b. length b.now ≡ 4096) }
    {
        let Some(places) = &self.places else {
            return None;
        };
        let all = places.all.as_slice();
        if at >= all.len() {
            return None;
        }
        match &all[at] {
            Some(bytes) => {
                let page: &[u8; 4096] = &**bytes;
                has_all(page);
                Some(page)
            }
            None => None,
        }
    }

    /// The bytes of a page that is written, to be changed.
    pub fn page_mut(&mut self, at: usize) -> Option<&mut [u8; 4096]>
        ensures* writes_back { sem 𝓛 (LendsPlace self.entry at result) }
        ensures got { get_or self.old at None ≡ option_map (λ b. fitted 4096 b.now) result }
    {
        if at >= self.count() {
            return None;
        }
        match &mut self.places {
            Some(places) => match places.at_mut(at) {
                Some(bytes) => Some(&mut **bytes),
                None => None,
            },
            None => None,
        }
    }
}
