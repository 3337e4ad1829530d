//! Tasks for the memory of an overlay: of 10 GiB, with pages written in it.
use crate::error::BenchError;
use crate::task::{Work, Worked, zeros};
use lr_layout::RAW_LIMIT;
use lr_overlay::Overlay;
use std::alloc::Global;

// Writes a page of an overlay, where it has that page.
fn write_page(alloc: Global, overlay: &mut Overlay, page: u32) -> Result<(), BenchError> {
    if page >= overlay.count() {
        return Err(BenchError::Refused);
    }
    overlay.reserve(page, 1)?;
    overlay.place(page, Box::new(alloc, [b'a'; 4096])?);
    Ok(())
}

// What each of these tasks holds besides, so that the start of the program isn't when it holds most.
const BESIDE: usize = 1_048_576;

/// No overlay at all: what the program itself takes.
#[derive(Drop)]
pub struct Nothing {
    beside: Vec<u8>,
}

impl Work for Nothing {
    fn prepare(alloc: Global, _size: usize) -> Result<Self, BenchError> {
        Ok(Nothing {
            beside: zeros(alloc, BESIDE)?,
        })
    }

    fn work(&mut self, _alloc: Global) -> Result<Worked, BenchError> {
        Ok(Worked {
            bytes: 0,
            made: self.beside.len() as u64,
        })
    }
}

/// An overlay of 10 GiB in which so many pages are written, one in each `APART` pages.
#[derive(Drop)]
pub struct Filled<const APART: u32> {
    beside: Vec<u8>,
    overlay: Overlay,
    pages: u32,
}

impl<const APART: u32> Work for Filled<APART> {
    fn prepare(alloc: Global, size: usize) -> Result<Self, BenchError> {
        let Ok(pages) = u32::try_from(size) else {
            return Err(BenchError::Refused);
        };
        Ok(Filled {
            beside: zeros(alloc, BESIDE)?,
            overlay: Overlay::new(alloc, RAW_LIMIT)?,
            pages,
        })
    }

    fn work(&mut self, alloc: Global) -> Result<Worked, BenchError> {
        for page in 0..self.pages {
            write_page(alloc, &mut self.overlay, page.saturating_mul(APART))?;
        }
        Ok(Worked {
            bytes: (self.pages as usize).saturating_mul(4096),
            made: u64::from(self.overlay.count()).saturating_add(self.beside.len() as u64),
        })
    }
}
