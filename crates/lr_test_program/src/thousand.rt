//! A thousand made scripts, in ten parts.
use crate::made_jobs::made;
use crate::plain::Tally;
use crate::right::is_right;
use lr_spec::OutOfMemory;
use std::alloc::Global;
use std::test::Fail;

// Scripts of a part.
const PART: u32 = 100;

// The first script of a part that isn't played right, and whether much was compared.
fn play_part(alloc: Global, part: u32) -> Result<(Option<u32>, bool), OutOfMemory> {
    let mut tally = Tally::new();
    let from = part.saturating_mul(PART);
    for number in from..from.saturating_add(PART) {
        let made = made(alloc, number)?;
        if !is_right(alloc, &made, &mut tally)? {
            return Ok((Some(number), tally.is_rich()));
        }
    }
    Ok((None, tally.is_rich()))
}

#[test]
fn first_hundred(rt: HostRuntime) -> Result<(), Fail> {
    assert_eq!(rt; play_part(rt.alloc(), 0)?, (None, true));
    Ok(())
}

#[test]
fn second_hundred(rt: HostRuntime) -> Result<(), Fail> {
    assert_eq!(rt; play_part(rt.alloc(), 1)?, (None, true));
    Ok(())
}

#[test]
fn third_hundred(rt: HostRuntime) -> Result<(), Fail> {
    assert_eq!(rt; play_part(rt.alloc(), 2)?, (None, true));
    Ok(())
}

#[test]
fn fourth_hundred(rt: HostRuntime) -> Result<(), Fail> {
    assert_eq!(rt; play_part(rt.alloc(), 3)?, (None, true));
    Ok(())
}

#[test]
fn fifth_hundred(rt: HostRuntime) -> Result<(), Fail> {
    assert_eq!(rt; play_part(rt.alloc(), 4)?, (None, true));
    Ok(())
}

#[test]
fn sixth_hundred(rt: HostRuntime) -> Result<(), Fail> {
    assert_eq!(rt; play_part(rt.alloc(), 5)?, (None, true));
    Ok(())
}

#[test]
fn seventh_hundred(rt: HostRuntime) -> Result<(), Fail> {
    assert_eq!(rt; play_part(rt.alloc(), 6)?, (None, true));
    Ok(())
}

#[test]
fn eighth_hundred(rt: HostRuntime) -> Result<(), Fail> {
    assert_eq!(rt; play_part(rt.alloc(), 7)?, (None, true));
    Ok(())
}

#[test]
fn ninth_hundred(rt: HostRuntime) -> Result<(), Fail> {
    assert_eq!(rt; play_part(rt.alloc(), 8)?, (None, true));
    Ok(())
}

#[test]
fn tenth_hundred(rt: HostRuntime) -> Result<(), Fail> {
    assert_eq!(rt; play_part(rt.alloc(), 9)?, (None, true));
    Ok(())
}
