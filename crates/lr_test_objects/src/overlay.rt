//! Pages over a base.
ghost use Rattle.std.specs.Prelude.{◌≡◌, ◌<◌, length};

use lr_overlay::Overlay;
use std::test::Fail;

// Changes a byte of a page, where the page is written.
fn set_byte(overlay: &mut Overlay, page: u32, at: usize, byte: u8) -> bool
    requires page { page < length overlay.old.pages }
    requires at { at < 4096 }
    ensures length { length overlay.new.pages ≡ length overlay.old.pages }
    ensures leaves { overlay.new.leaves ≡ overlay.old.leaves }
{
    let Some(bytes) = overlay.page_mut(page) else {
        return false;
    };
    bytes[at] = byte;
    true
}

#[test]
fn pages_are_placed_and_changed(rt: HostRuntime) -> Result<(), Fail> {
    let alloc = rt.alloc();
    let mut overlay = Overlay::new(alloc, 8192)?;
    assert_eq!(rt; overlay.count(), 2);
    overlay.reserve(0, 2)?;
    overlay.place(1, Box::new(alloc, [7u8; 4096])?);
    assert_eq!(rt; overlay.count(), 2);
    assert!(rt; !overlay.is_written(0) && overlay.is_written(1));
    assert!(rt; !set_byte(&mut overlay, 0, 3, 9));
    assert!(rt; set_byte(&mut overlay, 1, 3, 9));
    assert_eq!(rt; overlay.count(), 2);
    if let Some(bytes) = overlay.page(1) {
        assert!(rt; bytes.as_slice().starts_with(&[7, 7, 7, 9, 7]));
    }
    assert!(rt; overlay.take_page(1).is_some());
    assert_eq!(rt; overlay.count(), 2);
    assert!(rt; overlay.page(1).is_none());
    Ok(())
}
