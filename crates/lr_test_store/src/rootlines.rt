//! The line of a root, and a view without roots.
use lr_rootlines::{put_root_line, put_roots};
use lr_roots::{Catalog, RootState};
use std::test::Fail;

#[test]
fn a_line_tells_number_state_and_counts(rt: HostRuntime) -> Result<(), Fail> {
    let mut out = Vec::new(rt.alloc());
    put_root_line(&mut out, 7, RootState::Retired, 2, 30)?;
    assert_eq!(rt;
        out.as_slice(),
        b"root 7 retired images 2 chunks 30\n".as_slice()
    );
    Ok(())
}

#[test]
fn a_view_without_roots_has_no_line(rt: HostRuntime) -> Result<(), Fail> {
    let mut out = Vec::new(rt.alloc());
    let catalog = Catalog::new(rt.alloc());
    put_roots(&mut out, &catalog)?;
    assert!(rt; out.is_empty());
    Ok(())
}
