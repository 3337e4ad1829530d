//! The lines of all roots of a catalog.
ghost use Rattle.std.specs.Prelude.{◌≡◌, ◌++◌, OnOk};
ghost use Rattle.lr_rootlines.specs.RootLines.{root_text, roots_part};

use crate::line::put_root_line;
use lr_origin::ROOTS_MAX;
use lr_roots::Catalog;
use lr_spec::OutOfMemory;

// Adds the line of a root, where it is in the view.
fn put_root(out: &mut Vec<u8>, catalog: &Catalog, root: u32) -> Result<(), OutOfMemory>
    ensures { OnOk result (out.new.items ≡ out.old.items ++ root_text catalog.now.view root) }
{
    let Some(state) = catalog.state(root) else {
        return Ok(());
    };
    let (images, chunks) = catalog.counts(root);
    put_root_line(out, root, state, images, chunks)
}

/// Adds the lines of the roots of a catalog's view, in ascending order.
pub fn put_roots(out: &mut Vec<u8>, catalog: &Catalog) -> Result<(), OutOfMemory>
    ensures { OnOk result (out.new.items ≡ out.old.items ++ roots_part catalog.now.view) }
{
    for below in 0..ROOTS_MAX {
        put_root(out, catalog, below + 1)?;
    }
    Ok(())
}
