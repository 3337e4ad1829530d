//! The text of a view.
ghost use Rattle.std.specs.Prelude.{◌≡◌, ◌++◌, ◌⊎◌, ◌^◌, OnOk, IfOk};
ghost use Rattle.lr_origin.specs.declared.key.KeyKind.TheVariants as kind;
ghost use Rattle.lr_roots.specs.View.{Has};
ghost use Rattle.lr_roots.specs.Roots.{IsHome, IsHomeless};
ghost use Rattle.lr_roots.specs.Names.{AreFewer, IsNamed};
ghost use Rattle.lr_roots.specs.Sound.{IsSound};
ghost use Rattle.lr_desk.specs.Roots.{image_head, image_tail, IsRootLine, IsRootsPart, IsServedWord, IsImageLine, IsImagesPart, IsViewText, Adds};

use lr_origin::ImageName;
use lr_rootlines::put_root_line;
use lr_roots::Catalog;
use lr_spec::OutOfMemory;
use lr_text::put_number;
use std::alloc::Global;

// Adds the line of a root that is there.
fn put_root(out: &mut Vec<u8>, catalog: &Catalog, root: u32) -> Result<(), OutOfMemory>
    requires { Has catalog.now.view (kind.Root root) }
    ensures { OnOk result (Adds (IsRootLine catalog.now.view root) out.old.items out.new.items) }
{
    let state = catalog.state(root).unwrap();
    let (images, chunks) = catalog.counts(root);
    put_root_line(out, root, state, images, chunks)
}

// Adds the lines of all roots.
fn put_roots(out: &mut Vec<u8>, catalog: &Catalog) -> Result<(), OutOfMemory>
    requires { IsSound catalog.now.view }
    ensures { OnOk result (Adds (IsRootsPart catalog.now.view) out.old.items out.new.items) }
{
    let top = catalog.roots();
    for below in 0..top {
        put_root(out, catalog, below + 1)?;
    }
    Ok(())
}

// Whether an image can still be opened, in a word.
fn served_word(catalog: &Catalog, image: &ImageName) -> &'static [u8]
    ensures { IsServedWord catalog.now.view image.now result.now }
{
    if catalog.withdrawn(image) {
        b"withdrawn"
    } else {
        b"served"
    }
}

// Adds the front of an image's line.
fn put_image_head(out: &mut Vec<u8>, image: &ImageName, home: u32) -> Result<(), OutOfMemory>
    ensures { OnOk result (out.new.items ≡ out.old.items ++ image_head image.now home) }
{
    out.extend_from_slice(b"image ")?;
    out.extend_from_slice(image.as_bytes())?;
    out.extend_from_slice(b" root ")?;
    put_number(out, u64::from(home))?;
    Ok(())
}

// Adds the rest of an image's line.
fn put_image_tail(out: &mut Vec<u8>, raw_len: u64, word: &[u8]) -> Result<(), OutOfMemory>
    ensures { OnOk result (out.new.items ≡ out.old.items ++ image_tail raw_len word.now) }
{
    out.extend_from_slice(b" bytes ")?;
    put_number(out, raw_len)?;
    out.extend_from_slice(b" ")?;
    out.extend_from_slice(word)?;
    out.extend_from_slice(b"\n")?;
    Ok(())
}

// Adds the line of an image that has this home.
fn put_homed(
    out: &mut Vec<u8>,
    catalog: &Catalog,
    image: &ImageName,
    home: u32,
) -> Result<(), OutOfMemory>
    requires sound { IsSound catalog.now.view }
    requires home { IsHome catalog.now.view image.now home }
    ensures { OnOk result (Adds (IsImageLine catalog.now.view image.now) out.old.items out.new.items) }
{
    let manifest = catalog.manifest(home, image).unwrap();
    let raw_len = manifest.raw_len();
    let word = served_word(catalog, image);
    put_image_head(out, image, home)?;
    put_image_tail(out, raw_len, word)?;
    Ok(())
}

// Adds the line of an image, where it has a home.
fn put_image(out: &mut Vec<u8>, catalog: &Catalog, image: &ImageName) -> Result<(), OutOfMemory>
    requires { IsSound catalog.now.view }
    ensures { OnOk result ((IsHomeless catalog.now.view image.now × (out.new.items ≡ out.old.items)) ⊎ Adds (IsImageLine catalog.now.view image.now) out.old.items out.new.items) }
{
    match catalog.home(image) {
        None => Ok(()),
        Some(home) => put_homed(out, catalog, image, home),
    }
}

// Adds the lines of all images that have a home, in byte order.
fn put_images(out: &mut Vec<u8>, catalog: &Catalog) -> Result<(), OutOfMemory>
    requires sound { IsSound catalog.now.view }
    requires few { AreFewer (IsNamed catalog.now.view) (2 ^ 32) }
    ensures { OnOk result (Adds (IsImagesPart catalog.now.view) out.old.items out.new.items) }
{
    let mut after: Option<ImageName> = None;
    // There are fewer names.
    for _turn in 0..4_294_967_296u64 {
        let Some(image) = catalog.next_image(after.as_ref()) else {
            return Ok(());
        };
        put_image(out, catalog, &image)?;
        after = Some(image);
    }
    unreachable!()
}

/// The text of a sound view: its roots in ascending order, then its images in byte order.
pub fn view_text(alloc: Global, catalog: &Catalog) -> Result<Vec<u8>, OutOfMemory>
    requires sound { IsSound catalog.now.view }
    requires few { AreFewer (IsNamed catalog.now.view) (2 ^ 32) }
    ensures { IfOk result (λ text. IsViewText catalog.now.view text.items) }
{
    let mut out = Vec::new(alloc);
    put_roots(&mut out, catalog)?;
    put_images(&mut out, catalog)?;
    Ok(out)
}
