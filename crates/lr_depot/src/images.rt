//! The number of image names of a depot.
ghost use Rattle.std.specs.Prelude.{◌≡◌, ◌↔◌, IsTrue, IfOk, OnOk};
ghost use Rattle.lr_roots.specs.Names.{AreMany, IsOneOf};
ghost use Rattle.lr_rules.specs.State.{State};
ghost use Rattle.lr_rules.specs.Names.{IsImage};
ghost use Rattle.lr_depot.specs.Sessions.{IsCreation, HasCreation};
ghost use Rattle.lr_depot.specs.Doubts.{IsManifestOfImage};
ghost use Rattle.lr_depot.specs.Others.{IsDoubted, AddsOthers};

use crate::numbered::{Numbered, Session, created};
use lr_origin::{ImageName, Key, KeyKind};
use lr_roots::{Catalog, Keys};
use lr_spec::OutOfMemory;
use std::alloc::Global;

fn is_among(names: &[ImageName], image: &ImageName) -> bool
    ensures { IsTrue result ↔ IsOneOf names.now image.now }
{
    names.contains(image)
}

// Adds an image that the view doesn't name, where it isn't among the others yet.
fn add_image(
    catalog: &Catalog,
    image: &ImageName,
    others: &mut Vec<ImageName>,
) -> Result<(), OutOfMemory>
    ensures { OnOk result (AddsOthers catalog.now.view (λ i. i ≡ image.now) others.old.items others.new.items) }
{
    if catalog.is_named(image) || is_among(others, image) {
        return Ok(());
    }
    others.push(*image)?;
    Ok(())
}

// Adds the image that a session creates, if it creates one.
fn add_created(
    catalog: &Catalog,
    session: &Session,
    others: &mut Vec<ImageName>,
) -> Result<(), OutOfMemory>
    ensures { OnOk result (AddsOthers catalog.now.view (λ i. IsCreation i session.now) others.old.items others.new.items) }
{
    match created(session) {
        Some(image) => add_image(catalog, image, others),
        None => Ok(()),
    }
}

// Adds the images of create sessions.
fn add_begun(
    catalog: &Catalog,
    sessions: &Numbered<Session>,
    others: &mut Vec<ImageName>,
) -> Result<(), OutOfMemory>
    ensures { OnOk result (AddsOthers catalog.now.view (HasCreation sessions.now) others.old.items others.new.items) }
{
    for (_, session) in sessions.iter() {
        add_created(catalog, session, others)?;
    }
    Ok(())
}

// Adds the image of a manifest.
fn add_key(catalog: &Catalog, key: &Key, others: &mut Vec<ImageName>) -> Result<(), OutOfMemory>
    ensures { OnOk result (AddsOthers catalog.now.view (λ i. IsManifestOfImage i key.now) others.old.items others.new.items) }
{
    match key.kind() {
        KeyKind::Manifest(_, image) => add_image(catalog, &image, others),
        _ => Ok(()),
    }
}

// Adds the images of manifests in doubt.
fn add_doubted(
    catalog: &Catalog,
    doubts: &Keys,
    others: &mut Vec<ImageName>,
) -> Result<(), OutOfMemory>
    ensures { OnOk result (AddsOthers catalog.now.view (IsDoubted doubts.now) others.old.items others.new.items) }
{
    for key in doubts.iter() {
        add_key(catalog, key, others)?;
    }
    Ok(())
}

/// How many image names there are: those that the view names, those of manifests in doubt, those of create sessions.
pub(crate) fn images(
    alloc: Global,
    catalog: &Catalog,
    doubts: &Keys,
    sessions: &Numbered<Session>,
) -> Result<u64, OutOfMemory>
    ensures { IfOk result (λ count. (s : State) → s.known.view ≡ catalog.now.view → s.known.doubts ≡ doubts.now → s.desk.sessions ≡ sessions.now → AreMany (IsImage s) count) }
{
    let mut others = Vec::new(alloc);
    add_begun(catalog, sessions, &mut others)?;
    add_doubted(catalog, doubts, &mut others)?;
    Ok(catalog.names() as u64 + others.len() as u64)
}
