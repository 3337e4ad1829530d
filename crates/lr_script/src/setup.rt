//! The first line and the setup lines: the words behind the first. Each function is false where they don't fit.
ghost use Rattle.std.specs.Prelude.{◌≡◌, map, false, IfOk, IsTrue};
ghost use Rattle.lr_script.specs.State.{State};
ghost use Rattle.lr_script.specs.Lines.{ScriptLine, NodesLine, HostLine, RootLine, ImageLine, DeviceLine};

use crate::kind::Part;
use crate::limits::{
    ALL_NODES_MOST, CACHE_MOST, CACHES_MOST, IMAGES_MOST, NODE_MOST, NODES_LEAST, NODES_MOST,
};
use crate::reading::Reading;
use crate::script::Setup;
use crate::words::{ImageWords, image_of};
use lr_spec::OutOfMemory;
use lr_text::{ImageName, four, is, key_of, number_between, one, two};
use std::alloc::Global;

/// `script 1`
pub fn script_line(reading: &mut Reading, words: &[&[u8]]) -> bool
    ensures read { IsTrue result → ScriptLine reading.old (map (λ w. w.now) words.now) reading.new }
    ensures only { result ≡ false → (after : State) → ScriptLine reading.old (map (λ w. w.now) words.now) after → ⊥ }
{
    let Some(word) = one(words) else {
        return false;
    };
    if !is(word, b"1") {
        return false;
    }
    reading.enter(Part::Setup);
    true
}

/// `nodes M CAP`
pub fn nodes_line(reading: &mut Reading, words: &[&[u8]]) -> bool
    ensures read { IsTrue result → NodesLine reading.old (map (λ w. w.now) words.now) reading.new }
    ensures only { result ≡ false → (after : State) → NodesLine reading.old (map (λ w. w.now) words.now) after → ⊥ }
{
    let Some((nodes, cap)) = two(words) else {
        return false;
    };
    let Some(nodes) = number_between(nodes, NODES_LEAST, NODES_MOST) else {
        return false;
    };
    let Some(cap) = number_between(cap, 1, NODE_MOST) else {
        return false;
    };
    if nodes * cap > ALL_NODES_MOST {
        return false;
    }
    if reading.is_sized() {
        return false;
    }
    if !reading.has_no_device() {
        return false;
    }
    reading.set_nodes(nodes as u32, cap as u32);
    true
}

/// `host NAME CAP`
pub fn host_line(reading: &mut Reading, words: &[&[u8]]) -> Result<bool, OutOfMemory>
    ensures read { IfOk result (λ b. IsTrue b → HostLine reading.old (map (λ w. w.now) words.now) reading.new) }
    ensures only { IfOk result (λ b. b ≡ false → (after : State) → HostLine reading.old (map (λ w. w.now) words.now) after → ⊥) }
{
    let Some((name, cap)) = two(words) else {
        return Ok(false);
    };
    let Some(name) = ImageName::parse(name) else {
        return Ok(false);
    };
    let Some(cap) = number_between(cap, 1, CACHE_MOST) else {
        return Ok(false);
    };
    if reading.host(name.as_bytes()).is_some() {
        return Ok(false);
    }
    if !reading.has_host_room() {
        return Ok(false);
    }
    let cap = cap as u32;
    if reading.chunks() + cap > CACHES_MOST {
        return Ok(false);
    }
    reading.add_host(name, cap)?;
    reading.add_setup(Setup::Host(name, cap))?;
    Ok(true)
}

/// `root SALT`
pub fn root_line(reading: &mut Reading, words: &[&[u8]]) -> Result<bool, OutOfMemory>
    ensures read { IfOk result (λ b. IsTrue b → RootLine reading.old (map (λ w. w.now) words.now) reading.new) }
    ensures only { IfOk result (λ b. b ≡ false → (after : State) → RootLine reading.old (map (λ w. w.now) words.now) after → ⊥) }
{
    let Some(salt) = one(words) else {
        return Ok(false);
    };
    let Some(salt) = key_of(salt) else {
        return Ok(false);
    };
    reading.add_setup(Setup::Root(salt))?;
    Ok(true)
}

/// `image NAME TENANT LENGTH BODY`
pub fn image_line(
    alloc: Global,
    reading: &mut Reading,
    words: &[&[u8]],
) -> Result<bool, OutOfMemory>
    ensures read { IfOk result (λ b. IsTrue b → ImageLine reading.old (map (λ w. w.now) words.now) reading.new) }
    ensures only { IfOk result (λ b. b ≡ false → (after : State) → ImageLine reading.old (map (λ w. w.now) words.now) after → ⊥) }
{
    let Some(image) = image_of(alloc, words)? else {
        return Ok(false);
    };
    let ImageWords {
        name,
        tenant,
        len,
        body,
    } = image;
    if reading.raw() + len > IMAGES_MOST {
        return Ok(false);
    }
    reading.add_raw(len);
    reading.add_setup(Setup::Image(name, tenant, len, body))?;
    Ok(true)
}

/// `device NAME HOST IMAGE TENANT`
pub fn device_line(reading: &mut Reading, words: &[&[u8]]) -> Result<bool, OutOfMemory>
    ensures read { IfOk result (λ b. IsTrue b → DeviceLine reading.old (map (λ w. w.now) words.now) reading.new) }
    ensures only { IfOk result (λ b. b ≡ false → (after : State) → DeviceLine reading.old (map (λ w. w.now) words.now) after → ⊥) }
{
    let Some((name, host, image, tenant)) = four(words) else {
        return Ok(false);
    };
    let Some(name) = ImageName::parse(name) else {
        return Ok(false);
    };
    let Some(host) = reading.host(host) else {
        return Ok(false);
    };
    let Some(image) = ImageName::parse(image) else {
        return Ok(false);
    };
    let Some(tenant) = key_of(tenant) else {
        return Ok(false);
    };
    if reading.device(name.as_bytes()).is_some() {
        return Ok(false);
    }
    if !reading.has_device_room() {
        return Ok(false);
    }
    reading.add_device(name)?;
    reading.add_setup(Setup::Device(name, host, image, tenant))?;
    Ok(true)
}
