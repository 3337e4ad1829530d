//! Writing a manifest.
ghost use Rattle.std.specs.Prelude.{◌≡◌, ◌≤◌, ◌++◌, length, IfOk, OnOk};
ghost use Rattle.std.specs.List.{flat_map};
ghost use Rattle.std.specs.Int.{w16, w32, w64, to_be_bytes};
ghost use Rattle.lr_manifest.specs.Manifest.{ManifestFields, IsManifest, Spells, clear_text, head_text, spelling, itself, name_bytes};

use crate::manifest::Manifest;
use crate::name::Name;
use crate::row::join_rows;
use lr_spec::OutOfMemory;
use std::alloc::Global;

// The 24 bytes in front.
fn head(raw_len: u64, count: u32) -> [u8; 24]
    ensures { result ≡ head_text raw_len count }
{
    let [a, b, c, d, e, f, g, h] = raw_len.to_be_bytes();
    let [i, j, k, l] = count.to_be_bytes();
    [
        0x4c, 0x52, 0x4d, 0x46, 0, 1, 0, 0, a, b, c, d, e, f, g, h, 0, 8, 0, 0, i, j, k, l,
    ]
}

/// The bytes before the nonce: the additional data under which the keys are sealed.
///
/// The names are at most 20,480, the chunks of the longest image.
pub fn clear_text(alloc: Global, raw_len: u64, names: &[Name]) -> Result<Vec<u8>, OutOfMemory>
    requires { length names.now ≤ 20480 }
    ensures { IfOk result (λ v. v.items ≡ clear_text raw_len names.now) }
{
    let mut out = Vec::new(alloc);
    out.extend_from_slice(head(raw_len, names.len() as u32).as_slice())?;
    out.extend_from_slice(&join_rows(alloc, names)?)?;
    Ok(out)
}

impl Manifest {
    /// The bytes before the nonce: the additional data under which the keys are sealed.
    pub fn clear_text(&self, alloc: Global) -> Result<Vec<u8>, OutOfMemory>
        ensures { IfOk result (λ v. v.items ≡ clear_text self.now.raw_len self.now.names) }
    {
        clear_text(alloc, self.raw_len(), self.names())
    }

    /// The spelling of the manifest.
    pub fn print(&self, alloc: Global) -> Result<Vec<u8>, OutOfMemory>
        ensures { IfOk result (λ v. Spells v.items self.now) }
    {
        let mut out = self.clear_text(alloc)?;
        out.extend_from_slice(self.nonce().as_slice())?;
        out.extend_from_slice(&join_rows(alloc, self.sealed())?)?;
        out.extend_from_slice(self.tag().as_slice())?;
        Ok(out)
    }
}
