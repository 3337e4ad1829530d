//! Making a manifest.
ghost use Rattle.std.specs.Prelude.{◌≡◌, ◌≤◌, ◌^◌, length, IfOk};
ghost use Rattle.lr_aes.specs.Key.{encrypted};
ghost use Rattle.lr_aes.specs.Gcm.{gcm_text, gcm_tag};
ghost use Rattle.lr_manifest.specs.Manifest.{chunk_count};
ghost use Rattle.lr_seal.specs.Table.{key_list, HasTag, made};

use crate::table::KeyTable;
use lr_aes::AesKey;
use lr_manifest::{Manifest, Name, TenantKey, clear_text, cut_rows};
use lr_spec::OutOfMemory;
use std::alloc::Global;

// Seals the text in place, and gives its tag.
fn seal_text(key: &AesKey, nonce: &[u8; 12], clear: &[u8], text: &mut Vec<u8>) -> [u8; 16]
    requires aad { length clear.now ≤ 2 ^ 32 }
    requires text { length text.old.items ≤ 2 ^ 32 }
    ensures text { text.new.items ≡ gcm_text (encrypted key.now) nonce.now text.old.items }
    ensures tag { result ≡ gcm_tag (encrypted key.now) nonce.now clear.now text.new.items }
{
    key.gcm_seal(nonce, clear, text)
}

/// The manifest of an image of so many raw bytes, with the names of its chunks and their keys, which are sealed
/// under the tenant's key.
///
/// There are as many names and keys as the raw length has chunks. The nonce is the number of a root in 4 bytes, then a
/// creation number in 8, both big-endian; it may serve one manifest alone under each tenant's key.
pub fn make_manifest(
    alloc: Global,
    raw_len: u64,
    names: Vec<Name>,
    keys: &KeyTable,
    nonce: [u8; 12],
    tenant: &TenantKey,
) -> Result<Manifest, OutOfMemory>
    requires raw { raw_len ≤ 10737418240 }
    requires names { length names.items ≡ chunk_count raw_len }
    requires keys { length keys.now ≡ chunk_count raw_len }
    ensures made { IfOk result (λ m. m ≡ made raw_len names.items keys.now nonce tenant.now.bytes) }
    // Unsealing gives the table again.
    ensures restores { IfOk result (λ m. HasTag m tenant.now.bytes × (key_list m tenant.now.bytes ≡ keys.now)) }
{
    let count = keys.count();
    let clear = clear_text(alloc, raw_len, &names)?;
    let mut text = keys.joined(alloc)?;
    let key = AesKey::new256(&tenant.bytes);
    let tag = seal_text(&key, &nonce, &clear, &mut text);
    let sealed = cut_rows(alloc, &text, count)?;
    Ok(Manifest::of(raw_len, names, nonce, sealed, tag))
}
