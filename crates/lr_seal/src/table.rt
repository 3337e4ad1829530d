//! The table, and opening it.
ghost use Rattle.std.specs.Prelude.{◌≡◌, ◌≢◌, ◌≤◌, ◌<◌, ◌++◌, ◌∷◌, ◌^◌, [], length, IfOk, OnOk, OnErr, MatchResult, MatchOption, slice_get, Some};
ghost use Rattle.lr_aes.specs.Key.{encrypted};
ghost use Rattle.lr_aes.specs.Gcm.{gcm_text, gcm_tag};
ghost use Rattle.lr_manifest.specs.Manifest.{AreKeys};
ghost use Rattle.lr_seal.specs.Table.{joined_keys, key_list, HasTag};
ghost use Rattle.lr_seal.specs.Fault.{Fails};

use crate::error::UnsealError;
use lr_aes::{AesKey, BadTag};
use lr_manifest::{ChunkKey, Manifest, TenantKey, cut_rows, join_rows};
use lr_spec::OutOfMemory;
use std::alloc::Global;
use std::marker::Model;

/// The keys of an image's chunks, in the order of the chunks.
///
/// A contract sees the list of the keys' bytes.
#[derive(Drop)]
pub struct KeyTable {
    keys: Vec<ChunkKey>,
}

impl Model for KeyTable {
    ghost use Rattle.std.specs.Prelude.{ℕ, List, map};
    ghost use Rattle.lr_manifest.specs.Manifest.{AreKeys};
    ghost use Rattle.lr_seal.specs.Table.{key_bytes};

    ghost Value = { List (List ℕ) };

    ghost view = { λ t. map key_bytes t.keys.items };

    ghost invariant = { λ t. AreKeys (map key_bytes t.keys.items) };
}

// Opens the text in place.
fn open_text(
    key: &AesKey,
    nonce: &[u8; 12],
    clear: &[u8],
    text: &mut Vec<u8>,
    tag: &[u8; 16],
) -> Result<(), BadTag>
    requires aad { length clear.now ≤ 2 ^ 32 }
    requires text { length text.old.items ≤ 2 ^ 32 }
    ensures { MatchResult result
        (λ _. (tag.now ≡ gcm_tag (encrypted key.now) nonce.now clear.now text.old.items) × (text.new.items ≡ gcm_text (encrypted key.now) nonce.now text.old.items))
        (λ _. tag.now ≢ gcm_tag (encrypted key.now) nonce.now clear.now text.old.items) }
{
    key.gcm_open(nonce, clear, text, tag)
}

impl KeyTable {
    /// The table without keys.
    pub fn new(alloc: Global) -> KeyTable
        ensures { result ≡ [] }
    {
        KeyTable {
            keys: Vec::new(alloc),
        }
    }

    /// Appends a key.
    ///
    /// After an error the table is as it was.
    pub fn push(&mut self, key: ChunkKey) -> Result<(), OutOfMemory>
        ensures done { OnOk result (self.new ≡ self.old ++ key.bytes ∷ []) }
        ensures kept { OnErr result (self.new ≡ self.old) }
    {
        self.keys.push(key)?;
        Ok(())
    }

    /// The key of a chunk by its index in the image. `None` exactly past the end.
    pub fn get(&self, index: u32) -> Option<&ChunkKey>
        ensures { MatchOption result (length self.now ≤ index) (λ k. (index < length self.now) × (slice_get self.now index ≡ Some k.now.bytes)) }
    {
        self.keys.get(index as usize)
    }

    /// How many keys there are, each of 32 bytes.
    pub fn count(&self) -> usize
        ensures count { result ≡ length self.now }
        ensures rows { AreKeys self.now }
    {
        self.keys.len()
    }

    /// The bytes of the keys, joined.
    pub fn joined(&self, alloc: Global) -> Result<Vec<u8>, OutOfMemory>
        ensures { IfOk result (λ v. v.items ≡ joined_keys self.now) }
    {
        let text = join_rows(alloc, &self.keys)?;
        Ok(text)
    }

    /// The keys of a manifest, opened under a tenant's key. `Sealed` comes exactly at a wrong tag.
    pub fn unseal(
        alloc: Global,
        manifest: &Manifest,
        tenant: &TenantKey,
    ) -> Result<KeyTable, UnsealError>
        ensures { MatchResult result
            (λ t. HasTag manifest.now tenant.now.bytes × (t ≡ key_list manifest.now tenant.now.bytes))
            (λ e. Fails e manifest.now tenant.now.bytes) }
    {
        let clear = manifest.clear_text(alloc)?;
        let mut keys = join_rows(alloc, manifest.sealed())?;
        let key = AesKey::new256(&tenant.bytes);
        match open_text(&key, manifest.nonce(), &clear, &mut keys, manifest.tag()) {
            Err(_) => Err(UnsealError::Sealed),
            Ok(()) => Ok(KeyTable {
                keys: cut_rows(alloc, &keys, manifest.sealed().len())?,
            }),
        }
    }
}
