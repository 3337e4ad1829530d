//! Keys of 32 bytes, and digests: 64 hexadecimal digits in lower case.
ghost use Rattle.std.specs.Prelude.{◌≡◌, ◌≢◌, ◌++◌, ℕ, List, IfSome, IfNone, OnOk, OnErr};
ghost use Rattle.lr_text.specs.Words.{IsKey, key_word};

use crate::words::is;
use lr_spec::OutOfMemory;

// 32 bytes are a key.
fn kept(key: [u8; 32]) -> [u8; 32]
    ensures same { result ≡ key }
    ensures is { IsKey result }
{
    key
}

// The digits of a key.
fn digits_of(key: &[u8; 32]) -> [u8; 64]
    ensures { result ≡ key_word key.now }
{
    let mut digits = [0; 64];
    // The length is right, so the digits are always written.
    let _ = hex::encode_to_slice(key.as_slice(), &mut digits);
    digits
}

/// The 32 bytes that a word of 64 hexadecimal digits in lower case spells. `None` for every other word.
pub fn key_of(word: &[u8]) -> Option<[u8; 32]>
    ensures found { IfSome result (λ key. IsKey key × (word.now ≡ key_word key)) }
    ensures only { IfNone result ((key : List ℕ) → IsKey key → word.now ≢ key_word key) }
{
    let mut key = [0; 32];
    if hex::decode_to_slice(word, &mut key).is_err() {
        return None;
    }
    // Digits in upper case were decoded too.
    if !is(word, &digits_of(&key)) {
        return None;
    }
    Some(kept(key))
}

/// Adds the 64 hexadecimal digits of a key, in lower case.
///
/// After an error the output is as it was.
pub fn put_key(out: &mut Vec<u8>, key: &[u8; 32]) -> Result<(), OutOfMemory>
    ensures added { OnOk result (out.new.items ≡ out.old.items ++ key_word key.now) }
    ensures kept { OnErr result (out.new.items ≡ out.old.items) }
{
    out.extend_from_slice(&digits_of(key))?;
    Ok(())
}
