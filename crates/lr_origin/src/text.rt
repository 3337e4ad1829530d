//! The texts of keys: printed, and read by printing what they seem to be.
ghost use Rattle.std.specs.Prelude.{◌≡◌, ◌≢◌, ◌+◌, ◌-◌, ◌*◌, ◌≤◌, ◌<◌, ℕ, List, ◌++◌, IfNone, Some, length, drop, slice_index};
ghost use Rattle.lr_text.specs.Name.{padded};
ghost use Rattle.lr_text.specs.Words.{IsKey, key_word};
ghost use Rattle.lr_origin.specs.Text.{root_text, root_value, key_text, IsRoot, HasRoot, IsKind};
ghost use Rattle.lr_origin.specs.declared.key.KeyKind.{KeyKind as Kind};

use crate::{ImageName, KeyKind};
use lr_text::key_of;

/// The most bytes of a key.
pub(crate) const KEY_MAX: usize = 79;

fn digit(n: u32) -> u8
    requires { n < 10 }
    ensures { result ≡ 48 + n }
{
    b'0' + n as u8
}

// `r/`, the root's ten digits, and `/`.
fn root_text(root: u32) -> [u8; 13]
    requires { IsRoot root }
    ensures { result ≡ root_text root }
{
    let mut text = *b"r/0000000000/";
    text[8] = digit(root / 1000);
    text[9] = digit(root / 100 % 10);
    text[10] = digit(root / 10 % 10);
    text[11] = digit(root % 10);
    text
}

// The digits of a chunk's name.
fn digits_of(name: &[u8; 32]) -> [u8; 64]
    ensures { result ≡ key_word name.now }
{
    let mut digits = [0; 64];
    // The length is right, so the digits are always written.
    let _ = hex::encode_to_slice(name.as_slice(), &mut digits);
    digits
}

// 32 bytes are a chunk's name.
fn whole_name(name: [u8; 32]) -> [u8; 32]
    ensures same { result ≡ name }
    ensures is { IsKey result }
{
    name
}

// Puts a part at a place of a text.
fn put_part(text: &mut [u8; KEY_MAX], at: usize, part: &[u8])
    requires { at + length part.now ≤ 79 }
    ensures { (xs : List ℕ) → length xs ≡ at → text.old ≡ padded 79 xs → text.new ≡ padded 79 (xs ++ part.now) }
{
    text[at..at + part.len()].copy_from_slice(part);
}

// Three parts as one text with zeros behind, and its length.
fn joined(head: &[u8], letters: &[u8], tail: &[u8]) -> (u8, [u8; KEY_MAX])
    requires { length head.now + (length letters.now + length tail.now) ≤ 79 }
    ensures len { result.0 ≡ length (head.now ++ (letters.now ++ tail.now)) }
    ensures fits { result.0 ≤ 79 }
    ensures text { result.1 ≡ padded 79 (head.now ++ (letters.now ++ tail.now)) }
{
    let mut text = [0; KEY_MAX];
    let middle = head.len() + letters.len();
    put_part(&mut text, 0, head);
    put_part(&mut text, head.len(), letters);
    put_part(&mut text, middle, tail);
    ((middle + tail.len()) as u8, text)
}

/// The text of a kind with zeros behind, and its length.
#[tactic(auto, unfolding(crate::specs::Text::key_text))]
pub(crate) fn text_of(kind: &KeyKind) -> (u8, [u8; KEY_MAX])
    requires { HasRoot kind.now }
    ensures len { result.0 ≡ length (key_text kind.now) }
    ensures fits { result.0 ≤ 79 }
    ensures text { result.1 ≡ padded 79 (key_text kind.now) }
    ensures kind { IsKind kind.now }
{
    match *kind {
        KeyKind::Root(root) => joined(&root_text(root), b"a", &[]),
        KeyKind::Expired(root) => joined(&root_text(root), b"e", &[]),
        KeyKind::Deleted(root) => joined(&root_text(root), b"d", &[]),
        KeyKind::Chunk(root, name) => joined(
            &root_text(root),
            b"c/",
            &digits_of(&whole_name(name)),
        ),
        KeyKind::Manifest(root, image) => joined(&root_text(root), b"m/", image.as_bytes()),
        KeyKind::Withdrawn(image) => joined(&[], b"w/", image.as_bytes()),
    }
}

fn value_of(digit: u8) -> u32
    ensures { result ≡ digit - 48 }
{
    u32::from(digit.saturating_sub(b'0'))
}

// The root that the text of a key names.
fn root_of(bytes: &[u8]) -> u32
    requires { 14 ≤ length bytes.now }
    ensures { result ≡ root_value bytes.now }
{
    1000 * value_of(bytes[8])
        + 100 * value_of(bytes[9])
        + 10 * value_of(bytes[10])
        + value_of(bytes[11])
}

// The name behind the letter and its slash.
fn name_in(bytes: &[u8]) -> &[u8]
    ensures { result.now ≡ drop 15 bytes.now }
{
    if bytes.len() < 15 {
        return &[];
    }
    &bytes[15..]
}

// What an object of a root is, by the letter behind the root.
fn item_of(bytes: &[u8], root: u32) -> Option<KeyKind>
    requires long { 14 ≤ length bytes.now }
    requires root { root ≡ root_value bytes.now }
    requires other { slice_index bytes.now 0 ≢ 119 }
    ensures { (kind : Kind) → IsKind kind → bytes.now ≡ key_text kind → result ≡ Some kind }
{
    match bytes[13] {
        b'a' => Some(KeyKind::Root(root)),
        b'e' => Some(KeyKind::Expired(root)),
        b'd' => Some(KeyKind::Deleted(root)),
        b'c' => Some(KeyKind::Chunk(root, key_of(name_in(bytes))?)),
        b'm' => Some(KeyKind::Manifest(root, ImageName::parse(name_in(bytes))?)),
        _ => None,
    }
}

/// What the key of this text would be. A text that isn't a key's may give any answer.
pub(crate) fn kind_of(bytes: &[u8]) -> Option<KeyKind>
    ensures { (kind : Kind) → IsKind kind → bytes.now ≡ key_text kind → result ≡ Some kind }
{
    if bytes.len() < 3 {
        return None;
    }
    if bytes[0] == b'w' {
        return Some(KeyKind::Withdrawn(ImageName::parse(&bytes[2..])?));
    }
    if bytes.len() < 14 {
        return None;
    }
    item_of(bytes, root_of(bytes))
}
