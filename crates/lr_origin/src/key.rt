//! Keys of objects, checked and kept in place.
ghost use Rattle.std.specs.Prelude.{◌≡◌, ◌≢◌, ◌↔◌, IsTrue, IfSome, IfNone};
ghost use Rattle.std.specs.Cmp.Lexicographic.{slice_cmp};
ghost use Rattle.std.specs.Ordering.{nat_cmp};
ghost use Rattle.lr_origin.specs.Text.{key_text, HasRoot, IsKind};
ghost use Rattle.lr_origin.specs.Kind.{kind_cmp};
ghost use Rattle.lr_origin.specs.declared.key.KeyKind.{KeyKind as Kind};

use crate::ImageName;
use crate::text::{KEY_MAX, kind_of, text_of};
use std::alloc::AllocError;
use std::cmp::Ordering;
use std::fmt;
use std::marker::Model;

/// What an object is, by its key.
#[derive(Clone, Copy, Debug, PartialEq, Eq)]
pub enum KeyKind {
    /// `r/<root>/a`: the root is there.
    Root(u32),
    /// `r/<root>/e`: the root is expired.
    Expired(u32),
    /// `r/<root>/d`: the root is deleted.
    Deleted(u32),
    /// `r/<root>/c/<hex>`: a chunk of the root, by its digest.
    Chunk(u32, [u8; 32]),
    /// `r/<root>/m/<image>`: the manifest of an image in the root.
    Manifest(u32, ImageName),
    /// `w/<image>`: the image is withdrawn.
    Withdrawn(ImageName),
}

/// The most roots of a store.
pub const ROOTS_MAX: u32 = 1000;

impl KeyKind {
    /// Whether the root, if it has one, is from 1 to 1,000.
    pub fn is_within(&self) -> bool
        ensures { IsTrue result ↔ HasRoot self.now }
    {
        match *self {
            KeyKind::Root(root)
            | KeyKind::Expired(root)
            | KeyKind::Deleted(root)
            | KeyKind::Chunk(root, _)
            | KeyKind::Manifest(root, _) => 1 <= root && root <= ROOTS_MAX,
            KeyKind::Withdrawn(_) => true,
        }
    }
}

/// A key of the grammar. A root has ten decimal digits with leading zeros and is from 1 to 1,000, a chunk's digest
/// has 64 hexadecimal digits in lower case.
///
/// A contract sees a key as its kind. Keys are in the byte order of their texts.
pub struct Key {
    kind: KeyKind,
    len: u8,
    text: [u8; KEY_MAX],
}

impl Model for Key {
    ghost use Rattle.std.specs.Prelude.{◌≡◌, ◌≤◌, length};
    ghost use Rattle.lr_origin.specs.declared.key.KeyKind.{KeyKind as Kind};
    ghost use Rattle.lr_origin.specs.contracts.key.KeyKind as key_kind;

    ghost Value = { Kind };

    ghost coded = { key_kind.the_row.coded };

    ghost use Rattle.lr_text.specs.Name.{padded};
    ghost use Rattle.lr_origin.specs.Text.{key_text, IsKind};

    ghost view = { λ k. k.kind };

    ghost invariant = { λ k. (k.len ≡ length (key_text k.kind)) × (k.text ≡ padded 79 (key_text k.kind)) × IsKind k.kind × (k.len ≤ 79) };

    ghost inverse = { λ k. record { kind = k; len = length (key_text k); text = padded 79 (key_text k) } };

    ghost use Rattle.std.proofs.Common.{sym};

    ghost inverse_ok = { λ k h. λ i. record { kind = k.kind; len = sym h.0 i; text = sym h.1 i } };
}

impl Key {
    /// The key that these bytes are, or `None` exactly where the grammar refuses them.
    pub fn parse(bytes: &[u8]) -> Option<Key>
        ensures found { IfSome result (λ key. (bytes.now ≡ key_text key) × IsKind key) }
        ensures only { IfNone result ((key : Kind) → IsKind key → bytes.now ≢ key_text key) }
    {
        let kind = kind_of(bytes)?;
        if !kind.is_within() {
            return None;
        }
        let key = Key::of(&kind);
        if key.as_bytes() == bytes {
            Some(key)
        } else {
            None
        }
    }

    /// The key of a kind, whose root is from 1 to 1,000.
    pub fn of(kind: &KeyKind) -> Key
        requires root { HasRoot kind.now }
        ensures { result ≡ kind.now }
    {
        let (len, text) = text_of(kind);
        Key {
            kind: *kind,
            len,
            text,
        }
    }

    /// The text.
    pub fn as_bytes(&self) -> &[u8]
        ensures text { result.now ≡ key_text self.now }
        ensures kind { IsKind self.now }
    {
        &self.text[..self.len as usize]
    }

    pub fn kind(&self) -> KeyKind
        ensures same { result ≡ self.now }
        ensures kind { IsKind result }
    {
        self.kind
    }
}

impl Clone for Key {
    ghost is_clone = { λ a b. b ≡ a };

    fn clone(&self) -> Result<Self, AllocError> {
        Ok(*self)
    }
}

impl Copy for Key {}

impl PartialEq for Key {
    ghost use Rattle.std.specs.Ordering.{eq_by_cmp};
    ghost use Rattle.std.specs.Cmp.{partial_equiv_from_equiv, eq_by_cmp_equiv};
    ghost use Rattle.lr_origin.specs.Kind.{kind_cmp, kind_total};

    ghost eq = { eq_by_cmp kind_cmp };

    ghost laws = { partial_equiv_from_equiv (eq_by_cmp_equiv kind_total) };

    fn eq(&self, other: &Self) -> bool {
        self.cmp(other).is_eq()
    }
}

impl Eq for Key {
    ghost use Rattle.std.specs.Cmp.{eq_by_cmp_equiv};
    ghost use Rattle.lr_origin.specs.Kind.{kind_total};

    ghost laws = { eq_by_cmp_equiv kind_total };
}

impl PartialOrd for Key {
    ghost use Rattle.std.specs.Prelude.{Some};
    ghost use Rattle.std.specs.Cmp.{partial_order_from_total};
    ghost use Rattle.lr_origin.specs.Kind.{kind_cmp, kind_total};

    ghost partial_cmp = { λ a b. Some (kind_cmp a b) };

    ghost laws = { partial_order_from_total kind_total };

    fn partial_cmp(&self, other: &Self) -> Option<Ordering> {
        Some(self.cmp(other))
    }
}

impl Ord for Key {
    ghost use Rattle.std.specs.Prelude.{refl};
    ghost use Rattle.lr_origin.specs.Kind.{kind_cmp, kind_total};

    ghost cmp = { kind_cmp };

    ghost total = { kind_total };

    ghost matches_partial_cmp = { λ _ _. refl };

    ghost matches_eq = { λ _ _. refl };

    fn cmp(&self, other: &Self) -> Ordering
        ensures kinds { result ≡ kind_cmp self.now other.now }
        ensures texts { result ≡ slice_cmp nat_cmp (key_text self.now) (key_text other.now) }
    {
        self.as_bytes().cmp(&other.as_bytes())
    }
}

impl fmt::Debug for Key {
    fn fmt<W: fmt::Write>(&self, f: &mut fmt::Formatter<W>) -> fmt::Result {
        for b in self.as_bytes() {
            f.write_char(char::from(*b))?;
        }
        Ok(())
    }
}
