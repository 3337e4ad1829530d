//! The roots of a view, and the keys that name images, each in an order of its own.
ghost use Rattle.std.specs.Prelude.{IsTrue, OnOk, OnErr, Some, ℕ};
ghost use Rattle.std.specs.BTreeSet.{contains};
ghost use Rattle.std.specs.FinMap as map;
ghost use Rattle.std.specs.Ordering.{nat_cmp};
ghost use Rattle.lr_origin.specs.declared.key.KeyKind.TheVariants as kind;
ghost use Rattle.lr_roots.specs.View.{View, Held};
ghost use Rattle.lr_roots.specs.Index.{naming_key, IsIndex, IsLastBelow, IsFirstFrom, IsNamedIn};

use lr_origin::{ImageName, KeyKind};
use std::alloc::{AllocError, Global};
use std::collections::BTreeSet;

/// A key that names an image: its manifest in a root, or without a root the key that withdraws it.
///
/// Namings are in the byte order of the images, those of an image in the order of the roots.
#[derive(Clone, Copy, PartialEq, Eq, PartialOrd, Ord)]
pub(crate) struct Naming {
    pub(crate) image: ImageName,
    pub(crate) root: Option<u32>,
}

/// The roots of a view in ascending order, and the keys that name images.
#[derive(Drop)]
pub(crate) struct Index {
    roots: BTreeSet<u32>,
    namings: BTreeSet<Naming>,
}

impl Index {
    pub(crate) fn new(alloc: Global) -> Index
        ensures { IsIndex map.empty result }
    {
        Index {
            roots: BTreeSet::new(alloc),
            namings: BTreeSet::new(alloc),
        }
    }

    fn enter_root(&mut self, root: u32) -> Result<(), AllocError>
        ensures ok { OnOk result ((v : View) (held : Held) → IsIndex v self.old → IsIndex (map.insert v (kind.Root root) held) self.new) }
        ensures err { OnErr result ((v : View) → IsIndex v self.old → IsIndex v self.new) }
    {
        self.roots.insert(root)?;
        Ok(())
    }

    fn enter_naming(&mut self, naming: Naming) -> Result<(), AllocError>
        ensures ok { OnOk result ((v : View) (held : Held) → IsIndex v self.old → IsIndex (map.insert v (naming_key naming) held) self.new) }
        ensures err { OnErr result ((v : View) → IsIndex v self.old → IsIndex v self.new) }
    {
        self.namings.insert(naming)?;
        Ok(())
    }

    /// Enters a key. After an error the index is that of the view before.
    pub(crate) fn enter(&mut self, kind: &KeyKind) -> Result<(), AllocError>
        ensures ok { OnOk result ((v : View) (held : Held) → IsIndex v self.old → IsIndex (map.insert v kind.now held) self.new) }
        ensures err { OnErr result ((v : View) → IsIndex v self.old → IsIndex v self.new) }
    {
        match *kind {
            KeyKind::Root(root) => self.enter_root(root),
            KeyKind::Manifest(root, image) => self.enter_naming(Naming {
                image,
                root: Some(root),
            }),
            KeyKind::Withdrawn(image) => self.enter_naming(Naming { image, root: None }),
            KeyKind::Expired(_) => Ok(()),
            KeyKind::Deleted(_) => Ok(()),
            KeyKind::Chunk(_, _) => Ok(()),
        }
    }

    fn leave_root(&mut self, root: u32)
        ensures { (v : View) → IsIndex v self.old → IsIndex (map.remove v (kind.Root root)) self.new }
    {
        self.roots.remove(&root);
    }

    fn leave_naming(&mut self, naming: Naming)
        ensures { (v : View) → IsIndex v self.old → IsIndex (map.remove v (naming_key naming)) self.new }
    {
        self.namings.remove(&naming);
    }

    /// Takes a key out.
    pub(crate) fn leave(&mut self, kind: &KeyKind)
        ensures { (v : View) → IsIndex v self.old → IsIndex (map.remove v kind.now) self.new }
    {
        match *kind {
            KeyKind::Root(root) => self.leave_root(root),
            KeyKind::Manifest(root, image) => self.leave_naming(Naming {
                image,
                root: Some(root),
            }),
            KeyKind::Withdrawn(image) => self.leave_naming(Naming { image, root: None }),
            KeyKind::Expired(_) => {}
            KeyKind::Deleted(_) => {}
            KeyKind::Chunk(_, _) => {}
        }
    }

    /// The greatest root below a bound.
    pub(crate) fn root_below(&self, bound: u32) -> Option<u32>
        ensures { IsLastBelow (λ q. IsTrue (contains nat_cmp self.now.roots q)) bound result }
    {
        match self.roots.range(..bound).next_back() {
            Some(root) => Some(*root),
            None => None,
        }
    }

    /// The greatest root below a bound that has a manifest of the image.
    pub(crate) fn manifest_below(&self, image: &ImageName, bound: u32) -> Option<u32>
        ensures { IsLastBelow (IsNamedIn self.now.namings image.now) bound result }
    {
        let end = Naming {
            image: *image,
            root: Some(bound),
        };
        match self.namings.range(..end).next_back() {
            Some(last) => {
                if last.image == *image {
                    last.root
                } else {
                    None
                }
            }
            None => None,
        }
    }

    /// The least root from a bound on that has a manifest of the image.
    pub(crate) fn manifest_from(&self, image: &ImageName, bound: u32) -> Option<u32>
        ensures { IsFirstFrom (IsNamedIn self.now.namings image.now) bound result }
    {
        let start = Naming {
            image: *image,
            root: Some(bound),
        };
        match self.namings.range(start..).next() {
            Some(first) => {
                if first.image == *image {
                    first.root
                } else {
                    None
                }
            }
            None => None,
        }
    }
}
