//! How many keys and names there are, and which comes next.
ghost use Rattle.std.specs.Prelude.{◌≡◌, ◌<◌, ◌^◌, ◌⊎◌, ◌↔◌, ℕ, List, IsTrue, MatchOption};
ghost use Rattle.lr_manifest.specs.Manifest.{ManifestFields};
ghost use Rattle.lr_origin.specs.Objects.{IsAfter, pointed};
ghost use Rattle.lr_roots.specs.View.{Has};
ghost use Rattle.lr_roots.specs.Keys.{key_of};
ghost use Rattle.lr_roots.specs.Names.{AreMany, Names, IsNamed, IsManifestOf, IsChunkOf, IsNextImage, IsListed, IsFirst, IsManifestAt, number_of, HasNumber, IsGreatestNumber};
ghost use Rattle.lr_roots.specs.Walks.{IsBelow, IsNearer, IsNearest};

use crate::catalog::Catalog;
use crate::walks::Wanted;
use lr_origin::{ImageName, Key, KeyKind};

// Whether the name is above the bound and below the best so far.
fn is_nearer(name: &ImageName, after: Option<&ImageName>, best: &Option<ImageName>) -> bool
    ensures { IsTrue result ↔ IsNearer (pointed after.entry) best.now name.now }
{
    is_above(name, after) && is_below(name, best)
}

fn is_above(name: &ImageName, after: Option<&ImageName>) -> bool
    ensures { IsTrue result ↔ IsAfter (pointed after.entry) name.now }
{
    match after {
        Some(bound) => bound.cmp(name).is_lt(),
        None => true,
    }
}

fn is_below(name: &ImageName, best: &Option<ImageName>) -> bool
    ensures { IsTrue result ↔ IsBelow best.now name.now }
{
    match best {
        Some(bound) => name.cmp(bound).is_lt(),
        None => true,
    }
}

// The image that the key names, if it names one.
fn image_of(kind: KeyKind) -> Option<ImageName>
    ensures { MatchOption result ((q : List ℕ) → ¬ (Names kind q)) (λ image. Names kind image) }
{
    match kind {
        KeyKind::Manifest(_, image) | KeyKind::Withdrawn(image) => Some(image),
        _ => None,
    }
}

impl Catalog {
    // Each manifest of a root has its name, and there are fewer than 2^32 names.
    fn count_manifests(&self, root: u32) -> u64
        ensures many { AreMany (λ key. Has self.now.view key × IsManifestOf root key) result }
        ensures few { result < 2 ^ 32 }
    {
        let _aside = &self.aside;
        self.count(&Wanted::Manifests(root))
    }

    // There are fewer than 2^32 names.
    fn count_names(&self) -> u64
        ensures many { AreMany (IsNamed self.now.view) result }
        ensures few { result < 2 ^ 32 }
    {
        let _aside = &self.aside;
        self.count(&Wanted::Named)
    }

    /// How many manifests and how many chunks a root has.
    pub fn counts(&self, root: u32) -> (u32, u64)
        ensures manifests { AreMany (λ key. Has self.now.view key × IsManifestOf root key) result.0 }
        ensures chunks { AreMany (λ key. Has self.now.view key × IsChunkOf root key) result.1 }
    {
        let manifests = self.count_manifests(root) as u32;
        (manifests, self.count(&Wanted::Chunks(root)))
    }

    /// The number of names: of images that have a manifest in some root or are withdrawn.
    pub fn names(&self) -> u32
        ensures { AreMany (IsNamed self.now.view) result }
    {
        self.count_names() as u32
    }

    /// The least chunk or manifest key of a root above this one.
    pub fn next_key(&self, root: u32, after: Option<&Key>) -> Option<&Key>
        ensures { IsFirst (λ key. Has self.now.view key × IsListed root (key_of after.entry) key) (key_of result) }
    {
        self.first(&Wanted::Listed(root, after.copied()))
    }

    /// Whether the image has a manifest in some root or is withdrawn.
    pub fn is_named(&self, image: &ImageName) -> bool
        ensures { IsTrue result ↔ IsNamed self.now.view image.now }
    {
        self.withdrawn(image) || self.first_root(image).is_some()
    }

    // The best name so far, or a nearer one that a key of the view names.
    fn nearest(
        &self,
        key: &Key,
        after: Option<&ImageName>,
        best: Option<ImageName>,
    ) -> Option<ImageName>
        ensures { IsNearest self.now.view key.now (pointed after.entry) best result }
    {
        match image_of(key.kind()) {
            Some(image) if self.has(key) && is_nearer(&image, after, &best) => Some(image),
            _ => best,
        }
    }

    /// The least name above this one, in byte order, of an image that has a manifest in some root or is withdrawn.
    pub fn next_image(&self, after: Option<&ImageName>) -> Option<ImageName>
        ensures { IsNextImage (pointed after.entry) self.now.view result }
    {
        // Each key of the view is one of the keys.
        let _aside = &self.aside;
        let mut best: Option<ImageName> = None;
        for key in self.keys.iter() {
            best = self.nearest(key, after, best);
        }
        best
    }

    // The creation number of the manifest under the key, or 0 where there is none.
    fn number_at(&self, kind: KeyKind) -> u64
        ensures had { HasNumber self.now.view result ⊎ (result ≡ 0) }
        ensures same { (m : ManifestFields) → IsManifestAt self.now.view kind m → number_of m ≡ result }
    {
        let KeyKind::Manifest(root, image) = kind else {
            return 0;
        };
        match self.manifest(root, &image) {
            Some(manifest) => manifest.number(),
            None => 0,
        }
    }

    /// The greatest creation number of a manifest, 0 where there is none.
    pub fn greatest_number(&self) -> u64
        ensures { IsGreatestNumber self.now.view result }
    {
        // Each key of the view is one of the keys.
        let _aside = &self.aside;
        let mut greatest: u64 = 0;
        for key in self.keys.iter() {
            greatest = greatest.max(self.number_at(key.kind()));
        }
        greatest
    }
}
