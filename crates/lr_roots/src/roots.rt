//! Questions about roots and the homes of images.
ghost use Rattle.std.specs.Prelude.{◌≡◌, ◌<◌, ◌≤◌, ◌↔◌, ℕ, IsTrue, MatchOption, Some, None, All};
ghost use Rattle.lr_origin.specs.declared.key.KeyKind.TheVariants as kind;
ghost use Rattle.lr_roots.specs.View.{Has, Lacks};
ghost use Rattle.lr_roots.specs.Foreign.{IsFirstRoot, IsUnbroken};
ghost use Rattle.lr_roots.specs.Index.{IsLastRoot};
ghost use Rattle.lr_roots.specs.Roots.{IsLive, IsTop, IsRootState, IsHome, IsHomeless, IsMissing};

use crate::catalog::Catalog;
use crate::state::RootState;
use lr_manifest::{Manifest, Name};
use lr_origin::{ImageName, KeyKind, ROOTS_MAX};

impl Catalog {
    /// The greatest root, or 0 where there is none. It is the number of roots, where their numbers have no gap.
    pub fn roots(&self) -> u32
        ensures { IsTop self.now.view result }
    {
        // Each key of the view is one of the keys, and no root is above the limit.
        let _aside = &self.aside;
        let mut bound = ROOTS_MAX + 1;
        while let Some(root) = self.keys.root_below(bound) {
            if self.has_kind(KeyKind::Root(root)) {
                return root;
            }
            bound = root;
        }
        0
    }

    /// Whether the root is there and isn't deleted.
    pub(crate) fn is_live(&self, root: u32) -> bool
        ensures { IsTrue result ↔ IsLive self.now.view root }
    {
        self.has_kind(KeyKind::Root(root)) && !self.has_kind(KeyKind::Deleted(root))
    }

    /// The state of a root, or `None` where it isn't there.
    pub fn state(&self, root: u32) -> Option<RootState>
        ensures { IsRootState self.now.view root result }
    {
        if !self.has_kind(KeyKind::Root(root)) {
            return None;
        }
        if self.has_kind(KeyKind::Deleted(root)) {
            return Some(RootState::Deleted);
        }
        if self.has_kind(KeyKind::Expired(root)) {
            return Some(RootState::Expired);
        }
        if self.roots() == root {
            return Some(RootState::Active);
        }
        Some(RootState::Retired)
    }

    /// The home of an image: the greatest live root that has a manifest of it.
    pub fn home(&self, image: &ImageName) -> Option<u32>
        ensures { MatchOption result (IsHomeless self.now.view image.now) (λ root. IsHome self.now.view image.now root) }
    {
        // Each key of the view is one of the keys, and no root is above the limit.
        let _aside = &self.aside;
        let mut bound = ROOTS_MAX + 1;
        while let Some(root) = self.keys.manifest_below(image, bound) {
            if self.lists(root, image) {
                return Some(root);
            }
            bound = root;
        }
        None
    }

    // Whether the root is live and has a manifest of the image.
    fn lists(&self, root: u32, image: &ImageName) -> bool
        ensures { IsTrue result ↔ (IsLive self.now.view root × Has self.now.view (kind.Manifest root image.now)) }
    {
        self.is_live(root) && self.has_kind(KeyKind::Manifest(root, *image))
    }

    /// The first index of the manifest whose chunk isn't in the view under the root.
    pub fn missing(&self, root: u32, manifest: &Manifest) -> Option<u32>
        ensures { MatchOption result (All (λ name. Has self.now.view (kind.Chunk root name.bytes)) manifest.now.names) (λ at. IsMissing self.now.view root manifest.now.names at) }
    {
        let place = self.missing_name(root, manifest.names())?;
        Some(place as u32)
    }

    fn missing_name(&self, root: u32, names: &[Name]) -> Option<usize>
        ensures { MatchOption result (All (λ name. Has self.now.view (kind.Chunk root name.bytes)) names.now) (λ at. IsMissing self.now.view root names.now at) }
    {
        for (at, name) in names.iter().enumerate() {
            if !self.has_kind(KeyKind::Chunk(root, name.bytes)) {
                return Some(at);
            }
        }
        None
    }

    // How many roots are there one after another, from 1 on.
    pub(crate) fn unbroken(&self) -> u32
        ensures { IsUnbroken self.now.view result }
    {
        // No root is above the limit.
        let _aside = &self.aside;
        for root in 0..ROOTS_MAX {
            if !self.has_kind(KeyKind::Root(root + 1)) {
                return root;
            }
        }
        ROOTS_MAX
    }

    // The least root that has a manifest of the image.
    pub(crate) fn first_root(&self, image: &ImageName) -> Option<u32>
        ensures { MatchOption result ((q : ℕ) → Lacks self.now.view (kind.Manifest q image.now)) (λ root. IsFirstRoot self.now.view image.now root) }
    {
        // Each key of the view is one of the keys.
        let _aside = &self.aside;
        let mut bound = 0;
        while let Some(root) = self.keys.manifest_from(image, bound) {
            if self.has_kind(KeyKind::Manifest(root, *image)) {
                return Some(root);
            }
            bound = root + 1;
        }
        None
    }

    // The greatest root that has a manifest of the image.
    fn last_root(&self, image: &ImageName) -> Option<u32>
        ensures { MatchOption result ((q : ℕ) → Lacks self.now.view (kind.Manifest q image.now)) (λ root. IsLastRoot self.now.view image.now root) }
    {
        // Each key of the view is one of the keys, and no root is above the limit.
        let _aside = &self.aside;
        let mut bound = ROOTS_MAX + 1;
        while let Some(root) = self.keys.manifest_below(image, bound) {
            if self.has_kind(KeyKind::Manifest(root, *image)) {
                return Some(root);
            }
            bound = root;
        }
        None
    }

    // Whether no root above this one has a manifest of the image.
    pub(crate) fn is_last_root(&self, root: u32, image: &ImageName) -> bool
        ensures { IsTrue result ↔ ((q : ℕ) → root < q → Lacks self.now.view (kind.Manifest q image.now)) }
    {
        match self.last_root(image) {
            Some(last) => last <= root,
            None => true,
        }
    }
}
