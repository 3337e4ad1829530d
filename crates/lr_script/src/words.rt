//! Words that several kinds of line share.
ghost use Rattle.std.specs.Prelude.{◌≡◌, ◌≢◌, ◌≤◌, ◌∷◌, [], ℕ, List, map, length, IfOk, IfSome, IfNone, IsTrue, codes};
ghost use Rattle.lr_text.specs.Name.{is_name};
ghost use Rattle.lr_text.specs.Words.{AreRuns, run_word};
ghost use Rattle.lr_script.specs.Limits.{runs_most};
ghost use Rattle.lr_script.specs.Seen.{BodySeen, body_seen};
ghost use Rattle.lr_script.specs.Lines.{body_words, FitsBody, IsImage, IsRootWord};

use crate::limits::{IMAGE_MOST, ROOTS_MOST, RUNS_MOST, SEED_MOST};
use crate::script::Body;
use lr_spec::OutOfMemory;
use lr_text::{ImageName, first, is, key_of, number_between, one, runs_of};
use std::alloc::Global;

/// One word, a name.
pub fn name_of(words: &[&[u8]]) -> Option<ImageName>
    ensures found { IfSome result (λ name. (map (λ w. w.now) words.now ≡ name ∷ []) × IsTrue (is_name name)) }
    ensures only { IfNone result ((name : List ℕ) → IsTrue (is_name name) → map (λ w. w.now) words.now ≢ name ∷ []) }
{
    let name = one(words)?;
    ImageName::parse(name)
}

/// One word, a root's number.
pub fn root_of(words: &[&[u8]]) -> Option<u32>
    ensures found { IfSome result (λ root. IsRootWord (map (λ w. w.now) words.now) root) }
    ensures only { IfNone result ((root : ℕ) → IsRootWord (map (λ w. w.now) words.now) root → ⊥) }
{
    let root = one(words)?;
    let root = number_between(root, 1, ROOTS_MOST)?;
    Some(root as u32)
}

// The runs behind `bytes`.
fn runs_body(alloc: Global, words: &[&[u8]], most: u64) -> Result<Option<Body>, OutOfMemory>
    ensures found { IfOk result (λ o. IfSome o (λ b. FitsBody (body_seen b) most × (codes "bytes" ∷ map (λ w. w.now) words.now ≡ body_words (body_seen b)))) }
    ensures only { IfOk result (λ o. IfNone o ((rs : List (ℕ × ℕ)) → length rs ≤ runs_most → AreRuns rs most → map (λ w. w.now) words.now ≢ map run_word rs)) }
{
    if words.len() > RUNS_MOST {
        return Ok(None);
    }
    let Some(runs) = runs_of(alloc, words, most)? else {
        return Ok(None);
    };
    Ok(Some(Body::Runs(runs)))
}

// `bytes RUN ..` or `seed NUMBER`, of an image of so many bytes.
fn body_of(alloc: Global, words: &[&[u8]], most: u64) -> Result<Option<Body>, OutOfMemory>
    ensures found { IfOk result (λ o. IfSome o (λ b. FitsBody (body_seen b) most × (map (λ w. w.now) words.now ≡ body_words (body_seen b)))) }
    ensures only { IfOk result (λ o. IfNone o ((b : BodySeen) → FitsBody b most → map (λ w. w.now) words.now ≢ body_words b)) }
{
    let Some((word, rest)) = first(words) else {
        return Ok(None);
    };
    if is(word, b"bytes") {
        return runs_body(alloc, rest, most);
    }
    if !is(word, b"seed") {
        return Ok(None);
    }
    let Some(number) = one(rest) else {
        return Ok(None);
    };
    let Some(number) = number_between(number, 0, SEED_MOST) else {
        return Ok(None);
    };
    Ok(Some(Body::Seed(number as u32)))
}

/// What the words `NAME TENANT LENGTH BODY` say.
#[derive(Drop)]
pub struct ImageWords {
    pub name: ImageName,
    pub tenant: [u8; 32],
    pub len: u64,
    pub body: Body,
}

/// `NAME TENANT LENGTH BODY`
pub fn image_of(alloc: Global, words: &[&[u8]]) -> Result<Option<ImageWords>, OutOfMemory>
    ensures found { IfOk result (λ o. IfSome o (λ p. IsImage (map (λ w. w.now) words.now) p.name p.tenant p.len (body_seen p.body))) }
    ensures one { IfOk result (λ o. IfSome o (λ p. (name tenant : List ℕ) (len : ℕ) (body : BodySeen) → IsImage (map (λ w. w.now) words.now) name tenant len body → len ≡ p.len)) }
    ensures only { IfOk result (λ o. IfNone o ((name tenant : List ℕ) (len : ℕ) (body : BodySeen) → IsImage (map (λ w. w.now) words.now) name tenant len body → ⊥)) }
{
    let Some((name, rest)) = first(words) else {
        return Ok(None);
    };
    let Some((tenant, rest)) = first(rest) else {
        return Ok(None);
    };
    let Some((len, rest)) = first(rest) else {
        return Ok(None);
    };
    let Some(name) = ImageName::parse(name) else {
        return Ok(None);
    };
    let Some(tenant) = key_of(tenant) else {
        return Ok(None);
    };
    let Some(len) = number_between(len, 0, IMAGE_MOST) else {
        return Ok(None);
    };
    let Some(body) = body_of(alloc, rest, len)? else {
        return Ok(None);
    };
    Ok(Some(ImageWords {
        name,
        tenant,
        len,
        body,
    }))
}
