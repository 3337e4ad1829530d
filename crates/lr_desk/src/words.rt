//! The words of commands.
ghost use Rattle.std.specs.Prelude.{◌≡◌, ◌≢◌, ℕ, [], ◌∷◌, IfSome, IfNone, decimal, map, string_bytes};
ghost use Rattle.lr_origin.specs.Text.{IsRoot};
ghost use Rattle.lr_desk.specs.declared.words.Command.{Command as AnyCommand};
ghost use Rattle.lr_desk.specs.Words.{IsCommand, AreWords, words_of};

use lr_origin::ImageName;
use lr_text::{is, key_of, number_between};

/// A command over a store.
#[derive(Clone, Copy)]
pub enum Command {
    /// `create IMAGE TENANT`: an image is made of the source's bytes, sealed under a tenant's key.
    Create { image: ImageName, tenant: [u8; 32] },
    /// `cat IMAGE TENANT`: the bytes of an image are read back.
    Cat { image: ImageName, tenant: [u8; 32] },
    /// `rotate SALT`: the next root begins.
    Rotate { salt: [u8; 32] },
    /// `migrate IMAGE`: an image is copied to the active root.
    Migrate { image: ImageName },
    /// `withdraw IMAGE`: an image can't be opened any more.
    Withdraw { image: ImageName },
    /// `expire ROOT`: a retired root expires.
    Expire { root: u32 },
    /// `delete ROOT`: an expired root is deleted.
    Delete { root: u32 },
    /// `sweep ROOT`: all chunks and manifests of a deleted root are removed.
    Sweep { root: u32 },
    /// `roots`: the roots are listed, and the images with their homes.
    Roots,
}

// The number of a root, from 1 to 1,000.
fn root_of(word: &[u8]) -> Option<u32>
    ensures found { IfSome result (λ r. IsRoot r × (word.now ≡ decimal r)) }
    ensures only { IfNone result ((r : ℕ) → IsRoot r → word.now ≢ decimal r) }
{
    let root = number_between(word, 1, 1000)?;
    Some(root as u32)
}

// The command of one word.
fn alone(name: &[u8]) -> Option<Command>
    ensures found { IfSome result (λ c. IsCommand c × (words_of c ≡ name.now ∷ [])) }
    ensures only { IfNone result ((c : AnyCommand) → IsCommand c → words_of c ≢ name.now ∷ []) }
{
    if is(name, b"roots") {
        return Some(Command::Roots);
    }
    None
}

// The command of two words.
fn with_argument(name: &[u8], argument: &[u8]) -> Option<Command>
    ensures found { IfSome result (λ c. IsCommand c × (words_of c ≡ name.now ∷ argument.now ∷ [])) }
    ensures only { IfNone result ((c : AnyCommand) → IsCommand c → words_of c ≢ name.now ∷ argument.now ∷ []) }
{
    if is(name, b"rotate") {
        let salt = key_of(argument)?;
        return Some(Command::Rotate { salt });
    }
    if is(name, b"migrate") {
        let image = ImageName::parse(argument)?;
        return Some(Command::Migrate { image });
    }
    if is(name, b"withdraw") {
        let image = ImageName::parse(argument)?;
        return Some(Command::Withdraw { image });
    }
    let root = root_of(argument)?;
    if is(name, b"expire") {
        return Some(Command::Expire { root });
    }
    if is(name, b"delete") {
        return Some(Command::Delete { root });
    }
    if is(name, b"sweep") {
        return Some(Command::Sweep { root });
    }
    None
}

// The command of three words.
fn with_arguments(name: &[u8], first: &[u8], second: &[u8]) -> Option<Command>
    ensures found { IfSome result (λ c. IsCommand c × (words_of c ≡ name.now ∷ first.now ∷ second.now ∷ [])) }
    ensures only { IfNone result ((c : AnyCommand) → IsCommand c → words_of c ≢ name.now ∷ first.now ∷ second.now ∷ []) }
{
    let image = ImageName::parse(first)?;
    let tenant = key_of(second)?;
    if is(name, b"create") {
        return Some(Command::Create { image, tenant });
    }
    if is(name, b"cat") {
        return Some(Command::Cat { image, tenant });
    }
    None
}

/// The command that these words are, or `None` where they are no command's.
pub fn command_of(words: &[String]) -> Option<Command>
    ensures found { IfSome result (λ c. IsCommand c × (map string_bytes words.now ≡ words_of c)) }
    ensures only { IfNone result (¬ (AreWords (map string_bytes words.now))) }
{
    match words {
        [name] => alone(name.as_bytes()),
        [name, argument] => with_argument(name.as_bytes(), argument.as_bytes()),
        [name, first, second] => {
            with_arguments(name.as_bytes(), first.as_bytes(), second.as_bytes())
        }
        _ => None,
    }
}
