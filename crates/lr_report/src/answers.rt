//! How a job ended, in words.
ghost use Rattle.std.specs.Prelude.{◌≡◌, ◌++◌, OnOk, codes, decimal};
ghost use Rattle.lr_report.specs.Answers.{deed_word, refusal_word, number_after, answer_detail, answer_text};

use lr_spec::OutOfMemory;
use lr_text::put_number;
use lr_walk::Answer;

// The word for what was done, and nothing for another answer.
fn deed_word(answer: &Answer) -> &'static [u8]
    ensures { result.now ≡ deed_word answer.now }
{
    match answer {
        Answer::Done => b"done",
        Answer::Range => b"range",
        Answer::Created(_) => b"created",
        Answer::Root(_) => b"root",
        Answer::Moved(_, _) => b"moved",
        Answer::Withdrawn => b"withdrawn",
        Answer::Expired => b"expired",
        Answer::Deleted => b"deleted",
        Answer::Swept(_) => b"swept",
        Answer::There => b"there",
        Answer::Absent => b"absent",
        Answer::Closed => b"closed",
        Answer::Evicted(_) => b"evicted",
        Answer::Dropped => b"dropped",
        Answer::Flipped => b"flipped",
        Answer::Forged => b"forged",
        Answer::Lost(_) => b"lost",
        Answer::NoStripe => b"none",
        Answer::NoChunk => b"no chunk",
        _ => b"",
    }
}

// The words for what wasn't done, and nothing for another answer.
fn refusal_word(answer: &Answer) -> &'static [u8]
    ensures { result.now ≡ refusal_word answer.now }
{
    match answer {
        Answer::NoImage => b"no image",
        Answer::NoRoot => b"no root",
        Answer::Taken => b"taken",
        Answer::Full => b"full",
        Answer::RootsEnd => b"roots end",
        Answer::Overtaken(_) => b"overtaken",
        Answer::NotExpired => b"not expired",
        Answer::NotDeleted => b"not deleted",
        Answer::NoDoubt => b"no doubt",
        Answer::Serves(_) => b"serves",
        Answer::Session(_) => b"session",
        Answer::Doubt(_) => b"doubt",
        Answer::NotRetiredHome(_) => b"not retired",
        Answer::NotRetired => b"not retired",
        Answer::Fault(_) => b"fault",
        Answer::Spoiled(_) => b"spoiled",
        Answer::Memory => b"memory",
        Answer::Cut => b"cut",
        Answer::Unbegun => b"unbegun",
        _ => b"",
    }
}

// Adds a space and a number.
fn put_number_after(out: &mut Vec<u8>, number: u64) -> Result<(), OutOfMemory>
    ensures { OnOk result (out.new.items ≡ out.old.items ++ number_after number) }
{
    out.extend_from_slice(b" ")?;
    put_number(out, number)?;
    Ok(())
}

// Adds a space and a word.
fn put_word_after(out: &mut Vec<u8>, word: &[u8]) -> Result<(), OutOfMemory>
    ensures { OnOk result (out.new.items ≡ out.old.items ++ (codes " " ++ word.now)) }
{
    out.extend_from_slice(b" ")?;
    out.extend_from_slice(word)?;
    Ok(())
}

// Adds what follows the words of an answer.
fn put_detail(out: &mut Vec<u8>, answer: &Answer) -> Result<(), OutOfMemory>
    ensures { OnOk result (out.new.items ≡ out.old.items ++ answer_detail answer.now) }
{
    match answer {
        Answer::Created(root) => put_number_after(out, u64::from(*root)),
        Answer::Root(root) => put_number_after(out, u64::from(*root)),
        Answer::Moved(from, to) => {
            put_number_after(out, u64::from(*from))?;
            put_number_after(out, u64::from(*to))
        }
        Answer::Swept(keys) => put_number_after(out, *keys),
        Answer::Evicted(chunks) => put_number_after(out, u64::from(*chunks)),
        Answer::Lost(stripes) => put_number_after(out, u64::from(*stripes)),
        Answer::Overtaken(root) => put_number_after(out, u64::from(*root)),
        Answer::Serves(image) => put_word_after(out, image.as_bytes()),
        Answer::Session(session) => put_number_after(out, *session),
        Answer::Doubt(key) => put_word_after(out, key.as_bytes()),
        Answer::NotRetiredHome(home) => put_number_after(out, u64::from(*home)),
        Answer::Fault(key) => put_word_after(out, key.as_bytes()),
        Answer::Spoiled(key) => put_word_after(out, key.as_bytes()),
        _ => Ok(()),
    }
}

// Adds how a job ended.
#[tactic(auto, unfolding(crate::specs::Answers::answer_text))]
pub fn put_answer(out: &mut Vec<u8>, answer: &Answer) -> Result<(), OutOfMemory>
    ensures { OnOk result (out.new.items ≡ out.old.items ++ answer_text answer.now) }
{
    out.extend_from_slice(deed_word(answer))?;
    out.extend_from_slice(refusal_word(answer))?;
    put_detail(out, answer)
}
