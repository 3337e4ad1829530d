//! How a play ends: its status, and its line for standard error.
ghost use Rattle.std.specs.Prelude.{◌≡◌, ◌≤◌, ◌++◌, codes, decimal, length};
ghost use Rattle.lr_desk.specs.Outcome.{words_of};
ghost use Rattle.lr_top.specs.Ends.{status_of, line_of};

use itoa::Buffer;
use lr_desk::{Outcome, Refusal};
use lr_io::Line;

/// How a play ended. Lines of the script are counted from 1.
#[derive(Drop)]
pub enum PlayEnd {
    /// As a command may end.
    By(Outcome),
    /// This line is the first outside the grammar.
    OutsideAt(u32),
    /// This setup line was refused.
    RefusedAt(u32, Refusal),
}

// A short text and a line's number behind it.
fn numbered(head: &[u8], line: u32) -> Line
    requires { length head.now ≤ 32 }
    ensures line { result ≡ head.now ++ decimal line }
    ensures short { length result ≤ 80 }
{
    let mut text = Line::of(head);
    let mut buffer = Buffer::new();
    text.push(buffer.format(line).as_bytes());
    text
}

// The line of a setup line that was refused.
fn refused_at(line: u32, refusal: &Refusal) -> Line
    ensures { result ≡ codes "line " ++ (decimal line ++ (codes " refused " ++ words_of refusal.now)) }
{
    let mut text = numbered(b"line ", line);
    text.push(b" ");
    text.push(refusal.line().as_slice());
    text
}

impl PlayEnd {
    /// The exit status: that of the command's way to end, 3 for a line outside the grammar, 8 for a refused setup line.
    pub fn status(&self) -> u8
        ensures { result ≡ status_of self.now }
    {
        match self {
            PlayEnd::By(outcome) => outcome.status(),
            PlayEnd::OutsideAt(_) => 3,
            PlayEnd::RefusedAt(_, _) => 8,
        }
    }

    /// The status in words; empty for 0.
    pub fn line(&self) -> Line
        ensures { result ≡ line_of self.now }
    {
        match self {
            PlayEnd::By(outcome) => outcome.line(),
            PlayEnd::OutsideAt(line) => numbered(b"script line ", *line),
            PlayEnd::RefusedAt(line, refusal) => refused_at(*line, refusal),
        }
    }
}
