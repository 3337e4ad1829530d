//! How a command ends: its status, and its line for standard error.
ghost use Rattle.std.specs.Prelude.{◌≡◌, ◌+◌, ◌++◌, ◌≤◌, codes, decimal, length, take};
ghost use Rattle.lr_desk.specs.Outcome.{status_of, line_of, words_of, shown, printed};

use itoa::Buffer;
use lr_io::Line;
use lr_origin::{ImageName, Key};

/// Why a command was refused.
#[derive(Drop)]
pub enum Refusal {
    /// No live root has a manifest of the image, or it is withdrawn.
    NoImage,
    /// There is no root.
    NoRoot,
    /// A root has a manifest of the image, or it is withdrawn.
    Taken,
    /// There are too many image names, or no creation number is left.
    Full,
    /// There are 1,000 roots.
    RootsEnd,
    /// The image has this other home by now.
    Overtaken(u32),
    /// The home of the image, this root, is active.
    NotRetiredHome(u32),
    /// The root isn't retired.
    NotRetired,
    /// The root isn't expired.
    NotExpired,
    /// The root isn't deleted.
    NotDeleted,
    /// The root is the home of this owed image.
    Serves(ImageName),
    /// The session of this number rests on the root.
    Session(u64),
    /// The put of this key is in doubt.
    Doubt(Key),
    /// The tenant's key doesn't open the image.
    Sealed,
    /// There are more raw bytes than an image may have.
    TooLong,
}

/// How a command ended.
#[derive(Drop)]
pub enum Outcome {
    /// It was done.
    Done,
    /// The words are no command's.
    Usage,
    /// The source failed.
    ReadFault,
    /// The sink failed.
    WriteFault,
    /// The store failed.
    OriginFault,
    /// No memory was found.
    Memory,
    /// The depot refused it, or what was given to it.
    Refused(Refusal),
    /// This key of the store, in its bytes, breaks a rule of a sound store.
    Foreign(Vec<u8>),
    /// The object under this key is gone or isn't the one that belongs there.
    Spoiled(Key),
    /// The store has 4,294,967,296 keys or more.
    TooMany,
}

// The most bytes of a key that a line shows.
const SHOWN_MAX: usize = 128;

// The most bytes of a line in front of what it shows.
const HEAD_MAX: usize = 32;

// A byte that prints, or a question mark.
fn printed(byte: u8) -> u8
    ensures { result ≡ printed byte }
{
    if 33 <= byte && byte <= 126 {
        byte
    } else {
        b'?'
    }
}

// As much of a key as a line shows.
fn front_of(key: &[u8]) -> &[u8]
    ensures front { result.now ≡ take SHOWN_MAX key.now }
    ensures short { length result.now ≤ SHOWN_MAX }
{
    &key[..key.len().min(SHOWN_MAX)]
}

// Adds a key as lines show it.
fn push_shown(line: &mut Line, key: &[u8])
    requires { length line.old ≤ HEAD_MAX }
    ensures { line.new ≡ line.old ++ shown key.now }
{
    for byte in front_of(key) {
        line.push(&[printed(*byte)]);
    }
}

// A short text and a key behind it.
fn with_key(head: &[u8], key: &[u8]) -> Line
    requires { length head.now ≤ HEAD_MAX }
    ensures line { result ≡ head.now ++ shown key.now }
    ensures short { length result ≤ length head.now + SHOWN_MAX }
{
    let mut line = Line::of(head);
    push_shown(&mut line, key);
    line
}

// A short text and a number behind it.
fn with_number(head: &[u8], number: u64) -> Line
    requires { length head.now ≤ HEAD_MAX }
    ensures line { result ≡ head.now ++ decimal number }
    ensures short { length result ≤ length head.now + SHOWN_MAX }
{
    let mut line = Line::of(head);
    let mut buffer = Buffer::new();
    line.push(buffer.format(number).as_bytes());
    line
}

// A short text and an image's name behind it.
fn with_image(head: &[u8], image: &ImageName) -> Line
    requires { length head.now ≤ HEAD_MAX }
    ensures line { result ≡ head.now ++ image.now }
    ensures short { length result ≤ length head.now + SHOWN_MAX }
{
    let mut line = Line::of(head);
    line.push(image.as_bytes());
    line
}

impl Refusal {
    /// The line of a refusal: `refused ` and its words.
    pub fn line(&self) -> Line
        ensures words { result ≡ codes "refused " ++ words_of self.now }
        ensures short { length result ≤ HEAD_MAX + SHOWN_MAX }
    {
        match self {
            Refusal::NoImage => Line::of(b"refused no image"),
            Refusal::NoRoot => Line::of(b"refused no root"),
            Refusal::Taken => Line::of(b"refused taken"),
            Refusal::Full => Line::of(b"refused full"),
            Refusal::RootsEnd => Line::of(b"refused roots end"),
            Refusal::Overtaken(home) => with_number(b"refused overtaken ", u64::from(*home)),
            Refusal::NotRetiredHome(home) => with_number(b"refused not retired ", u64::from(*home)),
            Refusal::NotRetired => Line::of(b"refused not retired"),
            Refusal::NotExpired => Line::of(b"refused not expired"),
            Refusal::NotDeleted => Line::of(b"refused not deleted"),
            Refusal::Serves(image) => with_image(b"refused serves ", image),
            Refusal::Session(number) => with_number(b"refused session ", *number),
            Refusal::Doubt(key) => with_key(b"refused doubt ", key.as_bytes()),
            Refusal::Sealed => Line::of(b"refused sealed"),
            Refusal::TooLong => Line::of(b"refused too long"),
        }
    }
}

impl Outcome {
    /// The exit status: 0 done, 2 wrong words, 4 the source failed, 5 the sink failed, 6 the store failed, 7 want of
    /// memory, 8 refused, 9 a foreign key, 10 a spoiled key, 11 too many keys.
    pub fn status(&self) -> u8
        ensures { result ≡ status_of self.now }
    {
        match self {
            Outcome::Done => 0,
            Outcome::Usage => 2,
            Outcome::ReadFault => 4,
            Outcome::WriteFault => 5,
            Outcome::OriginFault => 6,
            Outcome::Memory => 7,
            Outcome::Refused(_) => 8,
            Outcome::Foreign(_) => 9,
            Outcome::Spoiled(_) => 10,
            Outcome::TooMany => 11,
        }
    }

    /// The status in words; empty for 0. Of a key it shows at most 128 bytes, and `?` for each that doesn't print.
    pub fn line(&self) -> Line
        ensures { result ≡ line_of self.now }
    {
        match self {
            Outcome::Done => Line::new(),
            Outcome::Usage => Line::of(b"usage"),
            Outcome::ReadFault => Line::of(b"read fault"),
            Outcome::WriteFault => Line::of(b"write fault"),
            Outcome::OriginFault => Line::of(b"origin fault"),
            Outcome::Memory => Line::of(b"memory"),
            Outcome::Refused(refusal) => refusal.line(),
            Outcome::Foreign(key) => with_key(b"foreign ", key.as_slice()),
            Outcome::Spoiled(key) => with_key(b"spoiled ", key.as_bytes()),
            Outcome::TooMany => Line::of(b"too many keys"),
        }
    }
}
