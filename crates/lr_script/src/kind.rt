//! Kinds of lines, and the parts of a script in which they come.
ghost use Rattle.std.specs.Prelude.{◌≡◌};
ghost use Rattle.lr_script.specs.Kinds.{kind_of, may_come};

/// The part of a script that was reached.
#[derive(Clone, Copy)]
pub enum Part {
    Start,
    Setup,
    Actors,
    After,
    Crashes,
    End,
}

/// What the first word of a line says it is.
#[derive(Clone, Copy)]
pub enum Kind {
    Script,
    Nodes,
    Host,
    Root,
    Image,
    Device,
    Actor,
    Read,
    Zero,
    Write,
    Create,
    Migrate,
    Withdraw,
    Rotate,
    Expire,
    Delete,
    Sweep,
    Settle,
    Evict,
    Drop,
    Flip,
    Forge,
    Lose,
    After,
    Close,
    Crash,
    Schedule,
    Other,
}

/// The kind of a line that begins with this word.
pub fn kind_of(word: &[u8]) -> Kind
    ensures { result ≡ kind_of word.now }
{
    if word == b"script".as_slice() {
        return Kind::Script;
    }
    if word == b"nodes".as_slice() {
        return Kind::Nodes;
    }
    if word == b"host".as_slice() {
        return Kind::Host;
    }
    if word == b"root".as_slice() {
        return Kind::Root;
    }
    if word == b"image".as_slice() {
        return Kind::Image;
    }
    if word == b"device".as_slice() {
        return Kind::Device;
    }
    if word == b"actor".as_slice() {
        return Kind::Actor;
    }
    if word == b"read".as_slice() {
        return Kind::Read;
    }
    if word == b"zero".as_slice() {
        return Kind::Zero;
    }
    if word == b"write".as_slice() {
        return Kind::Write;
    }
    if word == b"create".as_slice() {
        return Kind::Create;
    }
    if word == b"migrate".as_slice() {
        return Kind::Migrate;
    }
    if word == b"withdraw".as_slice() {
        return Kind::Withdraw;
    }
    if word == b"rotate".as_slice() {
        return Kind::Rotate;
    }
    if word == b"expire".as_slice() {
        return Kind::Expire;
    }
    if word == b"delete".as_slice() {
        return Kind::Delete;
    }
    if word == b"sweep".as_slice() {
        return Kind::Sweep;
    }
    if word == b"settle".as_slice() {
        return Kind::Settle;
    }
    if word == b"evict".as_slice() {
        return Kind::Evict;
    }
    if word == b"drop".as_slice() {
        return Kind::Drop;
    }
    if word == b"flip".as_slice() {
        return Kind::Flip;
    }
    if word == b"forge".as_slice() {
        return Kind::Forge;
    }
    if word == b"lose".as_slice() {
        return Kind::Lose;
    }
    if word == b"after".as_slice() {
        return Kind::After;
    }
    if word == b"close".as_slice() {
        return Kind::Close;
    }
    if word == b"crash".as_slice() {
        return Kind::Crash;
    }
    if word == b"schedule".as_slice() {
        return Kind::Schedule;
    }
    Kind::Other
}

/// Whether a line of this kind may come in this part.
pub fn may_come(part: Part, kind: Kind) -> bool
    ensures { result ≡ may_come part kind }
{
    match part {
        Part::Start => matches!(kind, Kind::Script),
        Part::Setup => matches!(
            kind,
            Kind::Nodes
                | Kind::Host
                | Kind::Root
                | Kind::Image
                | Kind::Device
                | Kind::Actor
                | Kind::After
                | Kind::Crash
                | Kind::Schedule
        ),
        Part::Actors => matches!(
            kind,
            Kind::Read
                | Kind::Zero
                | Kind::Write
                | Kind::Create
                | Kind::Migrate
                | Kind::Withdraw
                | Kind::Rotate
                | Kind::Expire
                | Kind::Delete
                | Kind::Sweep
                | Kind::Settle
                | Kind::Evict
                | Kind::Drop
                | Kind::Flip
                | Kind::Forge
                | Kind::Lose
                | Kind::Actor
                | Kind::After
                | Kind::Crash
                | Kind::Schedule
        ),
        Part::After => matches!(
            kind,
            Kind::Migrate
                | Kind::Withdraw
                | Kind::Rotate
                | Kind::Expire
                | Kind::Delete
                | Kind::Sweep
                | Kind::Settle
                | Kind::Close
                | Kind::Crash
                | Kind::Schedule
        ),
        Part::Crashes => matches!(kind, Kind::Crash | Kind::Schedule),
        Part::End => false,
    }
}
