//! The creation of an image from a source.
ghost use Rattle.std.specs.Prelude.{◌≡◌, ◌≤◌, ◌+◌, ◌%◌, ◌++◌, ℕ, List, length, true, Option, Some, None, MatchOption};
ghost use Rattle.lr_spec.specs.Rose.{Rose};
ghost use Rattle.lr_io.specs.Streams.{TakesAll};
ghost use Rattle.lr_depot.specs.Depot.{Seen};
ghost use Rattle.lr_creator.specs.Progress.{is_wanting, raw_len_of};
ghost use Rattle.lr_creator.specs.Seen.{IsSame};
ghost use Rattle.lr_images.specs.Created.{IsCreation, IsUnderWay};

use crate::created::{Created, answer_of};
use crate::drive::{leave, put_last, put_piece, run_on};
use crate::pieces::{Read, read_piece};
use lr_creator::{Create, CreateEnd};
use lr_depot::Depot;
use lr_io::Source;
use lr_manifest::{CHUNK, TenantKey};
use lr_origin::{ImageName, Origin};
use std::alloc::Global;

// Gives the bytes before the source's end, if there are some, and says that they were the last.
fn finish<O: Origin>(
    alloc: Global,
    depot: &mut Depot<O>,
    machine: &mut Create,
    plain: &[u8],
) -> Created
    requires wants { is_wanting machine.old.need ≡ true }
    requires whole { raw_len_of machine.old.need % 524288 ≡ 0 }
    requires most { length plain.now ≤ 524288 }
    requires within { raw_len_of machine.old.need + length plain.now ≤ 67108864 }
    ensures unread { result ≡ Created.ReadFault → ⊥ }
    ensures created { (base : Seen O) (before now left : Option (List ℕ)) → IsUnderWay O.faults base before machine.old (raw_len_of machine.old.need) depot.old now → TakesAll now plain.now left → IsCreation O.faults base before machine.old.image machine.old.tenant result depot.new left }
{
    if plain.is_empty() {
        return answer_of(put_last(alloc, depot, machine));
    }
    match put_piece(alloc, depot, machine, plain) {
        Some(end) => answer_of(end),
        None => answer_of(put_last(alloc, depot, machine)),
    }
}

// Reads one piece and gives it.
fn turn<O: Origin, I: Source>(
    alloc: Global,
    depot: &mut Depot<O>,
    source: &mut I,
    machine: &mut Create,
    len: usize,
) -> Option<Created>
    requires wants { is_wanting machine.old.need ≡ true }
    requires given { raw_len_of machine.old.need ≡ len }
    requires whole { len % 524288 ≡ 0 }
    requires within { len ≤ 67108864 }
    ensures same { result ≡ None → IsSame machine.old machine.new }
    ensures wants { result ≡ None → is_wanting machine.new.need ≡ true }
    ensures given { result ≡ None → raw_len_of machine.new.need ≡ len + 524288 }
    ensures within { result ≡ None → len + 524288 ≤ 67108864 }
    ensures never_falls { I.faults source.old ≤ I.faults source.new }
    ensures read_fault { result ≡ Some Created.ReadFault → Rose (I.faults source.old) (I.faults source.new) }
    ensures created { (base : Seen O) (before : Option (List ℕ)) → IsUnderWay O.faults base before machine.old len depot.old (I.left source.old) → MatchOption result (IsUnderWay O.faults base before machine.new (len + 524288) depot.new (I.left source.new)) (λ created. IsCreation O.faults base before machine.old.image machine.old.tenant created depot.new (I.left source.new)) }
{
    match read_piece(alloc, source, len) {
        Read::Whole(plain) => match put_piece(alloc, depot, machine, &plain) {
            Some(end) => Some(answer_of(end)),
            None => None,
        },
        Read::Last(plain) => Some(finish(alloc, depot, machine, &plain)),
        Read::Past(_) => {
            leave(alloc, depot, machine);
            Some(Created::TooLong)
        }
        Read::Fault => {
            leave(alloc, depot, machine);
            Some(Created::ReadFault)
        }
        Read::OutOfMemory => {
            leave(alloc, depot, machine);
            Some(Created::OutOfMemory)
        }
    }
}

// Reads the whole source and gives it.
fn read_all<O: Origin, I: Source>(
    alloc: Global,
    depot: &mut Depot<O>,
    source: &mut I,
    machine: &mut Create,
) -> Created
    requires wants { is_wanting machine.old.need ≡ true }
    requires none { raw_len_of machine.old.need ≡ 0 }
    ensures never_falls { I.faults source.old ≤ I.faults source.new }
    ensures read_fault { result ≡ Created.ReadFault → Rose (I.faults source.old) (I.faults source.new) }
    ensures created { (base : Seen O) (before : Option (List ℕ)) → IsUnderWay O.faults base before machine.old 0 depot.old (I.left source.old) → IsCreation O.faults base before machine.old.image machine.old.tenant result depot.new (I.left source.new) }
{
    let mut len = 0;
    loop {
        match turn(alloc, depot, source, machine, len) {
            Some(created) => return created,
            None => {}
        }
        len += CHUNK;
    }
}

/// Creates an image from all the bytes of a source, of which there may be 67,108,864, as caller 0.
///
/// The source is read in pieces of at most 524,288 bytes, of which one at a time is kept. Before it is read the creation
/// is begun. Where it fails or has too many bytes, and where no memory is found, the session is left.
pub fn create<O: Origin, I: Source>(
    alloc: Global,
    depot: &mut Depot<O>,
    source: &mut I,
    image: ImageName,
    tenant: TenantKey,
) -> Created
    ensures created { IsCreation O.faults depot.old (I.left source.old) image tenant.bytes result depot.new (I.left source.new) }
    ensures never_falls { I.faults source.old ≤ I.faults source.new }
    ensures read_fault { result ≡ Created.ReadFault → Rose (I.faults source.old) (I.faults source.new) }
{
    let mut machine = Create::new(alloc, image, tenant);
    match run_on(alloc, depot, &mut machine) {
        Some(end) => answer_of(end),
        None => read_all(alloc, depot, source, &mut machine),
    }
}
