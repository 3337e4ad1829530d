//! How many entries of each object the paths of an actor name.
ghost use Rattle.std.specs.Prelude.{◌≡◌, ℕ, ◌+◌, ◌<◌, IfOk, cond, length, slice_index, slice_set};
ghost use Rattle.lr_object.specs.declared.id.ObjectId.{ObjectId as Id};
ghost use Rattle.lr_walk.specs.Trails.{is_same};
ghost use Rattle.lr_actors.specs.Tally.{count_of, Has, IsSized, KeepsSize};

use lr_object::ObjectId;
use lr_spec::OutOfMemory;
use std::alloc::Global;

/// A count for each object.
#[derive(Drop)]
pub(crate) struct Tally {
    pub(crate) devices: Vec<u64>,
    pub(crate) caches: Vec<u64>,
    pub(crate) nodes: Vec<u64>,
    pub(crate) depot: u64,
}

// So many counts, all 0.
fn zeros(alloc: Global, count: u32) -> Result<Vec<u64>, OutOfMemory>
    ensures zero { IfOk result (λ v. (i : ℕ) → slice_index v.items i ≡ 0) }
    ensures len { IfOk result (λ v. length v.items ≡ count) }
{
    Ok(vec![in alloc; 0u64; count as usize]?)
}

// One more at this place.
fn raise_at(counts: &mut Vec<u64>, at: u32)
    requires at { at < length counts.old.items }
    requires few { slice_index counts.old.items at < 18446744073709551615 }
    ensures { counts.new.items ≡ slice_set counts.old.items at (slice_index counts.old.items at + 1) }
{
    counts[at as usize] += 1;
}

impl Tally {
    /// Counts of so many objects, all 0.
    pub(crate) fn new(
        alloc: Global,
        devices: u32,
        hosts: u32,
        nodes: u32,
    ) -> Result<Tally, OutOfMemory>
        ensures zero { IfOk result (λ t. (o : Id) → count_of t o ≡ 0) }
        ensures sized { IfOk result (λ t. IsSized t devices hosts nodes) }
    {
        Ok(Tally {
            devices: zeros(alloc, devices)?,
            caches: zeros(alloc, hosts)?,
            nodes: zeros(alloc, nodes)?,
            depot: 0,
        })
    }

    /// The count of an object.
    pub(crate) fn of(&self, object: ObjectId) -> u64
        requires { Has self.now object }
        ensures { result ≡ count_of self.now object }
    {
        match object {
            ObjectId::Device(n) => self.devices[n as usize],
            ObjectId::Cache(n) => self.caches[n as usize],
            ObjectId::Node(n) => self.nodes[n as usize],
            ObjectId::Depot => self.depot,
        }
    }

    /// One entry more of an object.
    pub(crate) fn raise(&mut self, object: ObjectId)
        requires has { Has self.old object }
        requires few { count_of self.old object < 18446744073709551615 }
        ensures counts { (o : Id) → count_of self.new o ≡ count_of self.old o + cond (is_same object o) 1 0 }
        ensures sized { KeepsSize self.old self.new }
    {
        match object {
            ObjectId::Device(n) => raise_at(&mut self.devices, n),
            ObjectId::Cache(n) => raise_at(&mut self.caches, n),
            ObjectId::Node(n) => raise_at(&mut self.nodes, n),
            ObjectId::Depot => self.depot += 1,
        }
    }
}
