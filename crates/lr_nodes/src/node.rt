//! The node as an object with a log.
ghost use Rattle.std.specs.Prelude.{◌≡◌, ◌<◌, [], IfOk, length};

use crate::call::{NodeCall, NodeReply};
use crate::list::{flipped, place_of, put_at, take_out, take_out_first};
use lr_manifest::Name;
use lr_object::{Entry, Object, owner_of, put_first, raise};
use lr_spec::OutOfMemory;
use lr_stripe::Stripe;
use std::alloc::Global;
use std::marker::Model;
use std::sync::Arc;

/// A node for so many stripes.
///
/// A contract sees its capacity and its log; the stripes that it holds are what the machine makes of these.
#[derive(Drop)]
pub struct Node {
    capacity: u32,
    stripes: Vec<Arc<Stripe>>,
    log: Vec<Entry<NodeCall, NodeReply>>,
}

impl Model for Node {
    ghost use Rattle.std.specs.Prelude.{◌≡◌, ◌<◌, ◌≤◌, map, length};
    ghost use Rattle.std.specs.Arc.{arc_value};
    ghost use Rattle.lr_nodes.specs.Machine.{run};
    ghost use Rattle.lr_nodes.specs.Served.{Seen};

    ghost Value = { Seen };

    ghost view = { λ s. record { capacity = s.capacity; log = s.log.items } };

    ghost invariant = { λ s. (0 < s.capacity) × (length s.stripes.items ≤ s.capacity) × (map arc_value s.stripes.items ≡ run s.capacity s.log.items) };
}

impl Node {
    ghost use Rattle.lr_nodes.specs.declared.call.NodeCall.TheVariants.{Get, Put, Drop, Flip, Lose};
    ghost use Rattle.lr_nodes.specs.Machine.{run, NodeStep};
    ghost use Rattle.lr_nodes.specs.Served.{Seen, Serves, Misses};

    /// An empty node for so many stripes, at least one.
    pub fn new(alloc: Global, capacity: u32) -> Result<Node, OutOfMemory>
        requires { 0 < capacity }
        ensures { IfOk result (λ n. n ≡ record { capacity = capacity; log = [] }) }
    {
        Ok(Node {
            capacity,
            stripes: Vec::new(alloc),
            log: Vec::new(alloc),
        })
    }

    fn get(&mut self, caller: u32, name: Name, index: u8) -> NodeReply
        ensures answered { NodeStep (run self.old.capacity self.old.log) (Get name index) result }
        ensures kept { Serves self.old self.new caller (Get name index) result }
    {
        let Some(at) = place_of(self.stripes.as_slice(), &name, index) else {
            return self.absent(caller, NodeCall::Get { name, index });
        };
        let Ok(told) = owner_of(self.stripes.as_slice(), at) else {
            return NodeReply::OutOfMemory;
        };
        let Ok(kept) = owner_of(self.stripes.as_slice(), at) else {
            return NodeReply::OutOfMemory;
        };
        if self.log.reserve(1).is_err() {
            return NodeReply::OutOfMemory;
        }
        raise(&mut self.stripes, at);
        self.log.push_reserved(Entry {
            caller,
            call: NodeCall::Get { name, index },
            reply: NodeReply::Found(kept),
        });
        NodeReply::Found(told)
    }

    fn put(&mut self, caller: u32, stripe: Arc<Stripe>) -> NodeReply
        ensures answered { NodeStep (run self.old.capacity self.old.log) (Put stripe) result }
        ensures kept { Serves self.old self.new caller (Put stripe) result }
    {
        let Ok(kept) = Arc::try_clone(&stripe) else {
            return NodeReply::OutOfMemory;
        };
        if self.stripes.reserve(1).is_err() || self.log.reserve(1).is_err() {
            return NodeReply::OutOfMemory;
        }
        take_out_first(&mut self.stripes, &stripe.name, stripe.index);
        put_first(&mut self.stripes, self.capacity as usize, kept);
        self.log.push_reserved(Entry {
            caller,
            call: NodeCall::Put { stripe },
            reply: NodeReply::Kept,
        });
        NodeReply::Kept
    }

    fn drop_stripe(&mut self, caller: u32, name: Name, index: u8) -> NodeReply
        ensures answered { NodeStep (run self.old.capacity self.old.log) (Drop name index) result }
        ensures kept { Serves self.old self.new caller (Drop name index) result }
    {
        let Some(at) = place_of(self.stripes.as_slice(), &name, index) else {
            return self.absent(caller, NodeCall::Drop { name, index });
        };
        if self.log.reserve(1).is_err() {
            return NodeReply::OutOfMemory;
        }
        take_out(&mut self.stripes, at);
        self.log.push_reserved(Entry {
            caller,
            call: NodeCall::Drop { name, index },
            reply: NodeReply::Dropped,
        });
        NodeReply::Dropped
    }

    fn flip(&mut self, alloc: Global, caller: u32, name: Name, index: u8, at: u32) -> NodeReply
        ensures answered { NodeStep (run self.old.capacity self.old.log) (Flip name index at) result }
        ensures kept { Serves self.old self.new caller (Flip name index at) result }
    {
        let Some(place) = place_of(self.stripes.as_slice(), &name, index) else {
            return self.absent(caller, NodeCall::Flip { name, index, at });
        };
        let Ok(changed) = flipped(alloc, &self.stripes[place], at) else {
            return NodeReply::OutOfMemory;
        };
        if self.log.reserve(1).is_err() {
            return NodeReply::OutOfMemory;
        }
        put_at(&mut self.stripes, place, changed);
        self.log.push_reserved(Entry {
            caller,
            call: NodeCall::Flip { name, index, at },
            reply: NodeReply::Flipped,
        });
        NodeReply::Flipped
    }

    fn lose(&mut self, caller: u32) -> NodeReply
        ensures answered { NodeStep (run self.old.capacity self.old.log) Lose result }
        ensures kept { Serves self.old self.new caller Lose result }
    {
        if self.log.reserve(1).is_err() {
            return NodeReply::OutOfMemory;
        }
        let count = self.stripes.len() as u32;
        self.stripes.truncate(0);
        self.log.push_reserved(Entry {
            caller,
            call: NodeCall::Lose,
            reply: NodeReply::Lost(count),
        });
        NodeReply::Lost(count)
    }

    // A call on a stripe that isn't there.
    fn absent(&mut self, caller: u32, call: NodeCall) -> NodeReply
        requires { Misses (run self.old.capacity self.old.log) call }
        ensures answered { NodeStep (run self.old.capacity self.old.log) call result }
        ensures kept { Serves self.old self.new caller call result }
    {
        if self.log.reserve(1).is_err() {
            return NodeReply::OutOfMemory;
        }
        self.log.push_reserved(Entry {
            caller,
            call,
            reply: NodeReply::Absent,
        });
        NodeReply::Absent
    }
}

impl Object for Node {
    ghost use Rattle.lr_nodes.specs.Machine.{run, is_logged, May, NodeStep, Enters};

    type Call = NodeCall;

    type Noted = NodeCall;

    type Reply = NodeReply;

    type Told = NodeReply;

    type Fixed = u32;

    ghost log = { λ s. s.log };

    ghost fixed = { λ s. s.capacity };

    ghost unchanged = { λ old new. new ≡ old };

    ghost may = { May };

    ghost opens = { λ _. Unit {0} };

    ghost shares = { λ _. Unit {0} };

    ghost logged = { is_logged };

    ghost answers = { λ capacity log _ call reply. NodeStep (run capacity log) call reply };

    ghost enters = { λ _ _ _ call reply e. Enters call reply e };

    fn apply(&mut self, alloc: Global, caller: u32, call: NodeCall) -> NodeReply {
        match call {
            NodeCall::Get { name, index } => self.get(caller, name, index),
            NodeCall::Put { stripe } => self.put(caller, stripe),
            NodeCall::Drop { name, index } => self.drop_stripe(caller, name, index),
            NodeCall::Flip { name, index, at } => self.flip(alloc, caller, name, index, at),
            NodeCall::Lose => self.lose(caller),
        }
    }

    fn entries(&self) -> u64 {
        self.log.len() as u64
    }

    fn entry(&self, at: u64) -> Option<&Entry<NodeCall, NodeReply>> {
        self.log.get(at as usize)
    }
}
