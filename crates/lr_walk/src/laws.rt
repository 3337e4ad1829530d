//! Laws, as contracts of functions that do nothing: each reply of an object is one of its table, and its log keeps the
//! call and the reply.
ghost use Rattle.std.specs.Prelude.{◌≡◌, ℕ, List};
ghost use Rattle.lr_stripe.specs.declared.stripe.Stripe.{Stripe};
ghost use Rattle.lr_rules.specs.State.{State};
ghost use Rattle.lr_depot.specs.declared.call.DepotCall.{DepotCall as AskedOfDepot};
ghost use Rattle.lr_depot.specs.declared.call.DepotReply.{DepotReply as ToldByDepot};
ghost use Rattle.lr_depot.specs.Machine.{LogEntry, DepotStep, Enters};
ghost use Rattle.lr_cache.specs.declared.call.CacheCall.{CacheCall as AskedOfCache};
ghost use Rattle.lr_cache.specs.declared.call.CacheReply.{CacheReply as ToldByCache};
ghost use Rattle.lr_cache.specs.Machine as cache;
ghost use Rattle.lr_nodes.specs.declared.call.NodeCall.{NodeCall as AskedOfNode};
ghost use Rattle.lr_nodes.specs.declared.call.NodeReply.{NodeReply as ToldByNode};
ghost use Rattle.lr_nodes.specs.Machine as node;
ghost use Rattle.lr_device.specs.declared.step.DeviceStep.{DeviceStep as AskedOfDevice};
ghost use Rattle.lr_device.specs.declared.step.DeviceAnswer.{DeviceAnswer as ToldByDevice};
ghost use Rattle.lr_device.specs.Machine as device;
ghost use Rattle.lr_device.specs.Answers.{Answers as DeviceTable};
ghost use Rattle.lr_device.specs.Enters.{Enters as DeviceEnters};
ghost use Rattle.lr_walk.specs.Device as devices;
ghost use Rattle.lr_walk.specs.Depot as depots;
ghost use Rattle.lr_walk.specs.Cache as caches;
ghost use Rattle.lr_walk.specs.Node as nodes;

/// Of a depot.
pub fn depot_answers_by_its_table()
    ensures answers { (s : State) (c : ℕ) (asked : AskedOfDepot) (reply : ToldByDepot) → DepotStep s c asked reply → depots.Answers (depots.seen_call asked) (depots.seen_reply reply) }
    ensures kept { (asked : AskedOfDepot) (reply : ToldByDepot) (e : LogEntry) → Enters asked reply e → depots.step_of e ≡ depots.step (depots.seen_call asked) (depots.seen_reply reply) }
{}

/// Of a cache. A chunk that it gives has the name that was asked.
pub fn cache_answers_by_its_table()
    ensures answers { (s : cache.State) (c : ℕ) (asked : AskedOfCache) (reply : ToldByCache) → cache.CacheStep s c asked reply → caches.Answers (caches.seen_call asked) (caches.seen_reply reply) }
    ensures kept { (asked : AskedOfCache) (reply : ToldByCache) (e : cache.LogEntry) → cache.Enters asked reply e → caches.step_of e ≡ caches.step (caches.seen_call asked) (caches.seen_reply reply) }
{}

/// Of a node. A stripe that it gives has the name and the index that were asked.
pub fn node_answers_by_its_table()
    ensures answers { (stripes : List Stripe) (asked : AskedOfNode) (reply : ToldByNode) → node.NodeStep stripes asked reply → nodes.Answers (nodes.seen_call asked) (nodes.seen_reply reply) }
    ensures kept { (asked : AskedOfNode) (reply : ToldByNode) (e : node.LogEntry) → node.Enters asked reply e → nodes.step_of e ≡ nodes.step (nodes.seen_call asked) (nodes.seen_reply reply) }
{}

/// Of a device. Of a commit that was made, its log keeps some of the pieces that were handed in.
pub fn device_answers_by_its_table()
    ensures answers { (size : ℕ) (log : List device.LogEntry) (c : ℕ) (asked : AskedOfDevice) (reply : ToldByDevice) → DeviceTable size log c asked reply → devices.AnswersAsked (devices.seen_call asked) (devices.seen_reply reply) }
    ensures kept { (size : ℕ) (log : List device.LogEntry) (c : ℕ) (asked : AskedOfDevice) (reply : ToldByDevice) (e : device.LogEntry) → DeviceEnters size log c asked reply e → devices.Keeps (devices.seen_call asked) (devices.seen_reply reply) (devices.seen_noted e.call) × (devices.seen_reply e.reply ≡ devices.seen_reply reply) }
{}
