//! Laws, as contracts of functions that do nothing: what machines stand for at their ends are walks of jobs, migrations end, and sweeps may stop.
ghost use Rattle.std.specs.Prelude.{◌≡◌, ℕ, List, [], Some, None, slice_get};
ghost use Rattle.lr_manifest.specs.declared.name.Name.{Name};
ghost use Rattle.lr_device.specs.declared.call.DeviceCall.{DeviceCall};
ghost use Rattle.lr_walk.specs.declared.trail.Answer.{Answer};
ghost use Rattle.lr_walk.specs.declared.trail.Answer.TheVariants.{NoChunk, Memory};
ghost use Rattle.lr_walk.specs.Steps.{Step};
ghost use Rattle.lr_walk.specs.Stripes.{node_at};
ghost use Rattle.lr_walk.specs.Calls.{DevicePlace};
ghost use Rattle.lr_walk.specs.Jobs.{Context};
ghost use Rattle.lr_collector.specs.declared.collect.CollectJob.{CollectJob};
ghost use Rattle.lr_collector.specs.declared.collect.CollectJob.TheVariants.{Sweep};
ghost use Rattle.lr_collector.specs.Progress as collections;
ghost use Rattle.lr_actors.specs.declared.single.Single.TheVariants.{Evict, Drop, Flip, Lose, Close};
ghost use Rattle.lr_actors.specs.Singles.{MakesOne};
ghost use Rattle.lr_actors.specs.Serving.{Serves};
ghost use Rattle.lr_actors.specs.Forging.{Forging};
ghost use Rattle.lr_actors.specs.Collecting.{Collecting, StandsFor, Stops};
ghost use Rattle.lr_actors.specs.Migrating.{Migrating};
ghost use Rattle.lr_actors.specs.Creating.{Creating};
ghost use Rattle.lr_actors.specs.Jobs.{Job, calls, creates, migrates, collects, closes, evicts, drops_stripe, flips_stripe, forges, loses, WalksJob};
ghost use Rattle.lr_walk.specs.Depot.{Reply as DepotReply};
ghost use Rattle.lr_migrator.specs.Progress as migrations;
ghost use Rattle.lr_actors.specs.Bounds.{MovesNear};
ghost use Rattle.lr_actors.specs.Damaged.{IsAt, IsDamage};

/// Of the jobs that call a device or the depot.
pub fn calls_are_jobs()
    ensures calls { (context : Context) (device : ℕ) (place : DevicePlace) (call : DeviceCall) (steps : List Step) (answer : Answer) → IsAt context device place → Serves (record { nodes = context.nodes; device = device; place = place; call = call }) steps answer → WalksJob context (calls device call) steps answer }
    ensures creates { (context : Context) (image tenant raw : List ℕ) (steps : List Step) (answer : Answer) → Creating image tenant raw steps answer → WalksJob context (creates image tenant raw) steps answer }
    // Where no memory is found to begin a job, no step is made.
    ensures unmade { (context : Context) (job : Job) → WalksJob context job [] Memory }
    ensures migrates { (context : Context) (image : List ℕ) (steps : List Step) (answer : Answer) → Migrating image steps answer → WalksJob context (migrates image) steps answer }
    ensures collects { (context : Context) (job : CollectJob) (steps : List Step) (answer : Answer) → Collecting job steps answer → WalksJob context (collects job) steps answer }
    ensures closes { (context : Context) (device : ℕ) (place : DevicePlace) (steps : List Step) (answer : Answer) → IsAt context device place → MakesOne (Close place.lease) steps answer → WalksJob context (closes device) steps answer }
{}

/// Of the jobs that evict a cache or damage stripes. Past a device's chunks nothing is done.
pub fn damages_are_jobs()
    ensures evicts { (context : Context) (host : ℕ) (steps : List Step) (answer : Answer) → MakesOne (Evict host) steps answer → WalksJob context (evicts host) steps answer }
    ensures loses { (context : Context) (node : ℕ) (steps : List Step) (answer : Answer) → MakesOne (Lose node) steps answer → WalksJob context (loses node) steps answer }
    ensures drops { (context : Context) (index device chunk : ℕ) (place : DevicePlace) (name : Name) (steps : List Step) (answer : Answer) → IsAt context device place → slice_get place.names chunk ≡ Some name → MakesOne (Drop (node_at name index context.nodes) name index) steps answer → WalksJob context (drops_stripe index device chunk) steps answer }
    ensures flips { (context : Context) (index device chunk at : ℕ) (place : DevicePlace) (name : Name) (steps : List Step) (answer : Answer) → IsAt context device place → slice_get place.names chunk ≡ Some name → MakesOne (Flip (node_at name index context.nodes) name index at) steps answer → WalksJob context (flips_stripe index device chunk at) steps answer }
    ensures forges { (context : Context) (device chunk : ℕ) (place : DevicePlace) (name : Name) (steps : List Step) (answer : Answer) → IsAt context device place → slice_get place.names chunk ≡ Some name → Forging (record { nodes = context.nodes; name = name }) steps answer → WalksJob context (forges device chunk) steps answer }
    ensures past { (context : Context) (device chunk : ℕ) (place : DevicePlace) (job : Job) → IsAt context device place → slice_get place.names chunk ≡ None → IsDamage device chunk job → WalksJob context job [] NoChunk }
{}

/// A migration of c chunks makes at most 2c + 3 steps: its beginning, two for each chunk, and two more.
pub fn migrations_near_their_end()
    ensures { (p : migrations.Progress) (reply : DepotReply) → migrations.Admits p reply → MovesNear p.need reply }
{}

/// A sweep that asks for a further key has made removals alone, and may stop there for want of memory.
pub fn sweeps_may_stop()
    ensures { (p : collections.Progress) (steps : List Step) (root count : ℕ) → StandsFor p steps → p.need ≡ collections.asking count → p.job ≡ Sweep root → Stops p.job steps Memory }
{}
