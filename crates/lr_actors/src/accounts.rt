//! Laws of what an actor did, as contracts of functions that do nothing: its account grows with its lists, and ends as a trail.
ghost use Rattle.std.specs.Prelude.{◌≡◌, List, [], ◌∷◌, length, Some, slice_get};
ghost use Rattle.lr_walk.specs.declared.trail.JobResult.{JobResult};
ghost use Rattle.lr_walk.specs.declared.trail.Did.{Did};
ghost use Rattle.lr_walk.specs.Steps.{Step, Reply, is_memory};
ghost use Rattle.lr_walk.specs.Jobs.{Context};
ghost use Rattle.lr_walk.specs.Trails.{Lists, Reads};
ghost use Rattle.lr_actors.specs.declared.running.Running.{Running};
ghost use Rattle.lr_actors.specs.Asked.{Adds};
ghost use Rattle.lr_actors.specs.Running.{asked, Went};
ghost use Rattle.lr_actors.specs.Jobs.{Job, WalksJob};
ghost use Rattle.lr_actors.specs.Records.{HasTrail};
ghost use Rattle.lr_actors.specs.Accounts.{Grows, Account, with_step, with_result, Stands, StandsAt};

/// With a step of the job under way, the list of the called object grows by it, or the object found no memory: the account,
/// with the step's place in its path, stands for the lists after it, and the job for the steps of its path. After Busy nothing is added.
pub fn accounts_grow()
    ensures more { (context : Context) (lists after : Lists) (jobs : List Job) (a : Account) (s : Step) → Stands context lists jobs a → Grows (is_memory s.reply) lists after s → Stands context after jobs (with_step a s) }
    ensures under_way { (context : Context) (lists after : Lists) (jobs : List Job) (a : Account) (s : Step) (old new : Running) (reply : Reply) → Stands context lists jobs a → Grows (is_memory s.reply) lists after s → Went old reply new → Adds (asked old) reply (s ∷ []) → StandsAt lists a.path old → StandsAt after (with_step a s).path new }
    ensures busy { (lists : Lists) (path : List Did) (old new : Running) (reply : Reply) → Went old reply new → Adds (asked old) reply [] → StandsAt lists path old → StandsAt lists path new }
{}

/// A new account stands for empty lists. With the result of the job under way, whose path reads as its walk, it stands for the
/// same lists; with all results it is a trail.
pub fn accounts_end_as_trails()
    ensures new { (context : Context) (jobs : List Job) → Stands context (λ o. []) jobs (record { results = []; path = [] }) }
    ensures ends { (context : Context) (lists : Lists) (jobs : List Job) (a : Account) (job : Job) (r : JobResult) (steps : List Step) → Stands context lists jobs a → slice_get jobs (length a.results) ≡ Some job → r.path.items ≡ a.path → Reads lists a.path steps → WalksJob context job steps r.answer → Stands context lists jobs (with_result a r) }
    ensures trail { (context : Context) (lists : Lists) (jobs : List Job) (results : List JobResult) → Stands context lists jobs (record { results = results; path = [] }) → length jobs ≡ length results → HasTrail context lists jobs results }
{}
