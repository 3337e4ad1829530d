//! What holds of every depot, whatever its callers and its store do.
ghost use Rattle.std.specs.Prelude.{◌≡◌, ◌≤◌, ◌<◌, ◌++◌, ℕ, List, [], ◌∷◌, Option, Some, slice_get};
ghost use Rattle.std.specs.Arc.{arc_value};
ghost use Rattle.std.specs.declared.sync.Arc.{Arc};
ghost use Rattle.std.specs.declared.alloc.Global.{Global};
ghost use Rattle.std.specs.FinMap as map;
ghost use Rattle.lr_manifest.specs.Manifest.{ManifestFields};
ghost use Rattle.lr_manifest.specs.declared.name.Name.{Name as PlainName};
ghost use Rattle.lr_origin.specs.declared.key.KeyKind.TheVariants as kind;
ghost use Rattle.lr_roots.specs.View.{Has, Lacks};
ghost use Rattle.lr_rules.specs.State.{Job, Creates, Moves, Holds, target};
ghost use Rattle.lr_depot.specs.declared.call.DepotNoted.TheVariants as noted;
ghost use Rattle.lr_depot.specs.declared.call.DepotTold.TheVariants as told;
ghost use Rattle.lr_depot.specs.Lasting.{LeavesSession, IsSureSession, LeavesLease, TellsFaultAt};
ghost use Rattle.lr_origin.specs.Objects.{Objects};
ghost use Rattle.lr_origin.specs.declared.key.KeyKind.{KeyKind as Kind};
ghost use Rattle.lr_roots.specs.Roots.{IsHomed};
ghost use Rattle.lr_opening.specs.Store.{HasChunks, IsSoundStore};
ghost use Rattle.lr_rules.specs.Parts.{HasParts};
ghost use Rattle.lr_depot.specs.declared.call.DepotCall.{DepotCall as Call};
ghost use Rattle.lr_depot.specs.declared.call.DepotReply.TheVariants.{Spoiled};
ghost use Rattle.lr_depot.specs.Begun.{Start};
ghost use Rattle.lr_depot.specs.Machine.{LogEntry, DepotStep};
ghost use Rattle.lr_depot.specs.Store.{StoreStep, IsRun, LeadsTo};
ghost use Rattle.lr_depot.specs.Owed.{IsOwed};
ghost use Rattle.lr_depot.specs.Drawn.{number_told};
ghost use Rattle.lr_depot.specs.Depot.{IsStart, LedTo, KeepsStore, first_state, state};

/// After every log that a depot can have, the view is sound, so each manifest of a live root is complete, and the other
/// parts of the promise hold. Every owed image has a home that is active or retired.
pub fn calls_keep_the_promise()
    ensures parts { (start : Start) (log : List LogEntry) → IsStart start → IsRun (first_state start) log → HasParts (state start log) }
    ensures homed { (start : Start) (log : List LogEntry) → IsStart start → IsRun (first_state start) log → (image : List ℕ) → IsOwed (first_state start) log image → IsHomed (state start log).known.view image }
{}

/// A sound store stays sound, whichever of its calls fail and with or without their effect. Its keys differ from the
/// view's only at keys in doubt, and no call finds it spoiled.
pub fn store_stays_sound()
    ensures sound { (start : Start) (m n : Objects) (log : List LogEntry) → LedTo start m log n → HasChunks m → IsSoundStore n }
    ensures kept { (start : Start) (m n : Objects) (log : List LogEntry) → LedTo start m log n → KeepsStore start log n }
    ensures unspoiled { (start : Start) (m n : Objects) (log : List LogEntry) → LedTo start m log n → HasChunks m → (c : ℕ) (call : Call) (k : Kind) (o : Option Objects) → DepotStep (state start log) c call (Spoiled k) → StoreStep (state start log) c call (Spoiled k) n o → ⊥ }
{}

/// A log can be cut anywhere: its front leads to objects that keep what is promised, and the rest leads on from these.
pub fn logs_can_be_cut()
    ensures { (start : Start) (m n : Objects) (front rest : List LogEntry) → LedTo start m (front ++ rest) n → (k : Objects) × LedTo start m front k × LeadsTo (state start front) k rest n × KeepsStore start front k }
{}

/// Creation numbers are above every one found at the start, and each is above those drawn before it.
pub fn numbers_are_drawn_once()
    ensures above { (start : Start) (log : List LogEntry) → IsRun (first_state start) log → (i : ℕ) (e : LogEntry) (a : ℕ) → slice_get log i ≡ Some e → number_told e.reply ≡ Some a → start.number ≤ a }
    ensures apart { (start : Start) (log : List LogEntry) → IsRun (first_state start) log → (i j : ℕ) (e f : LogEntry) (a b : ℕ) → i < j → slice_get log i ≡ Some e → slice_get log j ≡ Some f → number_told e.reply ≡ Some a → number_told f.reply ≡ Some b → (start.number ≤ a) × (a < b) }
{}

/// A session is held with its job from the entry that begins it to one that ends it, where no put of its manifest failed.
/// After such a fault a look at the store may end it.
pub fn sessions_last()
    ensures begun { (start : Start) (log : List LogEntry) (e : LogEntry) (image : List ℕ) (session root : ℕ) (bytes : List ℕ) (number : ℕ) → IsRun (first_state start) (log ++ e ∷ []) → e.call ≡ noted.BeginCreate image → e.reply ≡ told.Began session root bytes number → Holds (state start (log ++ e ∷ [])) session e.caller (Creates image root number) }
    ensures moving { (start : Start) (log : List LogEntry) (e : LogEntry) (image : List ℕ) (session from to : ℕ) (m : Arc ManifestFields Global) → IsRun (first_state start) (log ++ e ∷ []) → e.call ≡ noted.BeginMigrate image → e.reply ≡ told.Moving session from to m → Holds (state start (log ++ e ∷ [])) session e.caller (Moves image from to (arc_value m)) }
    ensures held { (start : Start) (log more : List LogEntry) (n c : ℕ) (j : Job) → IsStart start → IsRun (first_state start) (log ++ more) → Holds (state start log) n c j → LeavesSession more n c → IsSureSession (log ++ more) n c → Holds (state start (log ++ more)) n c j }
{}

/// A lease is out, on its image with its manifest, from the entry that opens it to the one that closes it.
pub fn leases_last()
    ensures opened { (start : Start) (log : List LogEntry) (e : LogEntry) (image : List ℕ) (lease : ℕ) (m : Arc ManifestFields Global) → IsRun (first_state start) (log ++ e ∷ []) → e.call ≡ noted.OpenImage image → e.reply ≡ told.Opened lease m → map.get (state start (log ++ e ∷ [])).desk.leases lease ≡ Some (image, arc_value m) }
    ensures out { (start : Start) (log more : List LogEntry) (lease : ℕ) (image : List ℕ) (m : ManifestFields) → IsStart start → IsRun (first_state start) (log ++ more) → map.get (state start log).desk.leases lease ≡ Some (image, m) → LeavesLease more lease → map.get (state start (log ++ more)).desk.leases lease ≡ Some (image, m) }
{}

/// A chunk that was put is there in the root of its session, until the root is deleted. A key in doubt has an entry that
/// tells of its fault.
pub fn keys_last()
    ensures put { (start : Start) (log : List LogEntry) (e : LogEntry) (n : ℕ) (name : PlainName) (j : Job) → IsRun (first_state start) (log ++ e ∷ []) → e.call ≡ noted.PutChunk n name → e.reply ≡ told.Kept → Holds (state start log) n e.caller j → Has (state start (log ++ e ∷ [])).known.view (kind.Chunk (target j) name.bytes) }
    ensures there { (start : Start) (log more : List LogEntry) (r : ℕ) (name : List ℕ) → IsStart start → IsRun (first_state start) (log ++ more) → Has (state start log).known.view (kind.Chunk r name) → Lacks (state start (log ++ more)).known.view (kind.Deleted r) → Has (state start (log ++ more)).known.view (kind.Chunk r name) }
    ensures doubted { (start : Start) (log : List LogEntry) (k : Kind) → IsRun (first_state start) log → Has (state start log).known.doubts k → TellsFaultAt log k }
{}
