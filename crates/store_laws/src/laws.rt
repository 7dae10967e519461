//! The laws of a store over two generations, through all its lives. They speak of definitions alone.
ghost use Rattle.std.specs.Prelude.{◌≡◌, ◌≤◌, ◌<◌, ◌⊎◌, ◌+◌, ◌-◌, ℕ, suc, Bool, true, false, List, [], ◌∷◌, ◌++◌, length, take, Option, Some, None};
ghost use Rattle.disk_model.specs.declared.call.DeviceCall.{DeviceCall};
ghost use Rattle.disk_model.specs.declared.call.DeviceCall.TheVariants.{Sync};
ghost use Rattle.checkpoint_store.specs.Slots.{generation_of};
ghost use Rattle.store_form.specs.Spelling.{IsGroup};
ghost use Rattle.store_form.specs.declared.checkpoint.Checkpoint.{Checkpoint};
ghost use Rattle.store_laws.specs.Restored.{Images, log_image, side_of, present_in, restores, switched};
ghost use Rattle.store_laws.specs.States.{StoreState, greatest, is_torn, Begun, NoJob, Switch, is_due, wants_tail, given, asked, due_job, begins, begun, call_of, ending_of, firm_by, job_called, store_called, MayLeave, devices_during, store_opened};
ghost use Rattle.store_laws.specs.Lives.{StoreWire, StoreNext, Either, no_bytes, nothing};
ghost use Rattle.store_laws.specs.Runs.{called_times, CallFits, RunFits, CallLeaves, RunLeaves, aim_begun, aim_then};
ghost use Rattle.store_laws.specs.Tails.{aimed_at, tail_after, stake_before, SwitchesBy, HasSwitched, next_of, SwitchWaits, SwitchGoes, SwitchComes, SwitchEnded, run_tail, SwitchesFrom, SwitchNow, SwitchBegan};
ghost use Rattle.store_laws.specs.Firm.{not_firm, GroupAdds, SameEntries, KeepsCount, GroupCounts, SwitchCounts, KeepsWhatBecameFirm, Firms};
ghost use Rattle.store_laws.specs.declared.job.Device.{Device};
ghost use Rattle.store_laws.specs.Stands.{Aim, at_rest, Leaves, Runs, IsRead, AnyRests, OwnRests, StoreStands, IsOwn, instead, aim_called, aim_after, aim_begins, HasSpelling, KeptOrNew, Switching};
ghost use Rattle.store_laws.specs.Stakes.{StakesIn, Stakes, LeftBy};
ghost use Rattle.store_laws.specs.Logs.{log_of, next_log, MakesBy, Logs, written_by, ended_by, written_then, ended_then, LogGoes, counted, TailCounts};
ghost use Rattle.store_laws.specs.Asked.{IsOneOf, Snapshot, Snapshots};
ghost use Rattle.store_laws.specs.Counts.{BeginsWith, Counts, CountsBy, gone_after};
ghost use Rattle.store_laws.specs.Books.{Books, BooksBy, IsFront};
ghost use Rattle.store_laws.specs.Unswitched.{never, IsUnswitched};
ghost use Rattle.store_laws.specs.declared.job.Ending.TheVariants.{Closes, Repairs, Adds, Switches};
ghost use Rattle.store_laws.specs.declared.job.Kept.{Kept};
ghost use Rattle.store_laws.specs.declared.job.Tail.{Tail};
ghost use Rattle.store_laws.specs.declared.job.StoreCall.{StoreCall};
ghost use Rattle.store_laws.specs.declared.job.StoreCall.TheVariants.{On};

/// A crash now leaves bytes with which the next life begins. It keeps what this life kept, or what
/// was at stake, and may restore no third thing.
pub fn a_crash_leaves_a_store()
    ensures lives { (s : StoreState) (a : Aim) → IsOwn s a → Leaves StoreNext s.devices a }
    ensures either { (s : StoreState) (a : Aim) → IsOwn s a → Leaves Either s.devices a }
{}

/// A crash during a call, whether the call goes well or fails, leaves what one before the call may
/// leave, or one after it. After the call the store stands for what is named then. A crash during a
/// sync leaves what one before it may leave.
pub fn a_crash_during_a_call()
    ensures during { (s : StoreState) (a : Aim) (tail : Tail) (call : StoreCall) (left : List StoreCall) → IsGroup tail.entries → Runs StoreNext OwnRests (call ∷ left) s a
        → (images : Images) → MayLeave (devices_during tail (call ∷ left) s) images
        → StoreNext images a.kept a.stake
        ⊎ ((other : Kept) × (IsOwn (job_called tail (call ∷ left) s) (aim_after left other (aim_called tail call left a))
        × StoreNext images (aim_after left other (aim_called tail call left a)).kept (aim_after left other (aim_called tail call left a)).stake)) }
    ensures sync { (s : StoreState) (a : Aim) (tail : Tail) (call : StoreCall) (left : List StoreCall) → call_of tail call ≡ Sync → Runs StoreNext OwnRests (call ∷ left) s a
        → (images : Images) → MayLeave (devices_during tail (call ∷ left) s) images → StoreNext images a.kept a.stake }
{}

/// The next device call of a store, with the job that may begin at it. It leaves a store that stands
/// for what is named then. A crash before it or at a moment of it leaves bytes with which the next
/// life begins. They restore what is kept or at stake before the call, or after it.
pub fn a_crash_at_any_moment()
    ensures goes { (stops : List ℕ → Bool) (tail : Tail) (s : StoreState) (a : Aim) → IsOwn s a → CallFits stops tail s → (other : Kept) × IsOwn (store_called stops tail s) (aim_then stops tail other s a) }
    ensures leaves { (stops : List ℕ → Bool) (tail : Tail) (s : StoreState) (a : Aim) → IsOwn s a → (images : Images) → CallLeaves stops tail s images
        → StoreNext images a.kept a.stake
        ⊎ ((other : Kept) × (IsOwn (store_called stops tail s) (aim_then stops tail other s a) × StoreNext images (aim_then stops tail other s a).kept (aim_then stops tail other s a).stake)) }
    ensures restores { (stops : List ℕ → Bool) (tail : Tail) (s : StoreState) (a : Aim) → IsOwn s a → (images : Images) → CallLeaves stops tail s images
        → Either images a.kept a.stake
        ⊎ ((other : Kept) × (IsOwn (store_called stops tail s) (aim_then stops tail other s a) × Either images (aim_then stops tail other s a).kept (aim_then stops tail other s a).stake)) }
    // The same over any bytes.
    ensures any_goes { (stops : List ℕ → Bool) (tail : Tail) (s : StoreState) (a : Aim) → StoreStands s a → CallFits stops tail s → (other : Kept) × StoreStands (store_called stops tail s) (aim_then stops tail other s a) }
    ensures any_restores { (stops : List ℕ → Bool) (tail : Tail) (s : StoreState) (a : Aim) → StoreStands s a → (images : Images) → CallLeaves stops tail s images
        → Either images a.kept a.stake
        ⊎ ((other : Kept) × (StoreStands (store_called stops tail s) (aim_then stops tail other s a) × Either images (aim_then stops tail other s a).kept (aim_then stops tail other s a).stake)) }
{}

/// A job that begins, and the next call of a job, leave a store that only crashes of its own lives
/// have changed. What it stands for then is named.
pub fn a_store_goes_on()
    ensures begins { (stops : List ℕ → Bool) (s : StoreState) (a : Aim) → s.running ≡ [] → IsOwn s a → HasSpelling (due_job stops s)
        → IsOwn (begins (due_job stops s) s) (aim_begins (due_job stops s) s a) }
    ensures goes { (s : StoreState) (a : Aim) (tail : Tail) (call : StoreCall) (left : List StoreCall) → IsGroup tail.entries → Runs StoreNext OwnRests (call ∷ left) s a
        → (other : Kept) × IsOwn (job_called tail (call ∷ left) s) (aim_after left other (aim_called tail call left a)) }
{}

/// The bytes that a crash leaves restore what is claimed of them, and open as such a store. Empty
/// devices are one, which keeps nothing.
pub fn a_store_is_opened()
    ensures restores { (images : Images) (kept other : Kept) → StoreWire images kept other → restores images ≡ kept }
    ensures opened { (images : Images) (kept other : Kept) (next : Checkpoint) → StoreWire images kept other → IsOwn (store_opened images) (at_rest kept other next) }
    ensures empty { StoreWire no_bytes nothing nothing }
{}

/// While a store switches, a crash between two of its calls restores what was kept, or the new
/// generation with the entries of some tail. `a_switch_gives_its_tail` says which tail, and when.
pub fn a_switch_keeps_or_gives()
    ensures begins { (s : StoreState) (a : Aim) (snapshot : List ℕ) → Switching a.kept (record { generation = s.generation + 1; snapshot = snapshot }) (aim_begins (Switch snapshot) s a) }
    ensures goes { (kept : Kept) (next : Checkpoint) (a : Aim) (tail : Tail) (call : StoreCall) (left : List StoreCall) → Switching kept next a → Switching kept next (aim_called tail call left a) }
    ensures crash { (kept : Kept) (next : Checkpoint) (s : StoreState) (a : Aim) → Switching kept next a → IsOwn s a → (images : Images) → MayLeave s.devices images → KeptOrNew kept next (restores images) }
{}

/// A switch aims at nothing new until its tail is written, and from then on at the new generation
/// with the entries of the tail that was given. At its end the store keeps exactly that, and may
/// restore no other thing. Its number of firm entries counts the tail that was given.
pub fn a_switch_gives_its_tail()
    ensures begins { (stops : List ℕ → Bool) (s : StoreState) (a : Aim) (snapshot : List ℕ) → due_job stops s ≡ Switch snapshot
        → SwitchesBy (begins (Switch snapshot) s).running a.kept (record { generation = s.generation + 1; snapshot = snapshot }) None (begins (Switch snapshot) s) (aim_begins (Switch snapshot) s a) }
    ensures goes { (kept : Kept) (next : Checkpoint) (before : Option Tail) (s : StoreState) (a : Aim) (tail : Tail) (call more : StoreCall) (left : List StoreCall) → SwitchesBy (call ∷ (more ∷ left)) kept next before s a
        → SwitchesBy (more ∷ left) kept next (tail_after tail call before) (job_called tail (call ∷ (more ∷ left)) s) (aim_called tail call (more ∷ left) a) }
    ensures ends { (kept : Kept) (next : Checkpoint) (before : Option Tail) (s : StoreState) (a : Aim) (tail : Tail) (call : StoreCall) (other : Kept) → SwitchesBy (call ∷ []) kept next before s a
        → IsOwn (job_called tail (call ∷ []) s) (aim_after [] other (aim_called tail call [] a))
        → (written : Tail) × ((tail_after tail call before ≡ Some written) × (HasSwitched next written (job_called tail (call ∷ []) s) (aim_after [] other (aim_called tail call [] a))
        × SwitchCounts written.made s (job_called tail (call ∷ []) s))) }
    // A crash before a call: until the last one, the sync of the gate, nothing but `kept` is restored.
    ensures crash { (kept : Kept) (next : Checkpoint) (before : Option Tail) (s : StoreState) (a : Aim) → SwitchesBy s.running kept next before s a → IsOwn s a → (images : Images) → MayLeave s.devices images
        → (restores images ≡ kept) ⊎ (restores images ≡ stake_before s.running kept (aimed_at kept next before)) }
    // A crash during a call.
    ensures during { (kept : Kept) (next : Checkpoint) (before : Option Tail) (s : StoreState) (a : Aim) (tail : Tail) (call : StoreCall) (left : List StoreCall) → IsGroup tail.entries → SwitchesBy (call ∷ left) kept next before s a
        → Runs StoreNext OwnRests (call ∷ left) s a → (images : Images) → MayLeave (devices_during tail (call ∷ left) s) images
        → (restores images ≡ kept) ⊎ (restores images ≡ aimed_at kept next (tail_after tail call before)) }
    // A crash after the switch.
    ensures after { (next : Checkpoint) (written : Tail) (s : StoreState) (a : Aim) → HasSwitched next written s a → IsOwn s a → (images : Images) → MayLeave s.devices images → restores images ≡ switched next written.entries }
{}

/// A store that was asked to switch, over any run of calls that go well. The switch waits or runs
/// until the generation changes. Then the store keeps the next generation, with the snapshot that
/// was asked for and the entries of the tail that the run gives, and may restore no other thing.
pub fn a_run_switches()
    ensures goes { (stops : List ℕ → Bool) (from : ℕ) (snapshot : List ℕ) (tail : Tail) (s : StoreState) (a : Aim) → IsOwn s a → CallFits stops tail s → SwitchGoes from snapshot tail s a
        → (b : Aim) × (IsOwn (store_called stops tail s) b × SwitchComes from snapshot tail (store_called stops tail s) b) }
    // A crash before the next call, or at a moment of it.
    ensures leaves { (stops : List ℕ → Bool) (from : ℕ) (snapshot : List ℕ) (tail : Tail) (s : StoreState) (a : Aim) → IsOwn s a → SwitchGoes from snapshot tail s a
        → (images : Images) → CallLeaves stops tail s images
        → Either images a.kept a.stake ⊎ ((b : Aim) × (IsOwn (store_called stops tail s) b × (SwitchComes from snapshot tail (store_called stops tail s) b × Either images b.kept b.stake))) }
    // After any number of calls it waits or runs, or it ended at one of them.
    ensures comes { (stops : List ℕ → Bool) (from : ℕ) (snapshot : List ℕ) (tail : Tail) (n : ℕ) (s : StoreState) (a : Aim) → IsOwn s a → SwitchGoes from snapshot tail s a → RunFits stops tail n s
        → ((b : Aim) × (IsOwn (called_times stops tail n s) b × SwitchGoes from snapshot tail (called_times stops tail n s) b)) ⊎ SwitchEnded stops from snapshot tail n s }
    ensures stays { (stops : List ℕ → Bool) (from : ℕ) (snapshot : List ℕ) (tail : Tail) (n : ℕ) (s : StoreState) (a : Aim) → IsOwn s a → SwitchGoes from snapshot tail s a → RunFits stops tail n s
        → (called_times stops tail n s).generation ≡ from
        → (b : Aim) × (IsOwn (called_times stops tail n s) b × SwitchGoes from snapshot tail (called_times stops tail n s) b) }
    ensures ends { (stops : List ℕ → Bool) (from : ℕ) (snapshot : List ℕ) (tail : Tail) (n : ℕ) (s : StoreState) (a : Aim) → IsOwn s a → SwitchGoes from snapshot tail s a → RunFits stops tail (suc n) s
        → (called_times stops tail n s).generation ≡ from → (called_times stops tail (suc n) s).generation ≡ from + 1
        → (b : Aim) × (IsOwn (called_times stops tail (suc n) s) b × HasSwitched (next_of from snapshot) tail (called_times stops tail (suc n) s) b) }
{}

/// A whole switch, over any run of calls that go well, from what was kept when it began. While the
/// generation is the old one, the switch goes on from just that. A crash at any moment then restores
/// that, or the next generation with the tail of the switch, and no third thing. After its end each
/// crash restores the next generation. Its tail is the one that the run gives, unless another was
/// written before the run.
pub fn a_whole_switch_keeps_or_gives()
    ensures goes { (stops : List ℕ → Bool) (kept : Kept) (next : Checkpoint) (before : Option Tail) (tail : Tail) (n : ℕ) (s : StoreState) (a : Aim) → IsOwn s a → SwitchesBy s.running kept next before s a → RunFits stops tail n s
        → (called_times stops tail n s).generation ≡ s.generation
        → (b : Aim) × (IsOwn (called_times stops tail n s) b × SwitchesFrom kept next tail (run_tail tail before) (called_times stops tail n s) b) }
    // A switch that runs, and one that is the next job to begin.
    ensures runs { (stops : List ℕ → Bool) (kept : Kept) (next : Checkpoint) (before : Option Tail) (tail : Tail) (s : StoreState) (a : Aim) → SwitchesBy s.running kept next before s a → SwitchNow stops kept next tail (run_tail tail before) s a }
    ensures due { (stops : List ℕ → Bool) (snapshot : List ℕ) (tail : Tail) (s : StoreState) (a : Aim) → s.running ≡ [] → due_job stops s ≡ Switch snapshot → SwitchNow stops a.kept (next_of s.generation snapshot) tail tail s a }
    ensures begins { (stops : List ℕ → Bool) (kept : Kept) (next : Checkpoint) (tail last : Tail) (n : ℕ) (s : StoreState) (a : Aim) → IsOwn s a → SwitchNow stops kept next tail last s a → RunFits stops tail (suc n) s
        → (called_times stops tail (suc n) s).generation ≡ s.generation
        → (b : Aim) × (IsOwn (called_times stops tail (suc n) s) b × SwitchesFrom kept next tail last (called_times stops tail (suc n) s) b) }
    // A crash at any moment of the run, whose last call may have failed.
    ensures leaves { (stops : List ℕ → Bool) (kept : Kept) (next : Checkpoint) (tail last : Tail) (n : ℕ) (s : StoreState) (a : Aim) → IsOwn s a → SwitchNow stops kept next tail last s a → RunFits stops tail n s
        → (called_times stops tail n s).generation ≡ s.generation → (images : Images) → RunLeaves stops tail n s images
        → (restores images ≡ kept) ⊎ (restores images ≡ switched next last.entries) }
    // The call at which the generation changes ends the switch.
    ensures ends { (stops : List ℕ → Bool) (kept : Kept) (next : Checkpoint) (tail last : Tail) (n : ℕ) (s : StoreState) (a : Aim) → IsOwn s a → SwitchNow stops kept next tail last s a → RunFits stops tail (suc n) s
        → (called_times stops tail n s).generation ≡ s.generation → (called_times stops tail (suc n) s).generation ≡ s.generation + 1
        → (b : Aim) × (IsOwn (called_times stops tail (suc n) s) b × HasSwitched next last (called_times stops tail (suc n) s) b) }
    ensures after { (stops : List ℕ → Bool) (kept : Kept) (next : Checkpoint) (tail last : Tail) (n : ℕ) (s : StoreState) (a : Aim) → IsOwn s a → SwitchNow stops kept next tail last s a → RunFits stops tail (suc n) s
        → (called_times stops tail n s).generation ≡ s.generation → (called_times stops tail (suc n) s).generation ≡ s.generation + 1
        → (images : Images) → MayLeave (called_times stops tail (suc n) s).devices images → restores images ≡ switched next last.entries }
    // A switch that waits for other jobs. What is kept may grow by a group until it begins; from then on it stays.
    ensures waits { (stops : List ℕ → Bool) (from : ℕ) (snapshot : List ℕ) (tail : Tail) (n : ℕ) (s : StoreState) (a : Aim) → IsOwn s a → SwitchWaits from snapshot s → RunFits stops tail n s → (called_times stops tail n s).generation ≡ from
        → ((b : Aim) × (IsOwn (called_times stops tail n s) b × SwitchWaits from snapshot (called_times stops tail n s))) ⊎ SwitchBegan stops from snapshot tail n s }
    // A switch that began waits no more.
    ensures unasked { (stops : List ℕ → Bool) (snapshot : List ℕ) (tail : Tail) (n : ℕ) (s : StoreState) → s.running ≡ [] → due_job stops s ≡ Switch snapshot → (called_times stops tail (suc n) s).asked ≡ None }
{}

/// The number of firm entries does not fall.
pub fn what_is_firm_stays_firm()
    ensures rises { (stops : List ℕ → Bool) (tail : Tail) (s : StoreState) → s.firm ≤ greatest → s.firm ≤ (store_called stops tail s).firm }
    ensures few { (stops : List ℕ → Bool) (tail : Tail) (s : StoreState) → s.firm ≤ greatest → (store_called stops tail s).firm ≤ greatest }
{}

/// At a group's end its entries are firm, and no others became so. At a switch's end as many are firm
/// as were before, or as were restored and made up to the number `made` of its tail. Those that became
/// firm wait no more, and are kept only if the tail holds them: clause `tail`. No other call makes any
/// firm. What waits leaves for the group that begins, or because it became firm.
pub fn a_job_counts_what_it_makes()
    ensures group { (tail : Tail) (device : Device) (call : DeviceCall) (s : StoreState) (end : ℕ) → s.ending ≡ Adds end → GroupCounts s (job_called tail (On device call ∷ []) s) }
    ensures switch { (tail : Tail) (call : StoreCall) (s : StoreState) (end made : ℕ) → ending_of tail call s.ending ≡ Switches end made → SwitchCounts made s (job_called tail (call ∷ []) s) }
    // If the tail ends with the entries that it makes firm, these are the last ones that are kept then.
    ensures tail { (kept : Kept) (next : Checkpoint) (before : Option Tail) (s : StoreState) (a : Aim) (tail : Tail) (call : StoreCall) (other : Kept) (written : Tail) (front : List (List ℕ)) → SwitchesBy (call ∷ []) kept next before s a
        → tail_after tail call before ≡ Some written → written.entries ≡ front ++ take (firm_by written.made s - s.firm) s.waiting
        → KeepsWhatBecameFirm s (job_called tail (call ∷ []) s) (aim_after [] other (aim_called tail call [] a)).kept }
    ensures close { (tail : Tail) (device : Device) (call : DeviceCall) (s : StoreState) (odd : Bool) → s.ending ≡ Closes odd → KeepsCount s (job_called tail (On device call ∷ []) s) }
    ensures repair { (tail : Tail) (device : Device) (call : DeviceCall) (s : StoreState) → s.ending ≡ Repairs → KeepsCount s (job_called tail (On device call ∷ []) s) }
    // A call that ends no job.
    ensures goes { (tail : Tail) (call more : StoreCall) (left : List StoreCall) (s : StoreState) → SameEntries s (job_called tail (call ∷ (more ∷ left)) s) }
    // A job begins. If it is a group, its entries are the first of those that waited; else all still wait.
    ensures begins { (stops : List ℕ → Bool) (s : StoreState) → s.running ≡ [] → GroupAdds s → (not_firm (begins (due_job stops s) s) ≡ not_firm s) × GroupAdds (begins (due_job stops s) s) }
    ensures begins_firm { (stops : List ℕ → Bool) (s : StoreState) → (begins (due_job stops s) s).firm ≡ s.firm }
    // Whatever the next call is, no entry is dropped that did not become firm.
    ensures firms { (stops : List ℕ → Bool) (tail : Tail) (s : StoreState) → GroupAdds s → s.firm ≤ greatest → Firms s (store_called stops tail s) }
    ensures adds { (stops : List ℕ → Bool) (tail : Tail) (s : StoreState) → GroupAdds s → GroupAdds (store_called stops tail s) }
    ensures opened { (images : Images) → GroupAdds (store_opened images) }
    ensures given { (s : StoreState) (entries : List (List ℕ)) → GroupAdds s → GroupAdds (given entries s) }
    ensures asked { (s : StoreState) (snapshot : List ℕ) → GroupAdds s → GroupAdds (asked snapshot s) }
{}

/// A store over any bytes. Up to three gates may be torn, and are closed in their order. Until then a
/// crash may restore, too, what a 1 at the gate that is being closed would bring back.
pub fn a_store_over_any_bytes()
    ensures opened { (images : Images) (next : Checkpoint) → IsRead (log_image (side_of (present_in images)) images)
        → StoreStands (store_opened images) (at_rest (restores images) (instead (store_opened images) images) next) }
    ensures crash { (s : StoreState) (a : Aim) → StoreStands s a → Leaves Either s.devices a }
    ensures during { (s : StoreState) (a : Aim) (tail : Tail) (call : StoreCall) (left : List StoreCall) → IsGroup tail.entries → Runs Either AnyRests (call ∷ left) s a
        → (images : Images) → MayLeave (devices_during tail (call ∷ left) s) images
        → Either images a.kept a.stake
        ⊎ ((other : Kept) × (StoreStands (job_called tail (call ∷ left) s) (aim_after left other (aim_called tail call left a))
        × Either images (aim_after left other (aim_called tail call left a)).kept (aim_after left other (aim_called tail call left a)).stake)) }
    ensures sync { (s : StoreState) (a : Aim) (tail : Tail) (call : StoreCall) (left : List StoreCall) → call_of tail call ≡ Sync → Runs Either AnyRests (call ∷ left) s a
        → (images : Images) → MayLeave (devices_during tail (call ∷ left) s) images → Either images a.kept a.stake }
    ensures begins { (stops : List ℕ → Bool) (s : StoreState) (a : Aim) → s.running ≡ [] → StoreStands s a → HasSpelling (due_job stops s)
        → StoreStands (begins (due_job stops s) s) (aim_begins (due_job stops s) s a) }
    ensures goes { (s : StoreState) (a : Aim) (tail : Tail) (call : StoreCall) (left : List StoreCall) → IsGroup tail.entries → Runs Either AnyRests (call ∷ left) s a
        → (other : Kept) × StoreStands (job_called tail (call ∷ left) s) (aim_after left other (aim_called tail call left a)) }
{}

/// A store at rest without a torn gate is one of its own lives, whatever its bytes were, and nothing
/// else is at stake. Each store of its own lives is one over any bytes.
pub fn a_calm_store_is_own()
    ensures own { (s : StoreState) (a : Aim) → s.running ≡ [] → is_torn s.even ≡ false → is_torn s.odd ≡ false → s.torn ≡ false → StoreStands s a → (a.stake ≡ a.kept) × IsOwn s a }
    ensures stake { (s : StoreState) (a : Aim) → s.running ≡ [] → is_torn s.even ≡ false → is_torn s.odd ≡ false → s.torn ≡ false → IsOwn s a → a.stake ≡ a.kept }
    ensures idle { (stops : List ℕ → Bool) (s : StoreState) (a : Aim) → is_due stops s ≡ false → StoreStands s a → IsOwn s a }
    ensures stands { (s : StoreState) (a : Aim) → IsOwn s a → (b : Aim) × ((b.kept ≡ a.kept) × StoreStands s b) }
{}

/// What is given to a store waits: it changes nothing of what the store stands for.
pub fn what_is_given_waits()
    ensures given { (s : StoreState) (a : Aim) (entries : List (List ℕ)) → IsOwn s a → IsOwn (given entries s) a }
    ensures asked { (s : StoreState) (a : Aim) (snapshot : List ℕ) → IsOwn s a → IsOwn (asked snapshot s) a }
    ensures any_given { (s : StoreState) (a : Aim) (entries : List (List ℕ)) → StoreStands s a → StoreStands (given entries s) a }
    ensures any_asked { (s : StoreState) (a : Aim) (snapshot : List ℕ) → StoreStands s a → StoreStands (asked snapshot s) a }
{}

/// A store without a due call has no running job, and each crash restores what it keeps.
pub fn nothing_is_due()
    ensures idle { (stops : List ℕ → Bool) (s : StoreState) → is_due stops s ≡ false → (s.running ≡ []) × (due_job stops s ≡ NoJob) }
    ensures kept { (stops : List ℕ → Bool) (s : StoreState) (a : Aim) → is_due stops s ≡ false → StoreStands s a → a.stake ≡ a.kept }
{}

/// How many entries are firm, and which ones a crash restores. It restores a later generation, or the
/// present one with all entries that are kept, and then maybe more. Those kept are at least as many as
/// are firm, but for those that are gone from the present log. Gone are 0 until a switch ends, and
/// their number changes at the end of a switch alone.
pub fn what_is_counted()
    ensures opened { (images : Images) (kept other : Kept) (next : Checkpoint) → StoreWire images kept other → Counts 0 (store_opened images) (at_rest kept other next) }
    ensures begins { (job : Begun) (gone : ℕ) (s : StoreState) (a : Aim) → s.running ≡ [] → IsOwn s a → Counts gone s a → Counts gone (begins job s) (aim_begins job s a) }
    ensures goes { (gone : ℕ) (s : StoreState) (a : Aim) (tail : Tail) (call : StoreCall) (left : List StoreCall) (other : Kept) → CountsBy (call ∷ left) gone s a
        → IsOwn (job_called tail (call ∷ left) s) (aim_after left other (aim_called tail call left a))
        → Counts (gone_after left (job_called tail (call ∷ left) s) (aim_after left other (aim_called tail call left a)) gone) (job_called tail (call ∷ left) s) (aim_after left other (aim_called tail call left a)) }
    ensures given { (gone : ℕ) (s : StoreState) (a : Aim) (entries : List (List ℕ)) → Counts gone s a → Counts gone (given entries s) a }
    ensures asked { (gone : ℕ) (s : StoreState) (a : Aim) (snapshot : List ℕ) → Counts gone s a → Counts gone (asked snapshot s) a }
    ensures crash { (gone : ℕ) (s : StoreState) (a : Aim) → Counts gone s a → IsOwn s a → (images : Images) → MayLeave s.devices images
        → (generation_of a.kept.present < generation_of (restores images).present) ⊎ BeginsWith a.kept gone s.firm (restores images) }
{}

/// A job leaves nothing new at stake. At its end it is nothing but what is kept then, or, if the gate
/// of a slot was closed while that of the present log is torn, what was at stake before.
pub fn a_job_leaves_nothing_new_at_stake()
    ensures opened { (images : Images) (a : Aim) → Stakes (store_opened images) a }
    ensures begins { (stops : List ℕ → Bool) (s : StoreState) (a : Aim) → s.running ≡ [] → IsOwn s a → Stakes (begins (due_job stops s) s) (aim_begins (due_job stops s) s a) }
    ensures goes { (tail : Tail) (call more : StoreCall) (left : List StoreCall) (s : StoreState) (a : Aim) → StakesIn (call ∷ (more ∷ left)) s a
        → Stakes (job_called tail (call ∷ (more ∷ left)) s) (aim_called tail call (more ∷ left) a) }
    ensures ends { (tail : Tail) (call : StoreCall) (s : StoreState) (a : Aim) (other : Kept) → StakesIn (call ∷ []) s a → IsOwn (job_called tail (call ∷ []) s) (aim_after [] other (aim_called tail call [] a))
        → (other ≡ (aim_called tail call [] a).then) ⊎ ((s.torn ≡ true) × (other ≡ a.stake)) }
    // One device call, with the job that may begin at it.
    ensures called { (stops : List ℕ → Bool) (tail : Tail) (other : Kept) (s : StoreState) (a : Aim) → IsOwn s a → Stakes s a → IsOwn (store_called stops tail s) (aim_then stops tail other s a)
        → Stakes (store_called stops tail s) (aim_then stops tail other s a) × LeftBy (begun stops s).running (begun stops s).torn (aim_begun stops s a).stake (aim_then stops tail other s a) }
    ensures given { (s : StoreState) (a : Aim) (entries : List (List ℕ)) → Stakes s a → Stakes (given entries s) a }
    ensures asked { (s : StoreState) (a : Aim) (snapshot : List ℕ) → Stakes s a → Stakes (asked snapshot s) a }
{}

/// The log of a store, switched or not: what it keeps, what its group adds, and what waits. Each call
/// leaves it as it is, but the one at which a switch ends. Then it is the tail that was written, and
/// what waits that is not in it; and the checkpoint is that of the switch.
pub fn a_log_goes_on()
    ensures opened { (images : Images) (kept other : Kept) (next : Checkpoint) → Logs None (store_opened images) (at_rest kept other next) × (log_of (store_opened images) (at_rest kept other next) ≡ kept.entries) }
    ensures begins { (stops : List ℕ → Bool) (written : Option Tail) (s : StoreState) (a : Aim) → s.running ≡ [] → Logs written s a
        → LogGoes None None s a (begins (due_job stops s) s) (aim_begins (due_job stops s) s a) }
    ensures goes { (tail : Tail) (call : StoreCall) (left : List StoreCall) (written : Option Tail) (s : StoreState) (a : Aim) (other : Kept) → MakesBy s.ending (call ∷ left) written s.adding a
        → LogGoes (ended_by tail (call ∷ left) written) (written_by tail (call ∷ left) written) s a (job_called tail (call ∷ left) s) (aim_after left other (aim_called tail call left a)) }
    ensures called { (stops : List ℕ → Bool) (tail : Tail) (other : Kept) (written : Option Tail) (s : StoreState) (a : Aim) → Logs written s a
        → LogGoes (ended_then stops tail s written) (written_then stops tail s written) s a (store_called stops tail s) (aim_then stops tail other s a) }
    ensures given { (written : Option Tail) (s : StoreState) (a : Aim) (entries : List (List ℕ)) → Logs written s a → Logs written (given entries s) a × (log_of (given entries s) a ≡ log_of s a ++ entries) }
    ensures next_given { (tail : Tail) (s : StoreState) (entries : List (List ℕ)) → firm_by tail.made s - s.firm ≤ length s.waiting → next_log tail (given entries s) ≡ next_log tail s ++ entries }
    ensures asked { (written : Option Tail) (s : StoreState) (a : Aim) (snapshot : List ℕ) → Logs written s a → Logs written (asked snapshot s) a × (log_of (asked snapshot s) a ≡ log_of s a) }
{}

/// Each call leaves the number of entries that a store counts: those that are firm, those of its group,
/// and those that wait. If the last entry of a tail was counted when the tail was written, all of the
/// tail that is not firm waits.
pub fn what_waits_was_counted()
    ensures opened { (images : Images) → counted (store_opened images) ≡ (store_opened images).firm }
    ensures called { (stops : List ℕ → Bool) (tail : Tail) (written : Option Tail) (s : StoreState) (a : Aim) → Logs written s a → TailCounts written s → (wants_tail s ≡ true → s.restored + tail.made ≤ counted s) → counted s ≤ greatest
        → (counted (store_called stops tail s) ≡ counted s) × TailCounts (written_then stops tail s written) (store_called stops tail s) }
    ensures waits { (tail : Tail) (s : StoreState) (a : Aim) → Logs (Some tail) s a → s.restored + tail.made ≤ counted s → firm_by tail.made s - s.firm ≤ length s.waiting }
    ensures given { (written : Option Tail) (s : StoreState) (entries : List (List ℕ)) → TailCounts written s → (counted (given entries s) ≡ counted s + length entries) × TailCounts written (given entries s) }
{}

/// Each snapshot that a crash may restore, in all its lives, is one that a store was asked to switch
/// to, or one that it had at first.
pub fn a_store_keeps_what_was_asked()
    ensures opened { (all : List (List ℕ)) (images : Images) (kept other : Kept) (next : Checkpoint) → Snapshot (IsOneOf all) kept → Snapshot (IsOneOf all) other → Snapshots (IsOneOf all) (store_opened images) (at_rest kept other next) }
    ensures called { (all : List (List ℕ)) (stops : List ℕ → Bool) (tail : Tail) (other : Kept) (written : Option Tail) (s : StoreState) (a : Aim) → IsOwn s a → Logs written s a → Stakes s a
        → IsOwn (store_called stops tail s) (aim_then stops tail other s a) → Snapshots (IsOneOf all) s a → Snapshots (IsOneOf all) (store_called stops tail s) (aim_then stops tail other s a) }
    ensures given { (all : List (List ℕ)) (s : StoreState) (a : Aim) (entries : List (List ℕ)) → Snapshots (IsOneOf all) s a → Snapshots (IsOneOf all) (given entries s) a }
    ensures asked { (all : List (List ℕ)) (s : StoreState) (a : Aim) (snapshot : List ℕ) → IsOneOf all snapshot → Snapshots (IsOneOf all) s a → Snapshots (IsOneOf all) (asked snapshot s) a }
    ensures left { (all : List (List ℕ)) (images : Images) (kept other : Kept) → Snapshot (IsOneOf all) kept → Snapshot (IsOneOf all) other → StoreNext images kept other
        → (now : Kept) × ((instead : Kept) × (StoreWire images now instead × (Snapshot (IsOneOf all) now × Snapshot (IsOneOf all) instead))) }
{}

/// A store that is not asked to switch keeps a front of its book: the entries that it restored and
/// that it was given, in order. The running group comes next, and then those that wait. Its checkpoint
/// stays. While a group runs, what is at stake is a front of the book, too.
pub fn a_store_keeps_its_book()
    ensures opened { (images : Images) (kept other : Kept) (next : Checkpoint) → Books kept.entries kept.present (store_opened images) (at_rest kept other next) }
    ensures begins { (stops : List ℕ → Bool) (book : List (List ℕ)) (present : Option Checkpoint) (s : StoreState) (a : Aim) → s.running ≡ [] → Books book present s a
        → Books book present (begins (due_job stops s) s) (aim_begins (due_job stops s) s a) }
    ensures goes { (book : List (List ℕ)) (present : Option Checkpoint) (s : StoreState) (a : Aim) (tail : Tail) (call : StoreCall) (left : List StoreCall) (other : Kept) → BooksBy (call ∷ left) book present s a
        → Books book present (job_called tail (call ∷ left) s) (aim_after left other (aim_called tail call left a)) }
    ensures given { (book : List (List ℕ)) (present : Option Checkpoint) (s : StoreState) (a : Aim) (entries : List (List ℕ)) → Books book present s a → Books (book ++ entries) present (given entries s) a }
    ensures crash { (book : List (List ℕ)) (present : Option Checkpoint) (s : StoreState) (a : Aim) → Books book present s a → IsOwn s a → (images : Images) → MayLeave s.devices images
        → IsFront book present (restores images) ⊎ (restores images ≡ a.stake) }
    ensures stake { (book : List (List ℕ)) (present : Option Checkpoint) (s : StoreState) (a : Aim) (call : StoreCall) (left : List StoreCall) (end : ℕ) → s.ending ≡ Adds end → BooksBy (call ∷ left) book present s a
        → IsFront book present a.stake }
{}

/// A store that is not asked to switch stays at generation 0: its slots and its odd log hold nothing.
/// A job that begins has a spelling, if the entries that wait have one together. Once the gate after
/// the groups is closed and no job runs, nothing is at stake.
pub fn a_store_is_not_asked()
    ensures opened { IsUnswitched (store_opened no_bytes) }
    ensures called { (stops : List ℕ → Bool) (tail : Tail) (s : StoreState) → IsUnswitched s → IsUnswitched (store_called stops tail s) }
    ensures given { (s : StoreState) (entries : List (List ℕ)) → IsUnswitched s → IsUnswitched (given entries s) }
    ensures crash { (s : StoreState) (images : Images) → IsUnswitched s → MayLeave s.devices images → IsUnswitched (store_opened images) }
    ensures spells { (s : StoreState) → IsUnswitched s → IsGroup s.waiting → HasSpelling (due_job never s) }
    ensures rests { (s : StoreState) (a : Aim) → IsUnswitched s → IsOwn s a → s.running ≡ [] → s.torn ≡ false → a.stake ≡ a.kept }
{}
