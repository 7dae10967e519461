//! The laws of slots over all lives. They speak of definitions alone.
ghost use Rattle.std.specs.Prelude.{◌≡◌, ℕ, Bool, not, cond, true, false, List, Option, Some, None};
ghost use Rattle.disk_model.specs.Cells.{Cells, settled};
ghost use Rattle.store_form.specs.declared.checkpoint.Checkpoint.{Checkpoint};
ghost use Rattle.checkpoint_store.specs.Slots.{is_odd, slot_of, by_gate, newest, generation_of, InEachImage, IsClosed, IsReady, NoneAbove};
ghost use Rattle.checkpoint_store.specs.SlotJobs.{SlotStands, SlotLeaves, IsIdle, shut};
ghost use Rattle.checkpoint_store.specs.declared.job.SlotJob.{SlotJob};

/// A crash between two calls leaves one of the two that the slot stands for. With another value of
/// its gate it has no third. Each life therefore begins with what this one might have left.
pub fn a_crash_leaves_a_slot()
    ensures { (odd : Bool) (cells : Cells) (job : SlotJob) (next : Checkpoint) (has other : Option Checkpoint)
        → SlotStands odd cells job next has other → SlotLeaves odd cells has other }
{}

/// A slot without a running job has nothing pending.
pub fn nothing_is_pending()
    ensures { (odd : Bool) (cells : Cells) (job : SlotJob) (next : Checkpoint) (has other : Option Checkpoint)
        → IsIdle job → SlotStands odd cells job next has other → cells ≡ settled cells.now }
{}

/// A gate of 1 gives what a torn slot may have instead, and what a slot that counts has.
pub fn what_a_gate_gives()
    ensures torn { (odd : Bool) (cells : Cells) (next : Checkpoint) (has other : Option Checkpoint)
        → SlotStands odd cells SlotJob.Torn next has other → by_gate odd cells.now ≡ other }
    ensures counts { (odd : Bool) (cells : Cells) (next : Checkpoint) (has other : Option Checkpoint)
        → SlotStands odd cells SlotJob.Counts next has other → by_gate odd cells.now ≡ has }
    ensures full { (odd : Bool) (cells : Cells) (next : Checkpoint) (has other : Option Checkpoint)
        → SlotStands odd cells SlotJob.Full next has other → by_gate odd cells.now ≡ Some next }
    ensures empty { (odd : Bool) (cells : Cells) (next : Checkpoint) (has other : Option Checkpoint)
        → SlotStands odd cells SlotJob.Empty next has other → by_gate odd cells.now ≡ None }
{}

/// A slot whose gate is shut may be filled, and a full one may be opened. A closed gate gives
/// nothing.
pub fn what_may_be_filled_and_opened()
    ensures shut { (odd : Bool) (cells : Cells) (job : SlotJob) (next : Checkpoint) (has other : Option Checkpoint)
        → shut job ≡ true → SlotStands odd cells job next has other → InEachImage cells IsClosed }
    ensures full { (odd : Bool) (cells : Cells) (next : Checkpoint) (has other : Option Checkpoint)
        → SlotStands odd cells SlotJob.Full next has other → InEachImage cells (IsReady next.generation) }
    ensures closed { (odd : Bool) (cells : Cells) (job : SlotJob) (next : Checkpoint) (has other : Option Checkpoint)
        → IsIdle job → SlotStands odd cells job next has other → InEachImage cells IsClosed → (has ≡ None) × (other ≡ None) }
{}

/// The newest checkpoint of a generation's slot and of the other one. No slot has a greater
/// generation.
pub fn what_is_newest()
    ensures open { (x : Checkpoint) (own other : List ℕ) → slot_of (is_odd x.generation) own ≡ Some x
        → NoneAbove x.generation (slot_of (not (is_odd x.generation)) other)
        → newest (cond (is_odd x.generation) other own) (cond (is_odd x.generation) own other) ≡ Some x }
    ensures closed { (generation : ℕ) (own other : List ℕ) → slot_of (is_odd generation) own ≡ None
        → newest (cond (is_odd generation) other own) (cond (is_odd generation) own other) ≡ slot_of (not (is_odd generation)) other }
    ensures greatest { (even odd : List ℕ)
        → NoneAbove (generation_of (newest even odd)) (slot_of false even) × NoneAbove (generation_of (newest even odd)) (slot_of true odd) }
{}
