//! The opening of a store as a stream: its newest checkpoint, and then the entries of its log, one
//! after the other.
ghost use Rattle.std.specs.Prelude.{◌≡◌, [], None};

use crate::disks::Disks;
use crate::reading::{answer_of, begin_log, read_next, read_slots};
use crate::store::{Store, StoreFault};
use checkpoint_store::reading::{generation_of, is_odd};
use disk_model::disk::Disk;
use faults::Fault;
use log_stream::reader::LogReader;
use smart_base::sequence::{Bytes, Sequence};
use std::alloc::Global;
use store_form::checkpoint::Checkpoint;
use store_form::ends::{LogFault, State};
use store_laws::job::{Ending, Gate};
use store_plan::plan::Plan;

/// A store that is being opened. It holds the newest checkpoint, and a piece of the log; no entry that
/// it gave.
#[derive(Drop)]
pub struct Opening<D: Disk> {
    pub disks: Disks<D>,
    /// The gate of the slot of the even generations.
    even: Gate,
    /// The gate of the slot of the odd generations.
    odd: Gate,
    /// The newest checkpoint that counts.
    present: Option<Checkpoint>,
    /// Whether its log is that of the odd generations.
    is_odd: bool,
    reader: LogReader,
    pub state: State,
}

/// The plan of a store over what was read, on which no job runs.
fn plan_of(alloc: Global, even: Gate, odd: Gate, generation: u64, reader: &LogReader) -> Plan
    ensures gates { (result.even ≡ even) × (result.odd ≡ odd) }
    ensures log { (result.torn ≡ reader.now.torn) × (result.end ≡ reader.now.end) }
    ensures generation { result.generation ≡ generation }
    ensures idle { (result.running ≡ []) × ((result.ending ≡ Ending.Repairs) × (result.adding ≡ [])) }
    ensures waiting { (result.waiting ≡ []) × (result.asked ≡ None) }
    ensures counts { (result.restored ≡ reader.now.restored) × (result.firm ≡ reader.now.restored) }
{
    Plan {
        even,
        odd,
        torn: reader.torn,
        end: reader.end,
        generation,
        running: Sequence::new(alloc),
        ending: Ending::Repairs,
        adding: Sequence::new(alloc),
        waiting: Sequence::new(alloc),
        asked: None,
        restored: reader.restored,
        firm: reader.restored,
    }
}

impl<D: Disk> Store<D> {
    ghost use Rattle.std.specs.Prelude.{◌≡◌, IfOk, IfErr, true, false};
    ghost use Rattle.checkpoint_store.specs.Slots.{generation_of};
    ghost use Rattle.store_laws.specs.Restored.{restores};
    ghost use Rattle.durable_store.specs.Disks.{contents, AreSettled, AreSame, DiskRose, NoneFell, TimeWent};
    ghost use Rattle.durable_store.specs.Streams.{Opens, entries_to_come};

    /// Begins the opening of a store over four devices on which nothing is pending: reads the newest
    /// checkpoint. Errors: a failure of a device; want of memory. The devices come back with the error.
    pub fn reopen_start(
        alloc: Global,
        disks: Disks<D>,
    ) -> Result<Opening<D>, (StoreFault, Disks<D>)>
        requires { D.told → AreSettled D.cells disks }
        ensures opens { IfOk result (λ r. D.told → Opens D.cells r) }
        // All entries that the store restores are still to come.
        ensures begins { IfOk result (λ r. D.told → entries_to_come D.cells r ≡ (restores (contents D.cells disks)).entries) }
        ensures restored { IfOk result (λ r. r.reader.restored ≡ 0) }
        ensures ended { IfOk result (λ r. r.reader.ended ≡ false) }
        ensures open { IfOk result (λ r. r.state ≡ State.Open) }
        ensures same { IfOk result (λ r. D.told → AreSame D.cells disks r.disks) }
        ensures back { IfErr result (λ e. D.told → AreSame D.cells disks e.1) }
        ensures time { IfOk result (λ r. D.told → TimeWent D.moment D.left_since D.cells disks r.disks) }
        ensures back_time { IfErr result (λ e. D.told → TimeWent D.moment D.left_since D.cells disks e.1) }
        ensures later { IfOk result (λ r. NoneFell D.faults disks r.disks) }
        ensures back_later { IfErr result (λ e. NoneFell D.faults disks e.1) }
        ensures wants_later { IfOk result (λ r. NoneFell D.wants disks r.disks) }
        ensures back_wants { IfErr result (λ e. NoneFell D.wants disks e.1) }
        ensures cause { IfErr result (λ e. e.0 ≡ LogFault.Disk false → DiskRose D.faults disks e.1) }
        ensures not_closed { IfErr result (λ e. e.0 ≡ LogFault.Disk true → ⊥) }
    {
        let mut disks = disks;
        let (even, odd, present) = match read_slots(
            alloc,
            &mut disks.even_slot,
            &mut disks.odd_slot,
        ) {
            Ok(read) => read,
            Err(fault) => return Err((answer_of(fault), disks)),
        };
        let generation = generation_of(&present);
        let is_odd = is_odd(generation);
        match begin_log(alloc, &mut disks, is_odd) {
            Ok(reader) => Ok(Opening {
                disks,
                even,
                odd,
                present,
                is_odd,
                reader,
                state: State::Open,
            }),
            Err(fault) => Err((answer_of(fault), disks)),
        }
    }
}

impl<D: Disk> Opening<D> {
    ghost use Rattle.std.specs.Prelude.{◌≡◌, ◌+◌, ◌∷◌, [], Some, None, length, IfOk, IfSome, IsNone, OnErr, IsErrOf, true, false};
    ghost use Rattle.store_form.specs.Ends.{Closes};
    ghost use Rattle.store_form.specs.declared.checkpoint.Checkpoint.{Checkpoint};
    ghost use Rattle.checkpoint_store.specs.Slots.{generation_of};
    ghost use Rattle.store_laws.specs.Restored.{log_image, side_of, present_in, restores};
    ghost use Rattle.store_laws.specs.States.{store_opened};
    ghost use Rattle.store_laws.specs.Lives.{StoreWire};
    ghost use Rattle.store_laws.specs.Stands.{IsRead, at_rest, instead, StoreStands, IsOwn};
    ghost use Rattle.store_laws.specs.declared.job.Kept.{Kept};
    ghost use Rattle.durable_store.specs.Disks.{contents, AreSame, DiskRose, NoneFell, TimeWent};
    ghost use Rattle.durable_store.specs.Stores.{state_of, Stands};
    ghost use Rattle.durable_store.specs.Streams.{Opens, entries_to_come};

    /// The generation and the snapshot of the newest checkpoint; none exactly where no slot counts.
    pub fn snapshot(&self) -> Option<(u64, &[u8])>
        requires { D.told → Opens D.cells self.now }
        // The slot of this generation counts with these bytes, and no other that counts is newer.
        ensures newest { IfSome result (λ x. D.told → present_in (contents D.cells self.now.disks) ≡ Some (record { generation = x.0; snapshot = x.1.now })) }
        ensures nothing { IsNone result → D.told → present_in (contents D.cells self.now.disks) ≡ None }
        // What is known of it without a disk that tells its contents.
        ensures some { IfSome result (λ x. self.now.present ≡ Some (record { generation = x.0; snapshot = x.1.now })) }
        ensures none { IsNone result → self.now.present ≡ None }
    {
        match &self.present {
            Some(checkpoint) => Some((checkpoint.generation, checkpoint.snapshot.as_slice())),
            None => None,
        }
    }

    /// The next entry; none exactly at the end. Errors: a failure of the log's device, which closes the
    /// opening; want of memory, after which the same entry is the next.
    pub fn next(&mut self, alloc: Global) -> Result<Option<Bytes>, StoreFault>
        requires { D.told → Opens D.cells self.old }
        ensures opens { D.told → Opens D.cells self.new }
        ensures entry { IfOk result (λ o. IfSome o (λ entry. D.told → entries_to_come D.cells self.old ≡ entry ∷ entries_to_come D.cells self.new)) }
        ensures nothing { IfOk result (λ o. IsNone o → D.told → entries_to_come D.cells self.old ≡ []) }
        ensures again { OnErr result (D.told → entries_to_come D.cells self.new ≡ entries_to_come D.cells self.old) }
        ensures some { IfOk result (λ o. IfSome o (λ entry. self.new.reader.restored ≡ self.old.reader.restored + 1)) }
        ensures none { IfOk result (λ o. IsNone o → (self.new.reader.restored ≡ self.old.reader.restored) × (self.new.reader.ended ≡ true)) }
        ensures err { OnErr result (self.new.reader.restored ≡ self.old.reader.restored) }
        ensures present { self.new.present ≡ self.old.present }
        ensures same { D.told → AreSame D.cells self.old.disks self.new.disks }
        ensures time { D.told → TimeWent D.moment D.left_since D.cells self.old.disks self.new.disks }
        ensures later { NoneFell D.faults self.old.disks self.new.disks }
        ensures wants_later { NoneFell D.wants self.old.disks self.new.disks }
        ensures cause { IsErrOf result (LogFault.Disk false) → DiskRose D.faults self.old.disks self.new.disks }
        ensures want { IsErrOf result LogFault.NoMemory → self.old.state ≡ State.Open → (self.new.state ≡ State.Open) × DiskRose D.wants self.old.disks self.new.disks }
        ensures untouched { (self.old.state ≡ State.Open → ⊥) → self.new ≡ self.old }
        ensures closes { Closes result self.old.state self.new.state }
    {
        self.state.check()?;
        match read_next(alloc, &mut self.reader, &mut self.disks, self.is_odd) {
            Ok(entry) => Ok(entry),
            Err(Fault::Failed) => {
                self.state = State::Failed;
                Err(LogFault::Disk { closed: false })
            }
            Err(Fault::NoMemory) => Err(LogFault::NoMemory),
        }
    }

    /// The store, once all entries were given.
    pub fn done(self, alloc: Global) -> Store<D>
        requires ended { self.reader.ended ≡ true }
        requires opens { D.told → Opens D.cells self }
        // The whole state of the store that is opened over these bytes.
        ensures opened { D.told → state_of D.cells result ≡ store_opened (contents D.cells self.disks) }
        // The log of the present generation is read to its end.
        ensures read { D.told → IsRead (log_image (side_of (present_in (contents D.cells self.disks))) (contents D.cells self.disks)) }
        ensures stands { D.told → Stands (state_of D.cells result) }
        // What the store stands for: what it restores, and what a 1 at its first torn gate would bring back.
        ensures keeps { D.told → (next : Checkpoint)
            → StoreStands (state_of D.cells result) (at_rest (restores (contents D.cells self.disks)) (instead (store_opened (contents D.cells self.disks)) (contents D.cells self.disks)) next) }
        // The pair that the store stands for: the one that is claimed of the bytes, if only crashes of its own lives changed them.
        ensures lives { D.told → (kept other : Kept) (next : Checkpoint) → StoreWire (contents D.cells self.disks) kept other
            → (restores (contents D.cells self.disks) ≡ kept) × IsOwn (state_of D.cells result) (at_rest kept other next) }
        ensures firm { (result.plan.firm ≡ self.reader.restored) × (result.plan.restored ≡ self.reader.restored) }
        ensures waiting { (result.plan.waiting ≡ []) × (result.plan.asked ≡ None) }
        ensures idle { result.plan.running ≡ [] }
        ensures generation { result.plan.generation ≡ generation_of self.present }
        ensures open { result.state ≡ State.Open }
        ensures disks { result.disks ≡ self.disks }
    {
        let (store, _present) = self.into_parts(alloc);
        store
    }

    /// The store, once all entries were given, and the newest checkpoint.
    pub fn into_parts(self, alloc: Global) -> (Store<D>, Option<Checkpoint>)
        requires ended { self.reader.ended ≡ true }
        requires opens { D.told → Opens D.cells self }
        ensures present { result.1 ≡ self.present }
        ensures opened { D.told → state_of D.cells result.0 ≡ store_opened (contents D.cells self.disks) }
        ensures read { D.told → IsRead (log_image (side_of (present_in (contents D.cells self.disks))) (contents D.cells self.disks)) }
        ensures counted { D.told → self.reader.restored ≡ length (restores (contents D.cells self.disks)).entries }
        ensures firm { (result.0.plan.firm ≡ self.reader.restored) × (result.0.plan.restored ≡ self.reader.restored) }
        ensures waiting { (result.0.plan.waiting ≡ []) × (result.0.plan.asked ≡ None) }
        ensures idle { result.0.plan.running ≡ [] }
        ensures generation { result.0.plan.generation ≡ generation_of self.present }
        ensures open { result.0.state ≡ State.Open }
        ensures disks { result.0.disks ≡ self.disks }
    {
        let Opening {
            disks,
            even,
            odd,
            present,
            is_odd: _,
            reader,
            state: _,
        } = self;
        let generation = generation_of(&present);
        let plan = plan_of(alloc, even, odd, generation, &reader);
        (
            Store {
                disks,
                plan,
                state: State::Open,
            },
            present,
        )
    }

    /// The devices, taken out of an opening that is given up.
    pub fn into_disks(self) -> Disks<D>
        ensures { result ≡ self.disks }
    {
        let Opening { disks, .. } = self;
        disks
    }
}
