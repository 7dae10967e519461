//! The store of a member.
ghost use Rattle.std.specs.Prelude.{◌≡◌, ◌<◌, ◌+◌, ◌^◌, ◌&&◌, [], true, false, length, map, is_some, Ok, IfOk, IfErr, OnOk, OnErr, if◌then◌else◌, None};
ghost use Rattle.disk_model.specs.Cells.{settled};
ghost use Rattle.disk_model.specs.Memory.{plain_cells};
ghost use Rattle.vote_book.specs.Entries.{entry_text};
ghost use Rattle.store_form.specs.Spelling.{IsEntry};
ghost use Rattle.store_laws.specs.Lives.{no_bytes, nothing};
ghost use Rattle.store_laws.specs.Restored.{restores};
ghost use Rattle.store_laws.specs.States.{store_opened, store_called, given, asked, is_due, wants_tail};
ghost use Rattle.store_laws.specs.Stops.{is_installed};
ghost use Rattle.store_laws.specs.Unswitched.{no_tail};
ghost use Rattle.store_plan.specs.Fit.{AreEntries};
ghost use Rattle.durable_store.specs.Disks.{contents, AreSettled};
ghost use Rattle.durable_store.specs.Stores.{state_of};
ghost use Rattle.world_rules.specs.Crashes.{bytes_held, images_left, wrong_images};
ghost use Rattle.member_store.specs.Left.{Tells};

use crate::crash::CrashFault;
use crate::left::disk_left;
use disk_model::plain::PlainDisk;
use durable_store::disks::Disks;
use durable_store::reopening::reopen;
use durable_store::store::{Job, Store};
use smart_base::sequence::{Bytes, Sequence};
use std::alloc::{AllocError, Global};
use std::marker::Model;
use std::mem;
use store_laws::job::{Kept, Tail};
use store_plan::stops::InstallsStop;
use vote_book::codec::encode_entry;
use vote_book::entry::LogEntry;
use world_rules::crash::{Image, Patch};

/// The greatest length of an entry, in bytes.
const ENTRY_BYTES: usize = 0xffff_ffff;

/// What empty devices restore.
fn nothing(alloc: Global) -> Kept
    ensures { result ≡ nothing }
{
    Kept {
        present: None,
        entries: Sequence::new(alloc),
    }
}

#[derive(Drop)]
enum Devices {
    /// The devices of a store that runs.
    Running(Store<PlainDisk>),
    /// The devices that a crash has left.
    Stopped(Disks<PlainDisk>),
}

impl Devices {
    ghost use Rattle.member_store.specs.Devices.{state_in, AreSound};

    /// What a crash has left is what the devices read as.
    fn what_is_left(&self)
        ensures { (state_in self.now).runs ≡ false → store_opened (bytes_held (state_in self.now).state) ≡ (state_in self.now).state }
    {}

    /// Opens a store over the devices, and gives what it restores. Error: want of memory; the devices
    /// come back then.
    fn opened(self, alloc: Global) -> (Devices, Result<Kept, AllocError>)
        requires { AreSound self }
        ensures sound { AreSound result.0 }
        ensures state { OnOk result.1 (state_in result.0 ≡ record { runs = true; state = (state_in self).state }) }
        ensures restores { IfOk result.1 (λ kept. (state_in self).runs ≡ false → kept ≡ restores (bytes_held (state_in self).state)) }
        ensures err { OnErr result.1 (state_in result.0 ≡ state_in self) }
        ensures runs { (state_in self).runs ≡ true → result.1 ≡ Ok nothing }
    {
        match self {
            Devices::Running(store) => (Devices::Running(store), Ok(nothing(alloc))),
            Devices::Stopped(disks) => match reopen(alloc, disks) {
                Ok((store, kept)) => (Devices::Running(store), Ok(kept)),
                Err((_, disks)) => (Devices::Stopped(disks), Err(AllocError)),
            },
        }
    }
}

/// A store over four disks in memory. A crash stops it, and a restart opens it again. Want of memory
/// inside a device call closes it; from then on it answers want of memory.
pub struct MemberStore {
    alloc: Global,
    devices: Devices,
}

/// Let go by one call, so that no function that lets one go carries the whole of it.
impl Drop for MemberStore {
    fn drop(self) {
        let MemberStore {
            alloc: _,
            devices: _,
        } = self;
    }
}

impl Model for MemberStore {
    ghost use Rattle.member_store.specs.Members.{MemberState};
    ghost use Rattle.member_store.specs.Devices.{state_in, AreSound};

    ghost Value = { MemberState };

    ghost view = { λ s. state_in s.devices };

    ghost invariant = { λ s. AreSound s.devices };
}

/// A disk that holds nothing.
fn empty_disk(alloc: Global) -> PlainDisk
    ensures { plain_cells result ≡ settled [] }
{
    PlainDisk::new(alloc, Bytes::new(alloc))
}

/// Devices that hold nothing.
fn empty_disks(alloc: Global) -> Disks<PlainDisk>
    ensures settled { AreSettled plain_cells result }
    ensures empty { contents plain_cells result ≡ no_bytes }
{
    Disks {
        even_log: empty_disk(alloc),
        odd_log: empty_disk(alloc),
        even_slot: empty_disk(alloc),
        odd_slot: empty_disk(alloc),
    }
}

/// The bytes of an entry. Error: want of memory, also for an entry that is too long for a store.
fn text(alloc: Global, entry: &LogEntry) -> Result<Bytes, AllocError>
    ensures fit { IfOk result (λ text. IsEntry text) }
    ensures is { IfOk result (λ text. text ≡ entry_text entry.now) }
{
    let bytes = encode_entry(alloc, entry)?;
    if bytes.len() > ENTRY_BYTES {
        return Err(AllocError);
    }
    Ok(Bytes::from_vec(bytes))
}

fn texts(alloc: Global, entries: &[LogEntry]) -> Result<Sequence<Bytes>, AllocError>
    ensures fit { IfOk result (λ texts. AreEntries texts) }
    ensures are { IfOk result (λ texts. texts ≡ map entry_text entries.now) }
{
    let mut texts = Sequence::new(alloc);
    for entry in entries {
        texts.push(text(alloc, entry)?)?;
    }
    Ok(texts)
}

/// The generation to which a switch with this snapshot leads. Error: there is none, or no slot has
/// room for the snapshot.
fn next_generation(generation: u64, snapshot: &[u8]) -> Result<u64, AllocError>
    ensures next { IfOk result (λ next. next ≡ generation + 1) }
    ensures short { OnOk result (length snapshot.now < 2 ^ 32) }
{
    if generation < u64::MAX && snapshot.len() <= ENTRY_BYTES {
        return Ok(generation + 1);
    }
    Err(AllocError)
}

/// The devices that a crash leaves of a store, as a script says.
#[tactic(auto, unfolding(world_rules::specs::Crashes::wrong_images))]
fn disks_left(
    alloc: Global,
    store: &Store<PlainDisk>,
    image: Image,
    patches: &[Patch],
) -> Result<Disks<PlainDisk>, CrashFault>
    ensures right { IfOk result (λ disks. wrong_images (state_of plain_cells store.now) (images_left image patches.now (state_of plain_cells store.now)) ≡ None) }
    ensures settled { IfOk result (λ disks. AreSettled plain_cells disks) }
    ensures left { IfOk result (λ disks. contents plain_cells disks ≡ images_left image patches.now (state_of plain_cells store.now)) }
    ensures wrong { IfErr result (λ e. Tells e (wrong_images (state_of plain_cells store.now) (images_left image patches.now (state_of plain_cells store.now)))) }
{
    let disks = &store.disks;
    Ok(Disks {
        even_log: disk_left(alloc, 0, &disks.even_log, image, patches)?,
        odd_log: disk_left(alloc, 1, &disks.odd_log, image, patches)?,
        even_slot: disk_left(alloc, 2, &disks.even_slot, image, patches)?,
        odd_slot: disk_left(alloc, 3, &disks.odd_slot, image, patches)?,
    })
}

impl MemberStore {
    ghost use Rattle.member_store.specs.Members.{MemberState};

    /// A store over devices that hold nothing.
    pub fn empty(alloc: Global) -> Result<Self, AllocError>
        ensures { IfOk result (λ s. s ≡ record { runs = true; state = store_opened no_bytes }) }
    {
        match reopen(alloc, empty_disks(alloc)) {
            Ok((store, _)) => Ok(MemberStore {
                alloc,
                devices: Devices::Running(store),
            }),
            Err(_) => Err(AllocError),
        }
    }

    /// Whether the store runs.
    pub fn runs(&self) -> bool
        ensures { result ≡ self.now.runs }
    {
        match &self.devices {
            Devices::Running(_) => true,
            Devices::Stopped(_) => false,
        }
    }

    /// What a crash has left is what the devices read as.
    pub fn what_is_left(&self)
        ensures { self.now.runs ≡ false → store_opened (bytes_held self.now.state) ≡ self.now.state }
    {
        self.devices.what_is_left();
    }

    /// Whether there is a device call to make.
    pub fn is_due(&self) -> bool
        ensures { result ≡ (self.now.runs && is_due is_installed self.now.state) }
    {
        match &self.devices {
            Devices::Running(store) => store.is_due::<InstallsStop>(),
            Devices::Stopped(_) => false,
        }
    }

    /// Whether the next call writes the tail of a new log.
    pub fn wants_tail(&self) -> bool
        ensures { result ≡ (self.now.runs && wants_tail self.now.state) }
    {
        match &self.devices {
            Devices::Running(store) => store.wants_tail(),
            Devices::Stopped(_) => false,
        }
    }

    /// Whether a switch waits.
    pub fn asks(&self) -> bool
        ensures { result ≡ (self.now.runs && is_some self.now.state.asked) }
    {
        match &self.devices {
            Devices::Running(store) => store.asks(),
            Devices::Stopped(_) => false,
        }
    }

    /// A tail of no entry, for a call that writes none.
    pub fn no_tail(&self) -> Tail
        ensures is { result ≡ no_tail }
        ensures fit { AreEntries result.entries }
    {
        Tail {
            made: 0,
            entries: Sequence::new(self.alloc),
        }
    }

    /// Makes the next device call, if there is one. The tail is written if `wants_tail` holds before.
    /// Error: want of memory.
    pub fn call(&mut self, tail: &Tail) -> Result<(), AllocError>
        requires { AreEntries tail.now.entries }
        ensures runs { OnOk result (self.old.runs ≡ true → self.new ≡ record { runs = true; state = store_called is_installed tail.now self.old.state }) }
        ensures stopped { self.old.runs ≡ false → (result ≡ Ok tt) × (self.new ≡ self.old) }
    {
        let alloc = self.alloc;
        let Devices::Running(store) = &mut self.devices else {
            return Ok(());
        };
        match store.next_call::<InstallsStop>(alloc, tail) {
            Ok(_) => Ok(()),
            Err(_) => Err(AllocError),
        }
    }

    /// Asks for a switch to the next generation, with this snapshot. It waits, and one that waited is
    /// forgotten. A store that does not run is not asked. Error: want of memory, also for a snapshot
    /// that no slot has room for, or after the last generation.
    pub fn ask(&mut self, snapshot: Bytes) -> Result<(), AllocError>
        ensures runs { OnOk result (self.old.runs ≡ true → self.new ≡ record { runs = true; state = asked snapshot self.old.state }) }
        ensures stopped { self.old.runs ≡ false → (result ≡ Ok tt) × (self.new ≡ self.old) }
    {
        let alloc = self.alloc;
        let Devices::Running(store) = &mut self.devices else {
            return Ok(());
        };
        let generation = next_generation(store.generation(), snapshot.as_slice())?;
        match store.start(
            alloc,
            Job::Switch {
                generation,
                snapshot,
            },
        ) {
            Ok(()) => Ok(()),
            Err(_) => Err(AllocError),
        }
    }

    /// Gives entries to the store, which wait for the next group. A store that does not run takes
    /// none. Error: want of memory.
    pub fn write_down(&mut self, entries: &[LogEntry]) -> Result<(), AllocError>
        ensures runs { OnOk result (self.old.runs ≡ true → self.new ≡ record { runs = true; state = given (map entry_text entries.now) self.old.state }) }
        ensures stopped { self.old.runs ≡ false → (result ≡ Ok tt) × (self.new ≡ self.old) }
    {
        let alloc = self.alloc;
        let Devices::Running(store) = &mut self.devices else {
            return Ok(());
        };
        let texts = texts(alloc, entries)?;
        match store.start(alloc, Job::Append(texts)) {
            Ok(()) => Ok(()),
            Err(_) => Err(AllocError),
        }
    }

    /// The number of firm entries; 0 if the store does not run.
    pub fn firm(&self) -> u64
        ensures { result ≡ (if self.now.runs then self.now.state.firm else 0) }
    {
        match &self.devices {
            Devices::Running(store) => store.firm(),
            Devices::Stopped(_) => 0,
        }
    }

    /// Stops the store by a crash, which leaves its devices as they were at the last sync or as they
    /// read, with patches. Errors: the first byte that no crash leaves; want of memory. Nothing has
    /// changed then.
    pub fn crash(&mut self, image: Image, patches: &[Patch]) -> Result<(), CrashFault>
        ensures right { OnOk result (self.old.runs ≡ true → wrong_images self.old.state (images_left image patches.now self.old.state) ≡ None) }
        ensures left { OnOk result (self.old.runs ≡ true → self.new ≡ record { runs = false; state = store_opened (images_left image patches.now self.old.state) }) }
        ensures wrong { IfErr result (λ e. Tells e (wrong_images self.old.state (images_left image patches.now self.old.state))) }
        ensures err { OnErr result (self.new ≡ self.old) }
        ensures stopped { self.old.runs ≡ false → (result ≡ Ok tt) × (self.new ≡ self.old) }
    {
        let alloc = self.alloc;
        let Devices::Running(store) = &self.devices else {
            return Ok(());
        };
        let disks = disks_left(alloc, store, image, patches)?;
        self.devices = Devices::Stopped(disks);
        Ok(())
    }

    /// Restarts the store over what the crash has left, and gives what it restores. A store that runs
    /// stays as it is, and gives nothing. Error: want of memory.
    pub fn restart(&mut self) -> Result<Kept, AllocError>
        ensures opened { OnOk result (self.old.runs ≡ false → self.new ≡ record { runs = true; state = self.old.state }) }
        ensures restores { IfOk result (λ kept. self.old.runs ≡ false → kept ≡ restores (bytes_held self.old.state)) }
        ensures err { OnErr result (self.new ≡ self.old) }
        ensures runs { self.old.runs ≡ true → (result ≡ Ok nothing) × (self.new ≡ self.old) }
    {
        let alloc = self.alloc;
        let empty = Devices::Stopped(empty_disks(alloc));
        let devices = mem::replace(&mut self.devices, empty);
        let (devices, answer) = devices.opened(alloc);
        self.devices = devices;
        answer
    }
}
