//! How the stores of a group are opened, ascending by member.
ghost use Rattle.std.specs.Prelude.{◌≡◌, ◌≤◌, ◌+◌, ◌<◌, ℕ, length, vec_len, false, None, Some, IfOk, IfErr, OnErr, IsErrOf};
ghost use Rattle.faults.specs.Counts.{Rose};
ghost use Rattle.durable_store.specs.Disks.{AreSettled, DiskRose, NoneFell, contents};
ghost use Rattle.store_laws.specs.Restored.{Images, restores};
ghost use Rattle.snapshot_form.specs.Snapshots.{snapshot_text};
ghost use Rattle.replica_rules.specs.Replicas.{empty};
ghost use Rattle.member_opening.specs.Devices.{AreAsBefore, AreFree, AreHeld, KeepsBeside, images_at};
ghost use Rattle.member_opening.specs.Headings.{head_by};
ghost use Rattle.member_opening.specs.Restorings.{KeepsCounts, node_by, parts_in, store_fault};
ghost use Rattle.member_opening.specs.Opened.{IsOpened, OpensWith};
ghost use Rattle.group_opening.specs.Berths.{AllHeld, AllHold, AreBerths, IsBerth, IsLowest, IsRefusedBy};
ghost use Rattle.group_opening.specs.Rooms.{IsLent, IsReturned, KeepsRest};
ghost use Rattle.group_opening.specs.Runs.{member_settings};

use crate::settings::GroupSettings;
use disk_model::disk::Disk;
use disk_model::room::DiskRoom;
use durable_store::disks::Disks;
use durable_store::reopening::reopen;
use durable_store::store::Store;
use faults::Fault;
use member_opening::devices::{put_back, take_devices};
use member_opening::fault::RestoreFault;
use member_opening::heading::head_by;
use member_opening::restoring::{parts_in, restored};
use member_opening::settings::Settings;
use node_core::node::NodeCore;
use node_rules::node::Parts;
use smart_base::duplicate::Duplicate;
use smart_base::equality::same_bytes;
use smart_base::name::MemberId;
use smart_base::sequence::{Bytes, Sequence};
use smart_service::service::Service;
use std::alloc::{AllocError, Global};
use store_form::ends::LogFault;
use store_laws::job::Kept;
use trail::opening::{App, TrailOpening};

/// A member whose store is opened: its core, the head of its trail with the entries that follow it, and the
/// store.
pub struct Berth<S: Service, D: Disk> {
    pub settings: Settings,
    pub core: NodeCore<S>,
    pub head: TrailOpening,
    pub entries: Sequence<Bytes>,
    pub store: Store<D>,
}

/// Why a store was not opened.
#[derive(Clone, Copy, Debug, PartialEq, Eq)]
pub enum OpeningEnd {
    /// This entry is damaged, or opens the book of another node. Entries are counted from 1; 0 is the
    /// checkpoint.
    Store { entry: u64 },
    /// A device failed.
    Disk,
    /// Memory ran out.
    NoMemory,
}

/// The settings of a member. Error: want of memory.
pub fn member_settings(
    alloc: Global,
    settings: &GroupSettings,
    member: MemberId,
) -> Result<Settings, AllocError>
    ensures { IfOk result (λ s. s ≡ member_settings settings.now member) }
{
    Ok(Settings {
        member,
        dir: Bytes::from_slice(alloc, settings.dir.as_slice())?,
        secret: Bytes::from_slice(alloc, settings.secret.as_slice())?,
        view: settings.view.duplicate(alloc)?,
        period: settings.period,
        app: App::Count,
    })
}

/// A fault of what a store restored, as one of its opening.
fn end_of_restoring(fault: RestoreFault) -> OpeningEnd
    ensures store { (entry : ℕ) → result ≡ OpeningEnd.Store entry → fault ≡ RestoreFault.Entry entry }
    ensures disk { result ≡ OpeningEnd.Disk → ⊥ }
{
    match fault {
        RestoreFault::Entry { entry } => OpeningEnd::Store { entry },
        RestoreFault::NoMemory => OpeningEnd::NoMemory,
    }
}

/// A fault of a store, as one of its opening.
fn end_of_store(fault: LogFault) -> OpeningEnd
    ensures disk { result ≡ OpeningEnd.Disk → (closed : _) × (fault ≡ LogFault.Disk closed) }
    ensures store { (entry : ℕ) → result ≡ OpeningEnd.Store entry → ⊥ }
{
    match fault {
        LogFault::Disk { closed: _ } => OpeningEnd::Disk,
        LogFault::NoMemory => OpeningEnd::NoMemory,
    }
}

/// A fault of a room, as one of an opening.
fn end_of_room(fault: Fault) -> OpeningEnd
    ensures disk { result ≡ OpeningEnd.Disk → fault ≡ Fault.Failed }
    ensures store { (entry : ℕ) → result ≡ OpeningEnd.Store entry → ⊥ }
{
    match fault {
        Fault::Failed => OpeningEnd::Disk,
        Fault::NoMemory => OpeningEnd::NoMemory,
    }
}

/// With what a member begins.
struct Begun<S: Service> {
    core: NodeCore<S>,
    head: TrailOpening,
}

/// Whether parts have the checkpoint of a replica that has executed nothing. The trail's head would be that
/// of a store without one. Error: want of memory.
fn is_as_empty<S: Service>(
    alloc: Global,
    settings: &Settings,
    parts: &Parts,
) -> Result<bool, AllocError>
    ensures { IfOk result (λ same. same ≡ false → parts.now.snapshot ≡ Some (snapshot_text S.meaning (empty S.meaning settings.now.view)) → ⊥) }
{
    match &parts.snapshot {
        Some(bytes) => {
            let none = Parts {
                snapshot: None,
                entries: Sequence::new(alloc),
            };
            let head = head_by::<S>(alloc, settings, &none)?;
            Ok(same_bytes(bytes.as_slice(), head.snapshot.as_slice()))
        }
        None => Ok(false),
    }
}

/// With what a member begins, from the parts that its store gives. Errors: the number of the first part
/// without meaning; want of memory.
fn begin_by<S: Service>(
    alloc: Global,
    settings: &Settings,
    parts: &Parts,
) -> Result<Begun<S>, OpeningEnd>
    ensures whole { IfOk result (λ b. store_fault S.meaning settings.now parts.now ≡ None) }
    ensures core { IfOk result (λ b. (b.core.node ≡ node_by S.meaning settings.now parts.now) × ((b.core.broken ≡ false) × KeepsCounts (length parts.now.entries) b.core.node)) }
    ensures head { IfOk result (λ b. b.head ≡ head_by S.meaning settings.now parts.now) }
    ensures other { IfOk result (λ b. parts.now.snapshot ≡ Some (snapshot_text S.meaning (empty S.meaning settings.now.view)) → ⊥) }
    ensures refused { (entry : ℕ) → IsErrOf result (OpeningEnd.Store entry) → store_fault S.meaning settings.now parts.now ≡ Some entry }
    ensures disk { IsErrOf result OpeningEnd.Disk → ⊥ }
{
    match is_as_empty::<S>(alloc, settings, parts) {
        Ok(false) => {}
        Ok(true) => return Err(OpeningEnd::NoMemory),
        Err(_) => return Err(OpeningEnd::NoMemory),
    }
    match restored::<S>(alloc, settings, parts) {
        Ok(core) => match head_by::<S>(alloc, settings, parts) {
            Ok(head) => Ok(Begun { core, head }),
            Err(_) => Err(OpeningEnd::NoMemory),
        },
        Err(fault) => Err(end_of_restoring(fault)),
    }
}

/// A member over its store, from what that restored. Errors: the number of the first entry without meaning;
/// want of memory. The devices come back then.
fn berth_over<S: Service, D: Disk>(
    alloc: Global,
    settings: Settings,
    store: Store<D>,
    kept: Kept,
) -> Result<Berth<S, D>, (OpeningEnd, Disks<D>)>
    requires restored { store.plan.restored ≡ length kept.entries }
    requires opened { IsOpened D.told D.cells store }
    ensures berth { (images : Images) → (D.told → kept ≡ restores images) → OpensWith D.told D.cells images kept store → IfOk result (IsBerth S.meaning D.told D.cells images settings) }
    ensures store { IfOk result (λ b. b.store ≡ store) }
    ensures refused { IfErr result (λ e. (entry : ℕ) → e.0 ≡ OpeningEnd.Store entry → store_fault S.meaning settings (parts_in kept) ≡ Some entry) }
    ensures disk { IfErr result (λ e. e.0 ≡ OpeningEnd.Disk → ⊥) }
    ensures back { IfErr result (λ e. e.1 ≡ store.disks) }
{
    let parts = parts_in(alloc, kept);
    match begin_by::<S>(alloc, &settings, &parts) {
        Ok(begun) => {
            let Begun { core, head } = begun;
            let Parts {
                snapshot: _,
                entries,
            } = parts;
            Ok(Berth {
                settings,
                core,
                head,
                entries,
                store,
            })
        }
        Err(end) => Err((end, store.into_disks())),
    }
}

/// A member over its devices. Errors: the number of the first entry without meaning; a failure of a device;
/// want of memory. The devices come back then.
fn berth_on<S: Service, D: Disk>(
    alloc: Global,
    settings: Settings,
    disks: Disks<D>,
) -> Result<Berth<S, D>, (OpeningEnd, Disks<D>)>
    requires { D.told → AreSettled D.cells disks }
    ensures berth { IfOk result (IsBerth S.meaning D.told D.cells (contents D.cells disks) settings) }
    ensures refused { IfErr result (λ e. (entry : ℕ) → e.0 ≡ OpeningEnd.Store entry → IsRefusedBy S.meaning D.told (contents D.cells disks) settings entry) }
    ensures disk { IfErr result (λ e. e.0 ≡ OpeningEnd.Disk → DiskRose D.faults disks e.1) }
    ensures later { IfOk result (λ b. NoneFell D.faults disks b.store.disks) }
    ensures later_back { IfErr result (λ e. NoneFell D.faults disks e.1) }
    ensures same { IfOk result (λ b. D.told → contents D.cells b.store.disks ≡ contents D.cells disks) }
    ensures same_back { IfErr result (λ e. D.told → contents D.cells e.1 ≡ contents D.cells disks) }
{
    match reopen(alloc, disks) {
        Ok((store, kept)) => {
            // That there are fewer than 2^63 of them is known of the list.
            let _restored = kept.entries.len();
            berth_over::<S, D>(alloc, settings, store, kept)
        }
        Err((fault, disks)) => Err((end_of_store(fault), disks)),
    }
}

/// Opens the store of a member, whose devices it takes from a room. Errors: the number of the first entry
/// without meaning; a failure of the room or of a device; want of memory. The devices are put back then.
pub fn open_member<S: Service, M: DiskRoom>(
    alloc: Global,
    group: &GroupSettings,
    member: MemberId,
    room: &mut M,
) -> Result<Berth<S, M::Disk>, OpeningEnd>
    ensures berth { IfOk result (IsBerth S.meaning M.Disk.told M.Disk.cells (images_at (M.cells room.old) group.now.dir member) (member_settings group.now member)) }
    ensures held { IfOk result (λ b. AreHeld (M.taken room.new) M.Disk.faults group.now.dir member b.store.disks) }
    ensures free { IfOk result (λ _. AreFree (M.taken room.old) group.now.dir member) }
    ensures refused { (entry : ℕ) → IsErrOf result (OpeningEnd.Store entry) → IsRefusedBy S.meaning M.Disk.told (images_at (M.cells room.old) group.now.dir member) (member_settings group.now member) entry }
    ensures disk { IsErrOf result OpeningEnd.Disk → Rose (M.faults room.old) (M.faults room.new) }
    ensures beside { KeepsBeside group.now.dir member (M.cells room.old) (M.cells room.new) }
    ensures beside_taken { KeepsBeside group.now.dir member (M.taken room.old) (M.taken room.new) }
    ensures back { OnErr result (AreAsBefore (M.taken room.old) (M.taken room.new) group.now.dir member) }
    // The devices hold what they held, if disks tell it, also where the store is refused.
    ensures same { IfOk result (λ b. M.Disk.told → contents M.Disk.cells b.store.disks ≡ images_at (M.cells room.old) group.now.dir member) }
    ensures same_back { (entry : ℕ) → IsErrOf result (OpeningEnd.Store entry) → M.Disk.told → images_at (M.cells room.new) group.now.dir member ≡ images_at (M.cells room.old) group.now.dir member }
    ensures later { M.faults room.old ≤ M.faults room.new }
{
    let Ok(settings) = member_settings(alloc, group, member) else {
        return Err(OpeningEnd::NoMemory);
    };
    let dir = group.dir.as_slice();
    match take_devices(alloc, room, dir, member) {
        Ok(disks) => match berth_on::<S, M::Disk>(alloc, settings, disks) {
            Ok(berth) => Ok(berth),
            Err((end, disks)) => {
                put_back(room, dir, member, disks);
                Err(end)
            }
        },
        Err(fault) => Err(end_of_room(fault)),
    }
}

/// Puts the devices of a member back into their room.
pub fn close_member<S: Service, M: DiskRoom>(room: &mut M, dir: &[u8], berth: Berth<S, M::Disk>)
    requires { AreHeld (M.taken room.old) M.Disk.faults dir.now berth.settings.member berth.store.disks }
    ensures later { M.faults room.old ≤ M.faults room.new }
    ensures back { AreFree (M.taken room.new) dir.now berth.settings.member }
    ensures contents { M.Disk.told → images_at (M.cells room.new) dir.now berth.settings.member ≡ contents M.Disk.cells berth.store.disks }
    ensures beside { KeepsBeside dir.now berth.settings.member (M.cells room.old) (M.cells room.new) }
    ensures beside_taken { KeepsBeside dir.now berth.settings.member (M.taken room.old) (M.taken room.new) }
{
    let Berth {
        settings,
        core: _,
        head: _,
        entries: _,
        store,
    } = berth;
    put_back(room, dir, settings.member, store.into_disks());
}

/// Puts the devices of members back into their room.
pub fn close_all<S: Service, M: DiskRoom>(room: &mut M, dir: &[u8], berths: Vec<Berth<S, M::Disk>>)
    requires { AllHeld (M.taken room.old) M.Disk.faults dir.now 1 berths.items }
    ensures later { M.faults room.old ≤ M.faults room.new }
    ensures returned { IsReturned dir.now 1 (vec_len berths + 1) 4 (record { before = M.cells room.old; after = M.cells room.new; taken_before = M.taken room.old; taken_after = M.taken room.new }) }
    // Each device holds what it held, if disks tell it.
    ensures contents { (images : ℕ → Images) → M.Disk.told → AllHold M.Disk.cells images 1 berths.items → (member : ℕ) → 1 ≤ member → member ≤ vec_len berths → images_at (M.cells room.new) dir.now member ≡ images member }
{
    let mut berths = berths;
    while let Some(berth) = berths.pop() {
        close_member(room, dir, berth);
    }
    berths.destroy_empty();
}

/// Opens the stores of all members, ascending. Errors: the entry of the lowest member whose store has one
/// without meaning; a failure of the room or of a device; want of memory. What was taken is put back then.
pub fn open_all<S: Service, M: DiskRoom>(
    alloc: Global,
    group: &GroupSettings,
    room: &mut M,
) -> Result<Vec<Berth<S, M::Disk>>, OpeningEnd>
    ensures berths { IfOk result (λ berths. AreBerths S.meaning M.Disk.told M.Disk.cells (λ member. images_at (M.cells room.old) group.now.dir member) group.now 1 berths.items) }
    ensures many { IfOk result (λ berths. vec_len berths ≡ group.now.members) }
    ensures held { IfOk result (λ berths. AllHeld (M.taken room.new) M.Disk.faults group.now.dir 1 berths.items) }
    // What belongs to others is as it was. After an error nothing more is taken than before.
    ensures lent { IfOk result (λ _. IsLent group.now.dir 1 (group.now.members + 1) 4 (record { before = M.cells room.old; after = M.cells room.new; taken_before = M.taken room.old; taken_after = M.taken room.new })) }
    ensures back { OnErr result (KeepsRest group.now.dir 1 (group.now.members + 1) 4 (record { before = M.cells room.old; after = M.cells room.new; taken_before = M.taken room.old; taken_after = M.taken room.new })) }
    // Where a store is refused, the devices of all members hold what they held, if disks tell it.
    ensures same { (entry : ℕ) → IsErrOf result (OpeningEnd.Store entry) → M.Disk.told → (member : ℕ) → 1 ≤ member → member ≤ group.now.members → images_at (M.cells room.new) group.now.dir member ≡ images_at (M.cells room.old) group.now.dir member }
    ensures refused { (entry : ℕ) → IsErrOf result (OpeningEnd.Store entry) → IsLowest S.meaning M.Disk.told (λ member. images_at (M.cells room.old) group.now.dir member) group.now entry }
    ensures disk { IsErrOf result OpeningEnd.Disk → Rose (M.faults room.old) (M.faults room.new) }
    ensures later { M.faults room.old ≤ M.faults room.new }
{
    let dir = group.dir.as_slice();
    let mut berths = Vec::new(alloc);
    if berths.reserve(usize::from(group.members)).is_err() {
        berths.destroy_empty();
        return Err(OpeningEnd::NoMemory);
    }
    for before in 0..group.members {
        match open_member::<S, M>(alloc, group, MemberId::new(before + 1), room) {
            Ok(berth) => berths.push_reserved(berth),
            Err(end) => {
                close_all(room, dir, berths);
                return Err(end);
            }
        }
    }
    Ok(berths)
}
