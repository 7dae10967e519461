//! The devices of a store.
ghost use Rattle.std.specs.Prelude.{◌≡◌, OnOk};

use disk_model::call::{DeviceCall, make};
use disk_model::disk::Disk;
use faults::Fault;
use store_laws::job::Device;

/// The four devices of a store, in the order of their numbers 0 to 3. Generation g has the log g mod
/// 2 and the slot 2 + g mod 2. Generation 0 has no slot.
#[derive(Drop)]
pub struct Disks<D: Disk> {
    /// Device 0.
    pub even_log: D,
    /// Device 1.
    pub odd_log: D,
    /// Device 2.
    pub even_slot: D,
    /// Device 3.
    pub odd_slot: D,
}

impl<D: Disk> Disks<D> {
    ghost use Rattle.std.specs.Prelude.{◌≡◌, OnOk};
    ghost use Rattle.faults.specs.Counts.{HasCause, HasWant};
    ghost use Rattle.disk_model.specs.Cells.{IsImage, Within};
    ghost use Rattle.disk_model.specs.Calls.{Elapses};
    ghost use Rattle.disk_model.specs.DeviceCalls.{made, during, CanBeMade, HasRoom};
    ghost use Rattle.durable_store.specs.Disks.{disk_at, OthersSame};

    /// Makes a call on a device. Errors: a failure of the device; want of memory. A call that fails may
    /// have done any part of its work.
    pub fn call(&mut self, device: Device, call: &DeviceCall) -> Result<(), Fault>
        requires { D.told → CanBeMade call.now (D.cells (disk_at device self.old)) }
        ensures made { OnOk result (D.told → D.cells (disk_at device self.new) ≡ made call.now (D.cells (disk_at device self.old))) }
        ensures torn { D.told → Within (D.cells (disk_at device self.new)) (during call.now (D.cells (disk_at device self.old))) }
        ensures room { OnOk result (HasRoom call.now) }
        ensures others { OthersSame device self.old self.new }
        ensures time { Elapses (D.moment (disk_at device self.old)) (D.moment (disk_at device self.new))
            (D.left_since (disk_at device self.old)) (D.left_since (disk_at device self.new)) (IsImage (D.cells (disk_at device self.new))) }
        ensures cause { HasCause (D.faults (disk_at device self.old)) (D.faults (disk_at device self.new)) result }
        ensures want { HasWant (D.wants (disk_at device self.old)) (D.wants (disk_at device self.new)) result }
    {
        match device {
            Device::Log(false) => make(&mut self.even_log, call),
            Device::Log(true) => make(&mut self.odd_log, call),
            Device::Slot(false) => make(&mut self.even_slot, call),
            Device::Slot(true) => make(&mut self.odd_slot, call),
        }
    }
}
