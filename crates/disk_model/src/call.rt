//! The calls that change a disk, as data.
ghost use Rattle.std.specs.Prelude.{◌≡◌, OnOk};
ghost use Rattle.faults.specs.Counts.{HasCause, HasWant};
ghost use Rattle.disk_model.specs.Cells.{IsImage, Within};
ghost use Rattle.disk_model.specs.Calls.{Elapses};
ghost use Rattle.disk_model.specs.DeviceCalls.{made, during, CanBeMade, HasRoom};

use crate::disk::Disk;
use faults::Fault;
use smart_base::sequence::Bytes;

/// A call that changes a disk.
#[derive(Drop)]
pub enum DeviceCall {
    /// Write these bytes from an index on.
    Write(u64, Bytes),
    /// Cut the contents to a length.
    Cut(u64),
    /// Make all of the contents sure.
    Sync,
}

/// Makes a call. Errors: a failure of the disk; want of memory. A call that fails may have done any
/// part of its work.
pub fn make<D: Disk>(device: &mut D, call: &DeviceCall) -> Result<(), Fault>
    requires { D.told → CanBeMade call.now (D.cells device.old) }
    ensures made { OnOk result (D.told → D.cells device.new ≡ made call.now (D.cells device.old)) }
    ensures torn { D.told → Within (D.cells device.new) (during call.now (D.cells device.old)) }
    ensures room { OnOk result (HasRoom call.now) }
    ensures time { Elapses (D.moment device.old) (D.moment device.new) (D.left_since device.old) (D.left_since device.new) (IsImage (D.cells device.new)) }
    ensures cause { HasCause (D.faults device.old) (D.faults device.new) result }
    ensures want { HasWant (D.wants device.old) (D.wants device.new) result }
{
    match call {
        DeviceCall::Write(at, bytes) => device.write_at(*at, bytes.as_slice()),
        DeviceCall::Cut(to) => device.cut(*to),
        DeviceCall::Sync => device.sync(),
    }
}
