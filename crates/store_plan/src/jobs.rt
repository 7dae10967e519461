//! The calls of each job.
ghost use Rattle.std.specs.Prelude.{◌≡◌, ◌<◌, ◌+◌, ◌^◌, ◌++◌, ◌∷◌, [], length, IfOk, OnOk};
ghost use Rattle.store_form.specs.Spelling.{IsGroup, group_text, checkpoint_text};
ghost use Rattle.smart_base.specs.Lists.{Each};
ghost use Rattle.store_form.specs.Spelling.{IsEntry};
ghost use Rattle.batch_log.specs.LogCalls.{anew_text, repair_calls, group_calls};
ghost use Rattle.checkpoint_store.specs.SlotCalls.{close_calls};
ghost use Rattle.store_laws.specs.States.{calls_on, switch_calls};
ghost use Rattle.store_laws.specs.declared.job.Device.TheVariants.{Log, Slot};

use disk_model::call::DeviceCall;
use smart_base::sequence::{Bytes, Sequence};
use std::alloc::{AllocError, Global};
use store_form::group::put_group;
use store_laws::job::{Device, Gate, StoreCall};

/// The calls of a job, in order.
pub type Calls = Sequence<StoreCall>;

/// One byte. Error: want of memory.
fn one_byte(alloc: Global, byte: u8) -> Result<Bytes, AllocError>
    ensures { IfOk result (λ bytes. bytes ≡ byte ∷ []) }
{
    let mut bytes = Bytes::new(alloc);
    bytes.push(byte)?;
    Ok(bytes)
}

/// Adds a write and a sync. Error: want of memory.
fn add_write(calls: &mut Calls, device: Device, at: u64, bytes: Bytes) -> Result<(), AllocError>
    ensures { OnOk result (calls.new ≡ calls.old ++ (StoreCall.On device (DeviceCall.Write at bytes) ∷ (StoreCall.On device DeviceCall.Sync ∷ []))) }
{
    calls.push(StoreCall::On(device, DeviceCall::Write(at, bytes)))?;
    calls.push(StoreCall::On(device, DeviceCall::Sync))?;
    Ok(())
}

/// The close of a slot. Error: want of memory.
pub fn close_job(alloc: Global, odd: bool) -> Result<Calls, AllocError>
    ensures { IfOk result (λ calls. calls ≡ calls_on (Slot odd) close_calls) }
{
    let mut calls = Sequence::new(alloc);
    add_write(&mut calls, Device::Slot(odd), 0, one_byte(alloc, 0)?)?;
    Ok(calls)
}

/// The repair of a log. Error: want of memory.
pub fn repair_job(alloc: Global, side: bool, end: u64) -> Result<Calls, AllocError>
    ensures { IfOk result (λ calls. calls ≡ calls_on (Log side) (repair_calls end)) }
{
    let mut calls = Sequence::new(alloc);
    add_write(&mut calls, Device::Log(side), end, one_byte(alloc, 0)?)?;
    Ok(calls)
}

/// The addition of a group with this body. Error: want of memory.
pub fn group_job(alloc: Global, side: bool, end: u64, body: Bytes) -> Result<Calls, AllocError>
    requires { end < 2 ^ 63 }
    ensures { IfOk result (λ calls. calls ≡ calls_on (Log side) (group_calls end body)) }
{
    let mut calls = Sequence::new(alloc);
    let gate = one_byte(alloc, 1)?;
    add_write(&mut calls, Device::Log(side), end + 1, body)?;
    add_write(&mut calls, Device::Log(side), end, gate)?;
    Ok(calls)
}

/// The switch to the generation of this slot, with the bytes after its gate. Error: want of memory.
pub fn switch_job(alloc: Global, odd: bool, gate: Gate, text: Bytes) -> Result<Calls, AllocError>
    ensures { IfOk result (λ calls. calls ≡ switch_calls odd gate text) }
{
    let mut calls = Sequence::new(alloc);
    let (zero, one) = (one_byte(alloc, 0)?, one_byte(alloc, 1)?);
    if gate != Gate::Closed {
        add_write(&mut calls, Device::Slot(odd), 0, zero)?;
    }
    add_write(&mut calls, Device::Slot(odd), 1, text)?;
    calls.push(StoreCall::On(Device::Log(odd), DeviceCall::Cut(0)))?;
    calls.push(StoreCall::WriteTail)?;
    calls.push(StoreCall::On(Device::Log(odd), DeviceCall::Sync))?;
    add_write(&mut calls, Device::Slot(odd), 0, one)?;
    Ok(calls)
}

/// The bytes of the log of a new generation. Error: want of memory.
pub fn tail_text(alloc: Global, entries: &[Bytes]) -> Result<Bytes, AllocError>
    requires { Each IsEntry entries.now }
    ensures text { IfOk result (λ bytes. bytes ≡ anew_text entries.now) }
    ensures fits { OnOk result (IsGroup entries.now) }
{
    let mut bytes = Vec::new(alloc);
    bytes.push(1)?;
    put_group(alloc, &mut bytes, entries)?;
    bytes.push(0)?;
    Ok(Bytes::from_vec(bytes))
}
