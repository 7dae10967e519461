//! The devices of a store, and its jobs as lists of device calls.
use disk_model::call::DeviceCall;
use smart_base::sequence::{Bytes, Sequence};

/// A device of a store: the log or the slot of the even generations, or of the odd ones if `true`.
#[derive(Clone, Copy, Debug, PartialEq, Eq)]
pub enum Device {
    Log(bool),
    Slot(bool),
}

/// The gate of a slot, as the running job found it. The calls of a job change it on the device; the
/// state of a store has the new gate from the end of the job on.
#[derive(Clone, Copy, Debug, PartialEq, Eq)]
pub enum Gate {
    /// The slot has no byte.
    Absent,
    /// The byte is 0.
    Closed,
    /// The byte is not 0, and the slot does not count.
    Torn,
    /// The slot counts.
    Open,
}

/// A call of a job.
#[derive(Drop)]
pub enum StoreCall {
    /// This call on this device.
    On(Device, DeviceCall),
    /// The log of the next generation is written, with the tail that is given at this call.
    WriteTail,
}

/// What the end of the running job makes of a store. Of a store at rest it says nothing.
#[derive(Clone, Copy, Debug, PartialEq, Eq)]
pub enum Ending {
    /// The gate of a slot is closed; `true` for the odd generations.
    Closes(bool),
    /// The gate after the groups of the log is closed.
    Repairs,
    /// The running group is firm, and the groups end at this index.
    Adds(u64),
    /// The next generation is the present one. Its groups end at this index. The number is that of the
    /// last entry of its tail that was made in this life. Both are 0 until the tail is written.
    Switches(u64, u64),
}

/// The entries with which the log of a new generation begins.
#[derive(Drop)]
pub struct Tail {
    /// The number, from 1, of the last of these entries that was made in this life. It is 0 if that
    /// entry was restored, or there is none. At the switch's end all up to this number are firm, and
    /// wait no more, whatever the tail holds. The giver of a tail thus sees to it that those which
    /// waited till then are its last entries.
    pub made: u64,
    pub entries: Sequence<Bytes>,
}

/// What a store restores: the newest checkpoint that counts, and the entries of its generation's log,
/// in order. Without a checkpoint the generation is 0.
#[derive(Drop)]
pub struct Kept {
    pub present: Option<store_form::checkpoint::Checkpoint>,
    pub entries: Sequence<Bytes>,
}
