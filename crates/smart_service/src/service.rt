//! The service that is replicated.
ghost use Rattle.std.specs.Prelude.{◌≡◌, ◌≤◌, ℕ, List, length, Some, IfOk, OnOk, OnErr};
ghost use Rattle.smart_base.specs.Cuts.{IsBytes};
ghost use Rattle.smart_base.specs.Lists.{Each};
ghost use Rattle.smart_base.specs.declared.limits.TheConstants.{PAYLOAD_BYTES, STATE_BYTES};
ghost use Rattle.smart_service.specs.Services.{Meaning, Restores, IsPrintable};

use crate::fault::RestoreError;
use smart_base::bytes::Payload;
use smart_base::sequence::Bytes;
use std::alloc::{AllocError, Global};

/// A sequential service. Its replies follow from its state and the operation alone (state machine
/// replication). Its state has bytes from which it can be restored.
pub trait Service: Drop {
    /// The meaning: the first state, the state and the reply after an operation, and the bytes of
    /// states.
    ghost meaning: { Meaning Self };

    /// The valid states: those that the service reaches.
    ghost valid: { Self → Type 0 };

    /// The service before any operation. Error: want of memory.
    fn first(alloc: Global) -> Result<Self, AllocError>
        ensures { IfOk result (λ s. s ≡ Meaning.first meaning) };

    /// Runs an operation, which may change the state. Gives the reply, at most 4,096 printable bytes.
    /// Error: want of memory; the state is unchanged then.
    fn run(&mut self, alloc: Global, op: &[u8]) -> Result<Payload, AllocError>
        ensures reply { IfOk result (λ reply. reply ≡ Meaning.reply meaning self.old op.now) }
        ensures state { OnOk result (self.new ≡ Meaning.next meaning self.old op.now) }
        ensures err { OnErr result (self.new ≡ self.old) };

    /// The bytes of the state, at most 12,000,000. Error: want of memory.
    fn snapshot(&self, alloc: Global) -> Result<Bytes, AllocError>
        ensures { IfOk result (λ bytes. bytes ≡ Meaning.snapshot meaning self.now) };

    /// The service whose state the bytes are. Errors: `BadSnapshot` if they are no state's bytes;
    /// want of memory.
    fn restore(alloc: Global, bytes: &[u8]) -> Result<Self, RestoreError>
        ensures { Restores result (Meaning.restore meaning bytes.now) };

    // The law of short replies: a reply in a valid state has at most 4,096 bytes.
    ghost brief: { (s : Self) (op : List ℕ) → valid s → length (Meaning.reply meaning s op) ≤ PAYLOAD_BYTES };

    // The law of printable replies: the bytes of a reply in a valid state are from 32 to 126.
    ghost printable: { (s : Self) (op : List ℕ) → valid s → Each IsPrintable (Meaning.reply meaning s op) };

    // The laws of valid states: the first state is valid, and an operation makes a valid state of a valid one.
    ghost valid_first: { valid (Meaning.first meaning) };

    ghost valid_next: { (s : Self) (op : List ℕ) → valid s → valid (Meaning.next meaning s op) };

    // The law of small snapshots: a snapshot of a valid state has at most 12,000,000 bytes.
    ghost small: { (s : Self) → valid s → length (Meaning.snapshot meaning s) ≤ STATE_BYTES };

    // The law of restoring: a snapshot of a valid state restores that state.
    ghost restores: { (s : Self) → valid s → Meaning.restore meaning (Meaning.snapshot meaning s) ≡ Some s };

    // The laws of restored states: each is valid, and the bytes are its snapshot. A state thus has one spelling.
    ghost valid_restored: { (s : Self) (bytes : List ℕ) → IsBytes bytes → Meaning.restore meaning bytes ≡ Some s → valid s };

    ghost spelled: { (s : Self) (bytes : List ℕ) → IsBytes bytes → Meaning.restore meaning bytes ≡ Some s → bytes ≡ Meaning.snapshot meaning s };
}
