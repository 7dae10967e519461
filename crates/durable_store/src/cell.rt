//! What the workers of a log and of checkpoints ask of the seat of a node.
ghost use Rattle.std.specs.Prelude.{◌≡◌, ◌<◌, ◌^◌, ℕ, List, length, Option, Some, None, IfOk, IfSome};
ghost use Rattle.store_laws.specs.declared.job.Tail.{Tail};
ghost use Rattle.store_plan.specs.Fit.{AreEntries};

use smart_base::sequence::Bytes;
use std::alloc::{AllocError, Global};
use store_laws::job::Tail;

/// The seat of a node, as its workers see it. A snapshot stands beside the place whose replica it is.
///
/// The worker of checkpoints asks for what is wanted, and hands it over. The worker of the log takes
/// what was handed, and switches to it with the tail from that place on.
pub trait CoreCell {
    /// Whether no one else changes the seat. Each clause on what the seat holds has this premise, as
    /// others may change a seat under a lock between two calls.
    ghost alone: { Type 0 };

    /// The bytes that are those of a replica of a place.
    ghost is_replica: { ℕ → List ℕ → Type 0 };

    /// The last snapshot for which the node wants a switch.
    ghost wants: { Self → Option (ℕ × List ℕ) };

    /// The snapshot that was handed last, and was not taken since.
    ghost hands: { Self → Option (ℕ × List ℕ) };

    /// The tails that belong to a place: those with which a log may begin after a switch to the snapshot
    /// of this place.
    ghost is_tail: { ℕ → Tail → Type 0 };

    /// The tail with which the log of a generation begins, by the place of its snapshot.
    ghost tails: { Self → ℕ → Tail };

    /// A copy of the last snapshot for which the node wants a switch, with its place. Error: want of
    /// memory.
    fn wanted(&mut self, alloc: Global) -> Result<Option<(u64, Bytes)>, AllocError>
        ensures wanted { IfOk result (λ found. alone → found ≡ wants self.old) }
        ensures replica { IfOk result (λ found. IfSome found (λ x. is_replica x.0 x.1)) }
        ensures fits { IfOk result (λ found. IfSome found (λ x. length x.1 < 2 ^ 32)) }
        ensures same { alone → (wants self.new ≡ wants self.old) × ((hands self.new ≡ hands self.old) × (tails self.new ≡ tails self.old)) };

    /// Hands a snapshot over, in the place of what was handed before.
    fn hand(&mut self, place: u64, snapshot: Bytes)
        requires replica { is_replica place snapshot }
        requires fits { length snapshot < 2 ^ 32 }
        ensures handed { alone → hands self.new ≡ Some (place, snapshot) }
        ensures same { alone → (wants self.new ≡ wants self.old) × (tails self.new ≡ tails self.old) };

    /// Takes what was handed last.
    fn handed(&mut self) -> Option<(u64, Bytes)>
        ensures handed { alone → result ≡ hands self.old }
        ensures taken { alone → hands self.new ≡ None }
        ensures replica { IfSome result (λ x. is_replica x.0 x.1) }
        ensures fits { IfSome result (λ x. length x.1 < 2 ^ 32) }
        ensures same { alone → (wants self.new ≡ wants self.old) × (tails self.new ≡ tails self.old) };

    /// The tail with which the log begins after a switch to the snapshot of this place. Error: want of
    /// memory.
    fn tail(&mut self, alloc: Global, place: u64) -> Result<Tail, AllocError>
        ensures tail { IfOk result (λ tail. alone → tail ≡ tails self.old place) }
        ensures of_place { IfOk result (λ tail. is_tail place tail) }
        ensures fits { IfOk result (λ tail. AreEntries tail.entries) }
        ensures same { alone → (wants self.new ≡ wants self.old) × ((hands self.new ≡ hands self.old) × (tails self.new ≡ tails self.old)) };

    /// Tells that a group is about to be written. `decided` is the greatest place that is decided in it,
    /// 0 if none is. The call may wait.
    fn before_write(&mut self, decided: u64)
        ensures same { alone → (wants self.new ≡ wants self.old) × ((hands self.new ≡ hands self.old) × (tails self.new ≡ tails self.old)) };
}
