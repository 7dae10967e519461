//! What a bench has done, and why one came to no end.
use smart_base::fault::ReadError;
use smart_base::keys::SignRefused;
use std::alloc::AllocError;
use store_form::ends::LogFault;

/// What was done: how many bytes or entries were worked on, and a number that depends on all of it.
#[derive(Clone, Copy, Debug)]
pub struct Done {
    pub amount: u64,
    pub sum: u64,
}

impl Done {
    pub fn nothing() -> Done {
        Done { amount: 0, sum: 0 }
    }

    pub fn with(self, amount: u64, part: u64) -> Done {
        Done {
            amount: self.amount.wrapping_add(amount),
            sum: self.sum.wrapping_mul(31).wrapping_add(part),
        }
    }
}

/// Why a bench came to no end.
#[derive(Clone, Copy, Debug)]
pub enum Stopped {
    NoMemory,
    /// The words name no bench.
    Words,
    /// What was written as a snapshot is none, or no plan brings it.
    Snapshot,
    /// A disk has failed, or a file was not opened.
    Disk,
}

impl Stopped {
    /// The exit status of the program.
    pub fn status(self) -> u8 {
        match self {
            Stopped::Words => 2,
            Stopped::Snapshot => 3,
            Stopped::Disk => 6,
            Stopped::NoMemory => 11,
        }
    }
}

impl From<AllocError> for Stopped {
    ghost use Rattle.std.specs.Prelude.{◌≡◌};
    ghost use Rattle.benches.specs.declared.done.Stopped.TheVariants.{NoMemory};

    ghost from_gives = { λ _ e. e ≡ NoMemory };

    fn from(_: AllocError) -> Stopped {
        Stopped::NoMemory
    }
}

impl From<SignRefused> for Stopped {
    ghost use Rattle.std.specs.Prelude.{◌≡◌};
    ghost use Rattle.benches.specs.declared.done.Stopped.TheVariants.{NoMemory};

    ghost from_gives = { λ _ e. e ≡ NoMemory };

    fn from(_: SignRefused) -> Stopped {
        Stopped::NoMemory
    }
}

impl From<ReadError> for Stopped {
    ghost use Rattle.std.specs.Prelude.{◌≡◌};
    ghost use Rattle.benches.specs.declared.done.Stopped.TheVariants.{NoMemory};

    ghost from_gives = { λ _ e. e ≡ NoMemory };

    fn from(_: ReadError) -> Stopped {
        Stopped::NoMemory
    }
}

/// What a fault of a log makes of the bench.
pub fn stop_of(fault: LogFault) -> Stopped {
    match fault {
        LogFault::Disk { .. } => Stopped::Disk,
        LogFault::NoMemory => Stopped::NoMemory,
    }
}
