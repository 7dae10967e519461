//! The end of a call of a log or of a slot.
use std::alloc::AllocError;

/// The reason for which a call of a log or of a slot did not do its work.
#[derive(Clone, Copy, Debug, PartialEq, Eq)]
pub enum LogFault {
    /// The disk has failed: in this call, or, if `closed`, in an earlier one.
    Disk { closed: bool },
    /// Want of memory: in this call, or in the one that closed the log.
    NoMemory,
}

/// Whether a log takes calls, and what closed it.
#[derive(Clone, Copy, Debug, PartialEq, Eq)]
pub enum State {
    Open,
    /// A failure of the disk closed it.
    Failed,
    /// Want of memory inside a device call closed it.
    NoMemory,
}

impl State {
    ghost use Rattle.std.specs.Prelude.{◌≡◌, OnErr, IsErrOf, false};
    ghost use Rattle.store_form.specs.Ends.{Closes};

    /// What a closed log answers; an open one takes the call.
    pub fn check(self) -> Result<(), LogFault>
        ensures closes { Closes result self self }
        ensures not_now { IsErrOf result (LogFault.Disk false) → ⊥ }
        ensures closed { OnErr result (self ≡ State.Open → ⊥) }
    {
        match self {
            State::Open => Ok(()),
            State::Failed => Err(LogFault::Disk { closed: true }),
            State::NoMemory => Err(LogFault::NoMemory),
        }
    }
}

impl From<AllocError> for LogFault {
    ghost use Rattle.std.specs.Prelude.{◌≡◌};
    ghost use Rattle.store_form.specs.declared.ends.LogFault.TheVariants.{NoMemory};

    ghost from_gives = { λ _ e. e ≡ NoMemory };

    fn from(_e: AllocError) -> Self {
        LogFault::NoMemory
    }
}
