//! Why a row was not tried.
use std::alloc::{AllocError, AllocFailed};
use std::io;

/// Why a row was not tried.
#[derive(Debug, Drop)]
pub enum RowFault {
    /// Memory ran out.
    NoMemory,
    /// A word or a part of the row has no meaning.
    Word,
    /// A room, a disk or a sink has failed.
    Room,
    /// A row puts more entries into its lane than there is room for.
    Full,
    /// A file could not be read or removed, or nothing could be said.
    Output(io::Error),
}

impl From<AllocError> for RowFault {
    ghost use Rattle.std.specs.Prelude.{◌≡◌};
    ghost use Rattle.node_rows.specs.declared.fault.RowFault.TheVariants.{NoMemory};

    ghost from_gives = { λ _ e. e ≡ NoMemory };

    fn from(_: AllocError) -> RowFault {
        RowFault::NoMemory
    }
}

impl<T: Drop> From<AllocFailed<T>> for RowFault {
    ghost use Rattle.std.specs.Prelude.{◌≡◌};
    ghost use Rattle.node_rows.specs.declared.fault.RowFault.TheVariants.{NoMemory};

    ghost from_gives = { λ _ e. e ≡ NoMemory };

    fn from(_: AllocFailed<T>) -> RowFault {
        RowFault::NoMemory
    }
}

impl From<io::Error> for RowFault {
    ghost use Rattle.std.specs.Prelude.{◌≡◌};
    ghost use Rattle.node_rows.specs.declared.fault.RowFault.TheVariants.{Output};

    ghost from_gives = { λ error e. e ≡ Output error };

    fn from(error: io::Error) -> RowFault {
        RowFault::Output(error)
    }
}
