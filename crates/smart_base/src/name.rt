//! Names of members and clients.
ghost use Rattle.std.specs.Prelude.{◌≡◌};

use crate::duplicate::Duplicate;
use std::alloc::{AllocError, Global};
use std::marker::Model;

/// The name of a member of a group.
#[derive(Clone, Copy, Debug, PartialEq, Eq, PartialOrd, Ord)]
pub struct MemberId {
    number: u16,
}

impl Model for MemberId {
    ghost use Rattle.std.specs.Prelude.{ℕ};

    ghost Value = { ℕ };

    ghost view = { λ n. n.number };

    ghost inverse = { λ n. record { number = n } };
}

impl MemberId {
    pub fn new(number: u16) -> Self
        ensures { result ≡ number }
    {
        MemberId { number }
    }

    pub fn get(self) -> u16
        ensures { result ≡ self }
    {
        self.number
    }
}

impl Duplicate for MemberId {
    fn duplicate(&self, _alloc: Global) -> Result<MemberId, AllocError> {
        Ok(*self)
    }
}

/// The name of a client. Client 0 is the view manager.
#[derive(Clone, Copy, Debug, PartialEq, Eq, PartialOrd, Ord)]
pub struct ClientId {
    number: u16,
}

impl Model for ClientId {
    ghost use Rattle.std.specs.Prelude.{ℕ};

    ghost Value = { ℕ };

    ghost view = { λ n. n.number };

    ghost inverse = { λ n. record { number = n } };
}

impl ClientId {
    pub fn new(number: u16) -> Self
        ensures { result ≡ number }
    {
        ClientId { number }
    }

    pub fn get(self) -> u16
        ensures { result ≡ self }
    {
        self.number
    }
}
