//! Numbers as types.
ghost use Rattle.std.specs.Prelude.{◌≡◌, ◌+◌, ◌<◌, ◌^◌};

use std::marker::Model;

/// A place of the one list of batches, from 1 on; 0 stands before the first. It is below 2^63.
#[derive(Clone, Copy, Debug, PartialEq, Eq, PartialOrd, Ord)]
pub struct Place {
    number: u64,
}

impl Model for Place {
    ghost use Rattle.std.specs.Prelude.{ℕ, ◌<◌, ◌^◌};

    ghost Value = { ℕ };

    ghost view = { λ n. n.number };

    ghost invariant = { λ n. n.number < 2 ^ 63 };

    ghost inverse = { λ n. record { number = n } };
}

impl Place {
    pub fn new(number: u64) -> Self
        requires { number < 2 ^ 63 }
        ensures { result ≡ number }
    {
        Place { number }
    }

    /// The place before the first.
    pub fn zero() -> Self
        ensures { result ≡ 0 }
    {
        Place { number: 0 }
    }

    /// The place behind this one.
    pub fn next(self) -> Self
        requires { self + 1 < 2 ^ 63 }
        ensures { result ≡ self + 1 }
    {
        Place {
            number: self.number + 1,
        }
    }

    pub fn get(self) -> u64
        ensures value { result ≡ self }
        ensures small { result < 2 ^ 63 }
    {
        self.number
    }
}

/// The number of a view, from 0 on.
#[derive(Clone, Copy, Debug, PartialEq, Eq, PartialOrd, Ord)]
pub struct ViewNo {
    number: u32,
}

impl Model for ViewNo {
    ghost use Rattle.std.specs.Prelude.{ℕ};

    ghost Value = { ℕ };

    ghost view = { λ n. n.number };

    ghost inverse = { λ n. record { number = n } };
}

impl ViewNo {
    pub fn new(number: u32) -> Self
        ensures { result ≡ number }
    {
        ViewNo { number }
    }

    pub fn get(self) -> u32
        ensures { result ≡ self }
    {
        self.number
    }
}

/// The number of a leader's term in one view, from 0 on.
#[derive(Clone, Copy, Debug, PartialEq, Eq, PartialOrd, Ord)]
pub struct Regency {
    number: u32,
}

impl Model for Regency {
    ghost use Rattle.std.specs.Prelude.{ℕ};

    ghost Value = { ℕ };

    ghost view = { λ n. n.number };

    ghost inverse = { λ n. record { number = n } };
}

impl Regency {
    pub fn new(number: u32) -> Self
        ensures { result ≡ number }
    {
        Regency { number }
    }

    pub fn get(self) -> u32
        ensures { result ≡ self }
    {
        self.number
    }
}
