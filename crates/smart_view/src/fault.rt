//! The faults of parts that make no view.

/// The first fault of the parts of a view.
#[derive(Clone, Copy, Debug, PartialEq, Eq)]
pub enum ViewFault {
    /// Fewer than 3f+1 members.
    TooFew = 1,
    /// More than 31 members.
    TooMany = 2,
    /// A member is there twice.
    Repeated = 3,
    /// A member has the number 0.
    Zero = 4,
    /// The view's number is above 1,023.
    Spent = 5,
}

impl ViewFault {
    ghost use Rattle.std.specs.Prelude.{◌≡◌};
    ghost use Rattle.smart_view.specs.Making.{code_of, name_of};

    /// The number of the fault, from 1 to 5.
    pub fn code(self) -> u8
        ensures { result ≡ code_of self }
    {
        self as u8
    }

    /// The name of the fault in texts.
    pub fn name(self) -> &'static str
        ensures { result.now ≡ name_of self }
    {
        match self {
            ViewFault::TooFew => "TooFew",
            ViewFault::TooMany => "TooMany",
            ViewFault::Repeated => "Repeated",
            ViewFault::Zero => "Zero",
            ViewFault::Spent => "Spent",
        }
    }
}
