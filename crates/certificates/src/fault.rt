//! The faults of signed statements that are no certificate.

/// The first fault of votes, marks or reports.
#[derive(Clone, Copy, Debug, PartialEq, Eq)]
pub enum CertFault {
    /// They are too few: fewer votes than a quorum's, than f+1 marks, or than n-f reports.
    TooFew = 1,
    /// A signer is no member of the view.
    Stranger = 2,
    /// A signer has signed an earlier one.
    Twice = 3,
    /// A statement is not the one that it has to be; in a report, evidence or a lock may not hold.
    Unequal = 4,
    /// A tag is not the one that the signer makes.
    BadTag = 5,
}

impl CertFault {
    ghost use Rattle.std.specs.Prelude.{◌≡◌};
    ghost use Rattle.certificates.specs.Certificates.{code_of};

    /// The number of the fault, from 1 to 5.
    pub fn code(self) -> u8
        ensures { result ≡ code_of self }
    {
        self as u8
    }
}
