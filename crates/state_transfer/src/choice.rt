//! The choice of a snapshot and of its seeder, or why there is none.
ghost use Rattle.std.specs.Prelude.{◌≡◌};
ghost use Rattle.state_transfer.specs.declared.choice.PlanError.TheVariants.{NoMemory};

use smart_base::bytes::Digest32;
use smart_base::name::MemberId;
use smart_base::number::{Place, ViewNo};
use smart_statements::report::Mark;
use smart_statements::signed_list::SignedList;
use std::alloc::AllocError;

/// The snapshot that a member takes over, by place and digest. One more members than may be faulty, of
/// the view of this number, marked it: their marks ascend by member. The seeder gives its parts, which
/// have so many bytes together.
pub struct Plan {
    pub place: Place,
    pub digest: Digest32,
    pub view: ViewNo,
    pub marks: SignedList<Mark>,
    pub seeder: MemberId,
    pub size: u32,
}

/// Let go by one call, so that no function that lets one go carries the whole of it.
impl Drop for Plan {
    fn drop(self) {
        let Plan {
            place: _,
            digest: _,
            view: _,
            marks: _,
            seeder: _,
            size: _,
        } = self;
    }
}

/// A member that offers a snapshot of so many bytes.
#[derive(Clone, Copy, Debug)]
pub struct Seeder {
    pub member: MemberId,
    pub size: u32,
}

/// The most equal marks of an offered place past the asker's, and how many a plan needs.
#[derive(Clone, Copy, Debug, PartialEq, Eq)]
pub struct NotYet {
    pub agreeing: usize,
    pub need: usize,
}

/// Why there is no plan.
#[derive(Debug, Drop)]
pub enum PlanError {
    /// Want of memory.
    NoMemory,
    /// No offered place past the asker's has enough equal marks.
    NotYet(NotYet),
}

impl From<AllocError> for PlanError {
    ghost from_gives = { λ _ e. e ≡ NoMemory };

    fn from(_e: AllocError) -> PlanError {
        PlanError::NoMemory
    }
}
