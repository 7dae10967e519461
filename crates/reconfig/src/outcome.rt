//! What an operation of the view manager comes to.
ghost use Rattle.std.specs.Prelude.{◌≡◌, ◌++◌, codes, IfOk};
ghost use Rattle.std.specs.Fmt.{decimal};
ghost use Rattle.smart_view.specs.Making.{name_of};
ghost use Rattle.reconfig.specs.Outcomes.{outcome_of, reply_of, Cause};

use crate::apply::apply;
use crate::codec::read_change;
use smart_base::bytes::Payload;
use smart_base::fault::ReadError;
use smart_base::number::Place;
use smart_base::view::{View, Views};
use smart_view::fault::ViewFault;
use std::alloc::{AllocError, Global};
use std::fmt::Write;

/// What an operation of the view manager comes to.
pub enum Outcome {
    /// It is a change, and begins this view.
    Begins { view: View },
    /// It is a change, and begins no view: this is the first fault of its parts.
    Refused { fault: ViewFault },
    /// It is no change.
    NoChange,
}

/// Let go by one call, so that no function that lets one go carries the whole of it.
impl Drop for Outcome {
    fn drop(self) {
        match self {
            Outcome::Begins { view: _ } => (),
            Outcome::Refused { fault: _ } => (),
            Outcome::NoChange => (),
        }
    }
}

fn outcome_of(alloc: Global, views: &Views, op: &[u8], place: Place) -> Result<Outcome, AllocError>
    ensures { IfOk result (λ o. o ≡ outcome_of views.now op.now place) }
{
    let change = match read_change(alloc, op) {
        Ok(change) => change,
        Err(ReadError::Unread { at: _ }) => return Ok(Outcome::NoChange),
        Err(ReadError::NoMemory) => return Err(AllocError),
    };
    match apply(views, change, place.get() + 1) {
        Ok(view) => Ok(Outcome::Begins { view }),
        Err(fault) => Ok(Outcome::Refused { fault }),
    }
}

/// What an operation comes to that is executed at a place, behind some views. A view begins at the
/// next place, with its first regency. Error: want of memory.
pub fn execute(alloc: Global, views: &Views, op: &[u8], place: Place) -> Result<Outcome, AllocError>
    ensures value { IfOk result (λ o. o ≡ outcome_of views.now op.now place) }
    ensures cause { IfOk result (λ o. Cause views.now op.now place o) }
{
    outcome_of(alloc, views, op, place)
}

/// The reply that tells the number of the view that begins.
#[tactic(auto, using(crate::proofs::Replies::short_decimal))]
fn begun(alloc: Global, number: u32) -> Result<Payload, AllocError>
    ensures { IfOk result (λ reply. reply ≡ codes "view " ++ decimal number) }
{
    let mut text = String::new(alloc);
    write!(text, "view {number}")?;
    Payload::from_slice(alloc, text.as_bytes())
}

/// The reply that tells a fault.
#[tactic(auto, using(crate::proofs::Replies::short_name))]
fn refused(alloc: Global, fault: ViewFault) -> Result<Payload, AllocError>
    ensures { IfOk result (λ reply. reply ≡ codes "refused " ++ name_of fault) }
{
    let name = fault.name();
    let mut text = String::new(alloc);
    write!(text, "refused {name}")?;
    Payload::from_slice(alloc, text.as_bytes())
}

impl Outcome {
    /// The reply to the view manager: `view V`, `refused NAME` or `?`. Error: want of memory.
    pub fn reply(&self, alloc: Global) -> Result<Payload, AllocError>
        ensures { IfOk result (λ reply. reply ≡ reply_of self.now) }
    {
        match self {
            Outcome::Begins { view } => begun(alloc, view.number().get()),
            Outcome::Refused { fault } => refused(alloc, *fault),
            Outcome::NoChange => Payload::from_slice(alloc, b"?"),
        }
    }
}
