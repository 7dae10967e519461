//! The views of a replica, where requests of the view manager begin others.
ghost use Rattle.std.specs.Prelude.{◌≡◌, ◌<◌, ◌++◌, ◌∷◌, [], List, Some, OnErr, IfOk, OnOk};
ghost use Rattle.smart_base.specs.Views.{View, present};
ghost use Rattle.reconfig.specs.Outcomes.{views_behind};
ghost use Rattle.delivery.specs.Moves.{IsMoved, IsBegun, BeginsLater};

use reconfig::outcome::Outcome;
use reconfig::views::with_view;
use smart_base::duplicate::Duplicate;
use smart_base::view::{View, Views};
use std::alloc::{AllocError, Global};
use std::mem;

/// Two copies of a view that began: a member has one for its instance and one for its part in a leader
/// change.
#[derive(Drop)]
pub struct Begun {
    pub own: View,
    pub other: View,
}

/// The views before some requests, and the view that these began.
#[derive(Drop)]
pub(crate) struct Move {
    former: Views,
    begun: Begun,
}

/// Takes a view behind the others. Error: want of memory; they are as they were.
#[tactic(auto, using(crate::proofs::Moves::moved_end))]
fn take_view(alloc: Global, views: &mut Views, view: &View) -> Result<Move, AllocError>
    requires later { (present views.old).number < view.now.number }
    ensures views { OnOk result (views.new ≡ views.old ++ view.now ∷ []) }
    ensures moved { IfOk result (λ m. IsMoved views.old views.new (Some m)) }
    ensures err { OnErr result (views.new ≡ views.old) }
{
    let own = view.duplicate(alloc)?;
    let other = view.duplicate(alloc)?;
    let more = with_view(alloc, views, view.duplicate(alloc)?)?;
    let former = mem::replace(views, more);
    let begun = Begun { own, other };
    Ok(Move { former, begun })
}

/// Views, with the one that an outcome begins. Error: want of memory; they are as they were.
pub(crate) fn take_outcome(
    alloc: Global,
    views: &mut Views,
    outcome: &Outcome,
) -> Result<Option<Move>, AllocError>
    requires later { BeginsLater views.old outcome.now }
    ensures views { OnOk result (views.new ≡ views_behind views.old outcome.now) }
    ensures moved { IfOk result (λ moved. IsMoved views.old views.new moved) }
    ensures err { OnErr result (views.new ≡ views.old) }
{
    match outcome {
        Outcome::Begins { view } => {
            let moved = take_view(alloc, views, view)?;
            Ok(Some(moved))
        }
        Outcome::Refused { fault: _ } | Outcome::NoChange => Ok(None),
    }
}

/// Two moves, one behind the other, as one.
#[tactic(auto, using(crate::proofs::Moves::moved_none, crate::proofs::Moves::moved_first, crate::proofs::Moves::moved_both))]
pub(crate) fn both_moves(moved: Option<Move>, later: Option<Move>) -> Option<Move>
    ensures { (first second third : List View) → IsMoved first second moved → IsMoved second third later → IsMoved first third result }
{
    match (moved, later) {
        (moved, None) => moved,
        (None, later) => later,
        (Some(moved), Some(later)) => Some(Move {
            former: moved.former,
            begun: later.begun,
        }),
    }
}

/// The view that a move began, if there was one.
pub(crate) fn begun_by(moved: Option<Move>) -> Option<Begun>
    ensures { (before now : List View) → IsMoved before now moved → IsBegun before now result }
{
    match moved {
        None => None,
        Some(moved) => Some(moved.begun),
    }
}

/// Puts the views before a move back.
pub(crate) fn put_back(views: &mut Views, moved: Option<Move>)
    ensures { (before : List View) → IsMoved before views.old moved → views.new ≡ before }
{
    match moved {
        None => (),
        Some(moved) => *views = moved.former,
    }
}
