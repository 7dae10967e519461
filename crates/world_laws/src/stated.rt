//! Laws of what has been stated in a play.
ghost use Rattle.std.specs.Prelude.{◌≡◌, List};
ghost use Rattle.world_rules.specs.Worlds.{course_of, begun};
ghost use Rattle.world_rules.specs.Plays.{world_after};
ghost use Rattle.world_rules.specs.declared.line.Header.{Header};
ghost use Rattle.world_rules.specs.declared.line.Line.{Line};
ghost use Rattle.world_rules.specs.Stated.{IsWitnessed};
ghost use Rattle.world_laws.specs.Promises.{IsHeader};
ghost use Rattle.world_laws.specs.Stated.{StatedAsked};

use smart_service::service::Service;

/// Stated and firm agree in every play, over any group and after any lines. *Stated* are all
/// statements with verified tags in everything that was sent, also in what a script injected. A
/// member's *diary* is all that became firm there in all its lives, and what crashes brought back.
///
/// While a member's node runs, the firm part of the node's book is the cut of the diary at a place.
/// That is the place of the checkpoint with which this life began, 0 without one. After the member has
/// crashed, its devices restore the cut of the diary, at the place of their newest checkpoint. The
/// diary has made either place, if it is not 0. At most f members of
/// the view are declared faulty. Each diary is lawful, and rests on votes of quorums and on reports
/// that have been stated.
///
/// The diary shows each statement of its member, in whichever message it stands. It shows a vote by
/// its entry, a report by its promise and what stands before it, and a reply by having reached its
/// place. The premises of the law of one decision therefore hold in every play, whatever the
/// regencies. Each chosen batch has a decision for its place, in some regency, among what has been
/// stated.
pub fn what_is_stated_is_shown<S: Service>()
    ensures { (header : Header) (ls : List Line) → IsHeader header → IsWitnessed (world_after (course_of S.meaning) (begun S.meaning header) ls) }
{}

/// A request that bears its client's tag was signed and sent by that client, unless the client is
/// rogue. This holds in every play and after any lines. The request may stand in any message: the
/// client's own, a proposal, a report, one that a member passed on, or an injected one.
pub fn what_is_asked_is_sent<S: Service>()
    ensures { (header : Header) (ls : List Line) → IsHeader header → StatedAsked (world_after (course_of S.meaning) (begun S.meaning header) ls) }
{}
