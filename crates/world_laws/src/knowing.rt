//! What clients know.
ghost use Rattle.std.specs.Prelude.{◌≡◌, ◌≤◌, ℕ, List, Some};
ghost use Rattle.smart_base.specs.declared.limits.TheConstants.{LAST_CLIENT};
ghost use Rattle.world_rules.specs.Worlds.{course_of, begun};
ghost use Rattle.world_rules.specs.Plays.{world_after, lines_told};
ghost use Rattle.world_rules.specs.declared.line.Header.{Header};
ghost use Rattle.world_rules.specs.declared.line.Line.{Line};
ghost use Rattle.world_rules.specs.Knowing.{known_by, seen_by};

use smart_service::service::Service;

/// A client's greatest known place is the greatest one that the transcript so far tells it, in every
/// play and after any lines: of a reply that it accepted, or as learned. If the transcript tells it
/// none, it knows none (0).
pub fn clients_know<S: Service>()
    ensures { (header : Header) (ls : List Line) (client : ℕ) → client ≤ LAST_CLIENT →
        seen_by (world_after (course_of S.meaning) (begun S.meaning header) ls) client ≡ Some (known_by client (lines_told (course_of S.meaning) (begun S.meaning header) ls)) }
{}
