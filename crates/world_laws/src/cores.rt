//! A play of cores: nodes that keep only what they still need.
ghost use Rattle.std.specs.Prelude.{◌≡◌, List};
ghost use Rattle.world_rules.specs.Worlds.{course_of, core_course, begun};
ghost use Rattle.world_rules.specs.Plays.{world_after, lines_told};
ghost use Rattle.world_rules.specs.declared.line.Header.{Header};
ghost use Rattle.world_rules.specs.declared.line.Line.{Line};
ghost use Rattle.world_laws.specs.Cores.{trimmed_world};

use smart_service::service::Service;

/// The play of cores tells the same lines as the play of whole nodes, for every script, with crashes
/// and restarts.
///
/// After the script its world is that of whole nodes, with two exceptions. Each node holds only the
/// arrivals and proposed slots that it still needs. Nothing of members' lives is written down.
pub fn cores_play_alike<S: Service>()
    ensures told { (header : Header) (ls : List Line) → lines_told (core_course S.meaning) (begun S.meaning header) ls ≡ lines_told (course_of S.meaning) (begun S.meaning header) ls }
    ensures world { (header : Header) (ls : List Line) → world_after (core_course S.meaning) (begun S.meaning header) ls ≡ trimmed_world (world_after (course_of S.meaning) (begun S.meaning header) ls) }
{}
