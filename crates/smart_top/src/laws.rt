//! Laws of loads. They speak of the definitions alone.
ghost use Rattle.std.specs.Prelude.{ℕ};
ghost use Rattle.script_play.specs.Apps.{node_courses};
ghost use Rattle.smart_top.specs.Loads.{load_read, IsOfPlay};

/// Each line of a load's script has a meaning, and names what is there. A line is refused only if its
/// play breaks a premise or passes a limit.
pub fn each_line_of_a_load_has_a_meaning()
    ensures { (n : ℕ) → IsOfPlay (load_read node_courses n).refused }
{}
