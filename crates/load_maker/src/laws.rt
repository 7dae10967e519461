//! Laws of the scripts of loads. They speak of the definitions alone.
ghost use Rattle.std.specs.Prelude.{◌≡◌, ◌+◌, ◌*◌, ◌/◌, ℕ, length};
ghost use Rattle.std.specs.List.{count_by};
ghost use Rattle.smart_base.specs.Lists.{Each};
ghost use Rattle.load_maker.specs.Loads.{load_lines, load_script};
ghost use Rattle.load_maker.specs.Kinds.{is_ask, is_flow, is_crash, is_restart, IsInRange};

/// How many lines of each kind a load of n asks has, and how many in all. Its lines name clients 1 to
/// 8, amounts 1 to 100 and members 1 to 4 alone.
pub fn what_a_load_has()
    ensures asks { (n : ℕ) → count_by is_ask (load_lines n) ≡ n }
    ensures flows { (n : ℕ) → count_by is_flow (load_lines n) ≡ (n + 7) / 8 }
    ensures crashes { (n : ℕ) → count_by is_crash (load_lines n) ≡ n / 64 }
    ensures restarts { (n : ℕ) → count_by is_restart (load_lines n) ≡ n / 64 }
    ensures lines { (n : ℕ) → length (load_script n) ≡ 3 + n + (n + 7) / 8 + 2 * (n / 64) }
    ensures within { (n : ℕ) → Each IsInRange (load_lines n) }
{}
