//! Laws of rest: a repetition that ends as soon as it changes nothing.
ghost use Rattle.std.specs.Prelude.{◌≡◌, ◌≤◌, ℕ};
ghost use Rattle.world_rules.specs.Repeats.{repeated, turns, until_rest};
ghost use Rattle.world_rules.specs.Worlds.{World};

use smart_service::service::Service;

/// A world that a function does not change is the end of the function's repetition there.
pub fn rest_is_kept<S: Service>()
    ensures { (f : World S → World S) (w : World S) → f w ≡ w → until_rest f w ≡ w }
{}

/// The world at which at most 2^64 - 1 turns come to rest is the end of the repetition.
pub fn rest_is_reached<S: Service>()
    ensures { (f : World S → World S) (k : ℕ) (w : World S) → k ≤ turns → f (repeated f k w) ≡ repeated f k w → until_rest f w ≡ repeated f k w }
{}
