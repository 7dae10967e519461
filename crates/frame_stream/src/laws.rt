//! The frames of a stream do not depend on where it was cut into pieces.
ghost use Rattle.std.specs.Prelude.{◌≡◌, ◌++◌, ℕ, List};
ghost use Rattle.frame_stream.specs.Frames.{IsCut, HasFed, Takes, Stream};

/// Bytes have one cut at most. The frames of a piece go on where those of the bytes before it end.
pub fn frames_are_those_of_all_bytes()
    ensures one { (bytes : List ℕ) (f g : List (List ℕ)) (r s : List ℕ) → IsCut bytes f r → IsCut bytes g s → (f ≡ g) × (r ≡ s) }
    ensures pieces { (bytes piece : List ℕ) (given : List (List ℕ)) (old new : Stream) → HasFed bytes given old → Takes old piece new → HasFed (bytes ++ piece) given new }
{}
