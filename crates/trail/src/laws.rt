//! Laws of the bytes of trails.
ghost use Rattle.std.specs.Prelude.{◌≡◌, ℕ, List, Ok};
ghost use Rattle.smart_base.specs.Cuts.{IsBytes};
ghost use Rattle.trail.specs.Events.{event_text, FitsEvent, event_decoded};
ghost use Rattle.trail.specs.Openings.{opening_text, FitsOpening, opening_decoded};
ghost use Rattle.trail.specs.declared.event.TrailEvent.{TrailEvent};
ghost use Rattle.trail.specs.declared.opening.TrailOpening.{TrailOpening};

/// What is spelled is read again, and nothing else is.
pub fn an_event_has_one_spelling()
    ensures read { (e : TrailEvent) → FitsEvent e → event_decoded (event_text e) ≡ Ok e }
    ensures alone { (bytes : List ℕ) (e : TrailEvent) → IsBytes bytes → event_decoded bytes ≡ Ok e → FitsEvent e × (bytes ≡ event_text e) }
{}

/// An opening has one spelling, too.
pub fn an_opening_has_one_spelling()
    ensures read { (o : TrailOpening) → FitsOpening o → opening_decoded (opening_text o) ≡ Ok o }
    ensures alone { (bytes : List ℕ) (o : TrailOpening) → IsBytes bytes → opening_decoded bytes ≡ Ok o → FitsOpening o × (bytes ≡ opening_text o) }
{}
