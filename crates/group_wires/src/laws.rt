//! Laws of the links of a group.
ghost use Rattle.std.specs.Prelude.{◌≤◌, [], ℕ, List, get_or};
ghost use Rattle.smart_base.specs.Lists.{Each};
ghost use Rattle.node_rules.specs.declared.node.Target.{Target};
ghost use Rattle.trail.specs.declared.event.TrailEvent.{TrailEvent};
ghost use Rattle.trail_rules.specs.Replays.{arrivals};
ghost use Rattle.group_ends.specs.Carried.{times};
ghost use Rattle.group_ends.specs.Facts.{poured};
ghost use Rattle.group_ends.specs.Ports.{AreApart};
ghost use Rattle.group_wires.specs.Comings.{AreCarried, LeadsTo, all_carried};
ghost use Rattle.group_wires.specs.Wires.{HaveCome, all_ends, member_ends, row_puts};
ghost use Rattle.group_wires.specs.declared.row.Row.{Row};

/// What comes to a party is among what the trails of a group send to it and do not tell as lost, each message
/// as often at most. Its links have come together, and no more arrived by its trail than was taken from them.
pub fn what_comes_was_sent()
    ensures { (trails : List (List TrailEvent)) (rows : List Row) (inboxes : List (List (List (List ℕ)))) (index : ℕ) (end : Target) (events : List TrailEvent) (bytes : List ℕ) →
        AreCarried trails rows → Each (LeadsTo index end) rows → HaveCome (row_puts rows) inboxes → ((x : List ℕ) → times x (arrivals events) ≤ times x (poured (get_or inboxes index [])))
        → times bytes (arrivals events) ≤ times bytes (all_carried end trails) }
{}

/// No party has two links to one end.
pub fn ends_are_apart()
    ensures all { (members : ℕ) → AreApart (all_ends members) }
    ensures others { (members : ℕ) → AreApart (member_ends members) }
{}
