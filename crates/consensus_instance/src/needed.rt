//! What is still needed past a place.
ghost use Rattle.std.specs.Prelude.{◌≡◌, filter};
ghost use Rattle.node_rules.specs.Kept.{is_ahead, is_needed};

use smart_base::number::{Place, Regency, ViewNo};
use smart_messages::message::{Message, slot_of};
use smart_statements::statement::Slot;

/// Whether a slot is of this view, past a place, and of this regency or a later one.
pub fn is_ahead(view: ViewNo, place: Place, regency: Regency, slot: &Slot) -> bool
    ensures { result ≡ is_ahead view place regency slot.now }
{
    place < slot.place && slot.view == view && regency <= slot.regency
}

fn is_needed(view: ViewNo, place: Place, regency: Regency, message: &Message) -> bool
    ensures { result ≡ is_needed view place regency message.now }
{
    match slot_of(message) {
        None => false,
        Some(slot) => is_ahead(view, place, regency, &slot),
    }
}

/// Keeps only the messages that are still needed past a place.
pub fn keep_needed(arrivals: &mut Vec<Message>, view: ViewNo, place: Place, regency: Regency)
    ensures { arrivals.new.items ≡ filter (is_needed view place regency) arrivals.old.items }
{
    arrivals.retain(|message| is_needed(view, place, regency, message));
}
