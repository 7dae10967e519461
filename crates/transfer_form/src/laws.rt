//! Laws of the bytes of asks, offers, parts and decided batches.
ghost use Rattle.smart_base.specs.Spelling.{Law};
ghost use Rattle.transfer_form.specs.Transfers.{ask_text, FitsAsk, ask_at, offer_text, FitsOffer, offer_at, part_text, FitsPart, part_at, proven_text, FitsProven, proven_at};

/// What is read of asks, offers, parts and decided batches is what is spelled: each has one spelling.
pub fn what_is_read_is_spelled()
    ensures asks { Law FitsAsk ask_text ask_at }
    ensures offers { Law FitsOffer offer_text offer_at }
    ensures parts { Law FitsPart part_text part_at }
    ensures batches { Law FitsProven proven_text proven_at }
{}
