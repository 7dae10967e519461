//! Laws of messages and their bytes.
ghost use Rattle.std.specs.Prelude.{◌≡◌, ℕ, List, Ok};
ghost use Rattle.smart_base.specs.Cuts.{IsBytes};
ghost use Rattle.smart_messages.specs.Messages.{Fits, spelling, decoded};
ghost use Rattle.smart_messages.specs.declared.message.Message.{Message};

/// A message has one spelling: its bytes are read as the message, and no other bytes are.
pub fn a_message_has_one_spelling()
    ensures read { (m : Message) → Fits m → decoded (spelling m) ≡ Ok m }
    ensures alone { (bytes : List ℕ) (m : Message) → IsBytes bytes → decoded bytes ≡ Ok m → Fits m × (bytes ≡ spelling m) }
{}
