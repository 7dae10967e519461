//! Tags that were checked, beside the texts over which they are.
ghost use Rattle.std.specs.Prelude.{◌≡◌, IfSome};

use smart_base::bytes::Digest32;
use smart_base::equality::same_bytes;
use smart_base::sequence::Bytes;

/// The tag that a party's key makes over a text, beside the party's bytes and the text.
pub struct Checked {
    name: [u8; 3],
    text: Bytes,
    tag: Digest32,
}

/// Let go by one call, so that no function that lets one go carries the whole of it.
impl Drop for Checked {
    fn drop(self) {
        let Checked {
            name: _,
            text: _,
            tag: _,
        } = self;
    }
}

impl Checked {
    pub fn new(name: [u8; 3], text: Bytes, tag: Digest32) -> Self
        ensures { result ≡ record { name = name; text = text; tag = tag } }
    {
        Checked { name, text, tag }
    }

    /// The tag, if it is of the party of these bytes, and over this text.
    pub fn tag_of(&self, name: &[u8; 3], text: &[u8]) -> Option<Digest32>
        ensures { IfSome result (λ tag. (tag ≡ self.now.tag) × (self.now.name ≡ name.now) × (self.now.text ≡ text.now)) }
    {
        if same_bytes(&self.name, name) && same_bytes(self.text.as_slice(), text) {
            Some(self.tag)
        } else {
            None
        }
    }
}
