//! Laws of digests and tags.
ghost use Rattle.std.specs.Prelude.{◌≡◌, ◌<◌, ℕ, List, true, length};
ghost use Rattle.smart_base.specs.Lists.{Each};
ghost use Rattle.smart_base.specs.declared.party.Party.{Party};
ghost use Rattle.smart_keys.specs.Keys.{digest, hmac, key_of, tag_of, is_tag};

/// A digest has 32 bytes.
pub fn a_digest_has_its_length()
    ensures { (bytes : List ℕ) → length (digest bytes) ≡ 32 }
{}

/// A digest consists of bytes.
pub fn a_digest_consists_of_bytes()
    ensures { (bytes : List ℕ) → Each (λ byte. byte < 256) (digest bytes) }
{}

/// A tag has 32 bytes.
pub fn a_tag_has_its_length()
    ensures { (secret : List ℕ) (who : Party) (text : List ℕ) → length (tag_of secret who text) ≡ 32 }
{}

/// What a sealer of a party makes is the party's tag.
pub fn a_sealer_makes_tags_of_its_party()
    ensures { (secret : List ℕ) (who : Party) (text : List ℕ) → hmac (key_of secret who) text ≡ tag_of secret who text }
{}

/// What a sealer of a party makes is told to be the party's.
pub fn what_a_sealer_makes_is_verified()
    ensures { (secret : List ℕ) (who : Party) (text : List ℕ) → is_tag secret who text (hmac (key_of secret who) text) ≡ true }
{}

/// The tag that a party makes is told to be the party's.
pub fn a_made_tag_is_verified()
    ensures { (secret : List ℕ) (who : Party) (text : List ℕ) → is_tag secret who text (tag_of secret who text) ≡ true }
{}

/// No other string of bytes is told to be a party's tag.
pub fn no_other_tag_is_verified()
    ensures { (secret : List ℕ) (who : Party) (text tag : List ℕ) → is_tag secret who text tag ≡ true → tag ≡ tag_of secret who text }
{}
