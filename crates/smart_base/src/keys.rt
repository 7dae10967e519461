//! What signs, verifies and digests bytes. The scheme is behind these traits.
ghost use Rattle.std.specs.Prelude.{◌≡◌, ℕ, List, Bool, IfOk, IfErr};
ghost use Rattle.smart_base.specs.declared.keys.SignRefused.{SignRefused};
ghost use Rattle.smart_base.specs.declared.party.Party.{Party};

use crate::bytes::{Digest32, Tag};
use crate::party::Party;
use std::alloc::{AllocError, Global};

/// Why nothing was signed.
#[derive(Clone, Copy, Debug, PartialEq, Eq)]
pub enum SignRefused {
    /// Memory ran out.
    NoMemory,
    /// The signer has no signature left.
    Spent,
    /// The disk that keeps what the signer has used failed.
    Disk,
}

impl From<AllocError> for SignRefused {
    ghost use Rattle.std.specs.Prelude.{◌≡◌};
    ghost use Rattle.smart_base.specs.declared.keys.SignRefused.TheVariants.{NoMemory};

    ghost from_gives = { λ _ e. e ≡ NoMemory };

    fn from(_: AllocError) -> SignRefused {
        SignRefused::NoMemory
    }
}

/// A digest function.
pub trait Digester {
    /// The digest of bytes.
    ghost digested: { List ℕ → List ℕ };

    fn digest(bytes: &[u8]) -> Digest32
        ensures { result ≡ digested bytes.now };
}

/// What makes the tags of one party.
pub trait Signer: Drop {
    /// Which tags a signer makes over bytes.
    ghost makes: { Self → List ℕ → List ℕ → Type 0 };

    /// Why a signer may refuse.
    ghost refuses: { Self → SignRefused → Type 0 };

    /// A tag over bytes. What the signer makes from then on it could have made before.
    fn sign(&mut self, alloc: Global, bytes: &[u8]) -> Result<Tag, SignRefused>
        ensures made { IfOk result (λ tag. makes self.old bytes.now tag) }
        ensures refused { IfErr result (λ why. refuses self.old why) }
        ensures later { (text tag : List ℕ) → makes self.new text tag → makes self.old text tag };
}

/// What tells the tags of all parties.
pub trait Verifier: Drop {
    /// Whether a tag is a party's over bytes.
    ghost verified: { Self → Party → List ℕ → List ℕ → Bool };

    fn verifies(&self, who: Party, bytes: &[u8], tag: &[u8]) -> bool
        ensures { result ≡ verified self.now who bytes.now tag.now };
}
