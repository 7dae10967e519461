//! Signers.
ghost use Rattle.std.specs.Prelude.{◌≡◌};
ghost use Rattle.smart_statements.specs.Forms.{Form, party_of};

use smart_base::name::{ClientId, MemberId};
use smart_base::party::Party;
use smart_statements::signed::{MEMBER, Signed, Statement};

/// The party of a kind of signer and a number.
pub fn party_of(kind: u8, number: u16) -> Party
    ensures { result ≡ party_of kind number }
{
    if kind == MEMBER {
        Party::Member(MemberId::new(number))
    } else {
        Party::Client(ClientId::new(number))
    }
}

/// The signer of a statement.
pub fn signer_of<S: Statement>(signed: &Signed<S>) -> Party
    ensures { result ≡ party_of (Form.kind S.form) signed.now.signer }
{
    party_of(S::kind(), signed.signer())
}
