//! The statements that their signers have sent, so that one is found without a walk over the
//! messages.
ghost use Rattle.std.specs.Prelude.{◌≡◌, ◌≤◌, ◌||◌, IfOk, vec_len};
ghost use Rattle.std.specs.HashSet.{contains, spare};
ghost use Rattle.std.specs.List.{list_any};
ghost use Rattle.world_rules.specs.Premises.{is_among, is_excused};
ghost use Rattle.world_ledger.specs.declared.stated.Stated.{Stated};
ghost use Rattle.world_ledger.specs.Statements.{claim_of, same_stated};

use smart_base::name::{ClientId, MemberId};
use smart_base::party::Party;
use std::alloc::{AllocError, Global};
use std::collections::HashSet;

/// A statement that its signer has sent: who signed it, and its bytes.
#[derive(PartialEq, Eq, Hash)]
pub struct Stated {
    is_member: bool,
    number: u16,
    bytes: Vec<u8>,
}

/// Let go by one call, so that no function that lets one go carries the whole of it.
impl Drop for Stated {
    fn drop(self) {
        let Stated {
            is_member: _,
            number: _,
            bytes: _,
        } = self;
    }
}

/// The statements that their signers have sent.
pub type StatedIndex = HashSet<Stated>;

impl Stated {
    pub fn new(alloc: Global, signer: Party, bytes: &[u8]) -> Result<Stated, AllocError>
        ensures { IfOk result (λ s. claim_of s ≡ record { signer = signer; bytes = bytes.now }) }
    {
        let (is_member, number) = match signer {
            Party::Member(id) => (true, id.get()),
            Party::Client(id) => (false, id.get()),
        };
        Ok(Stated {
            is_member,
            number,
            bytes: Vec::from_slice(alloc, bytes)?,
        })
    }

    /// Who signed it.
    pub fn signer(&self) -> Party
        ensures { result ≡ (claim_of self.now).signer }
    {
        if self.is_member {
            Party::Member(MemberId::new(self.number))
        } else {
            Party::Client(ClientId::new(self.number))
        }
    }
}

/// Puts statements into an index that has room for them.
pub fn put_all(index: &mut StatedIndex, own: Vec<Stated>)
    requires { vec_len own ≤ spare index.old }
    ensures { (s : Stated) → contains same_stated index.new s ≡ (list_any (λ o. same_stated o s) own.items || contains same_stated index.old s) }
{
    for stated in own {
        let _ = index.insert(stated);
    }
}

fn has_member(members: &[MemberId], id: MemberId) -> bool
    ensures { result ≡ is_among members.now id }
{
    members.iter().any(|member| *member == id)
}

fn has_client(clients: &[ClientId], id: ClientId) -> bool
    ensures { result ≡ is_among clients.now id }
{
    clients.iter().any(|client| *client == id)
}

/// Whether who signed is declared faulty, or rogue.
pub fn is_excused(faulty: &[MemberId], rogue: &[ClientId], signer: Party) -> bool
    ensures { result ≡ is_excused faulty.now rogue.now signer }
{
    match signer {
        Party::Member(id) => has_member(faulty, id),
        Party::Client(id) => has_client(rogue, id),
    }
}
