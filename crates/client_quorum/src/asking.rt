//! The requests of a client.
ghost use Rattle.std.specs.Prelude.{◌≡◌, ◌+◌, ◌^◌, ◌<◌, None, IfOk, IfErr, OnOk, OnErr, option_map};
ghost use Rattle.smart_statements.specs.Kinds.{requests};
ghost use Rattle.replica_rules.specs.Seals.{signed};
ghost use Rattle.client_quorum.specs.Clients.{request_of, asking, Refuses};
ghost use Rattle.client_quorum.specs.declared.asking.AskError.TheVariants.{NoMemory};

use crate::client::Client;
use smart_base::bytes::Payload;
use smart_base::duplicate::Duplicate;
use smart_base::name::ClientId;
use smart_base::party::Party;
use smart_base::sequence::Sequence;
use smart_keys::ring::Ring;
use smart_statements::signed::Signed;
use smart_statements::statement::Request;
use std::alloc::{AllocError, Global};

/// The reason for which a client did not ask.
#[derive(Clone, Copy, Debug, PartialEq, Eq)]
pub enum AskError {
    /// A request still waits for its reply; `seq` is its number.
    Busy { seq: u64 },
    /// Want of memory.
    NoMemory,
}

impl From<AllocError> for AskError {
    ghost from_gives = { λ _ e. e ≡ NoMemory };

    fn from(_e: AllocError) -> AskError {
        AskError::NoMemory
    }
}

/// A request with the client's signature. Error: want of memory.
#[tactic(auto, unfolding(smart_keys::specs::Keys::tag_of))]
fn sealed(
    alloc: Global,
    ring: &Ring,
    id: ClientId,
    request: Request,
) -> Result<Signed<Request>, AllocError>
    ensures { IfOk result (λ q. q ≡ signed requests ring.now id request) }
{
    let mut sealer = ring.sealer(Party::Client(id));
    match Signed::seal(alloc, &mut sealer, id.get(), request) {
        Ok(signed) => Ok(signed),
        // A sealer's only want is memory.
        Err(_) => Err(AllocError),
    }
}

impl Client {
    /// The next request, which waits for its reply from then on. Error: want of memory.
    fn put_next(
        &mut self,
        alloc: Global,
        ring: &Ring,
        op: &Payload,
    ) -> Result<Signed<Request>, AllocError>
        requires { self.old.last + 1 < 2 ^ 63 }
        ensures request { IfOk result (λ q. q ≡ signed requests ring.now self.old.id (request_of self.old op.now)) }
        ensures client { OnOk result (self.new ≡ asking self.old (request_of self.old op.now)) }
        ensures unasked { OnErr result (self.new ≡ self.old) }
    {
        let request = Request {
            client: self.id,
            seq: self.last + 1,
            after: self.seen.get(),
            op: op.duplicate(alloc)?,
        };
        let waiting = request.duplicate(alloc)?;
        let signed = sealed(alloc, ring, self.id, request)?;
        self.last = waiting.seq;
        self.waiting = Some(waiting);
        self.replies = Sequence::new(alloc);
        Ok(signed)
    }

    /// The next request, signed. Its number is one above the last, and it states the greatest place
    /// that the client knows. It waits for its reply from then on. Errors: `Busy` if a request waits;
    /// want of memory. After an error the client is unchanged.
    pub fn ask(
        &mut self,
        alloc: Global,
        ring: &Ring,
        op: &Payload,
    ) -> Result<Signed<Request>, AskError>
        requires { self.old.last + 1 < 2 ^ 63 }
        ensures request { IfOk result (λ q. q ≡ signed requests ring.now self.old.id (request_of self.old op.now)) }
        ensures client { OnOk result (self.new ≡ asking self.old (request_of self.old op.now)) }
        ensures idle { OnOk result (self.old.waiting ≡ None) }
        ensures refused { IfErr result (Refuses self.old) }
        ensures unasked { OnErr result (self.new ≡ self.old) }
    {
        if let Some(waiting) = &self.waiting {
            return Err(AskError::Busy { seq: waiting.seq });
        }
        Ok(self.put_next(alloc, ring, op)?)
    }

    /// The waiting request, signed once more, if one waits. Error: want of memory.
    pub fn again(&self, alloc: Global, ring: &Ring) -> Result<Option<Signed<Request>>, AllocError>
        ensures { IfOk result (λ found. found ≡ option_map (λ q. signed requests ring.now self.now.id q) self.now.waiting) }
    {
        match &self.waiting {
            None => Ok(None),
            Some(request) => Ok(Some(sealed(alloc, ring, self.id, request.duplicate(alloc)?)?)),
        }
    }
}
