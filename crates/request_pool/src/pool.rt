//! The pool, and what becomes of a request that is offered to it.
ghost use Rattle.std.specs.Prelude.{◌≡◌, ◌==◌, [], length, slice_get, option_copied, IfOk, OnOk, OnErr};
ghost use Rattle.smart_base.specs.Lists.{Distinct};
ghost use Rattle.replica_rules.specs.Pools.{offered, settled, gathered};
ghost use Rattle.replica_rules.specs.Replicas.{is_next};
ghost use Rattle.request_pool.specs.Offers.{clients_of, has_client, offer_of, pool_after};

use crate::gather::gathered;
use indexmap::IndexMap;
use smart_base::limits::LAST_CLIENT;
use smart_base::number::Place;
use smart_keys::ring::Ring;
use smart_service::table::ClientTable;
use smart_statements::batch::Batch;
use smart_statements::signed::Signed;
use smart_statements::statement::Request;
use std::alloc::{AllocError, Global};
use std::marker::Model;

/// The answer to an offered request: it is kept, or the first reason not to keep it.
#[derive(Clone, Copy, Debug, PartialEq, Eq)]
pub enum Offer {
    /// It waits after all others.
    Kept,
    /// It waits at the position of its client's earlier request.
    Replaced,
    /// Its number is at most that of its client's last executed request.
    Old,
    /// Its number is not yet its client's next.
    Ahead,
    /// Its tag is not the one that its signer makes.
    BadTag,
    /// There is no such client.
    Stranger,
}

/// The requests that wait, in the order in which their clients came. No two are of one client.
pub struct RequestPool {
    /// The requests by the numbers of their clients.
    requests: IndexMap<u16, Signed<Request>>,
}

/// Let go by one call, so that no function that lets one go carries the whole of it.
impl Drop for RequestPool {
    fn drop(self) {
        let RequestPool { requests: _ } = self;
    }
}

impl Model for RequestPool {
    ghost use Rattle.std.specs.Prelude.{◌≡◌, List};
    ghost use Rattle.smart_base.specs.Lists.{Distinct};
    ghost use Rattle.smart_statements.specs.Forms.{SignedBy};
    ghost use Rattle.smart_statements.specs.declared.statement.Request.{Request};
    ghost use Rattle.indexmap.specs.IndexMap.{keys, values};
    ghost use Rattle.request_pool.specs.Offers.{clients_of};

    ghost Value = { List (SignedBy Request) };

    ghost view = { λ p. values p.requests };

    ghost invariant = { λ p. (keys p.requests ≡ clients_of (values p.requests)) × Distinct (clients_of (values p.requests)) };
}

impl RequestPool {
    pub fn new(alloc: Global) -> Self
        ensures { result ≡ [] }
    {
        RequestPool {
            requests: IndexMap::new(alloc),
        }
    }

    /// Offers a request to the pool, which keeps it if it is its client's next. `last` is the number
    /// of its client's last executed request, 0 if there is none. Error: want of memory.
    pub fn offer(
        &mut self,
        ring: &Ring,
        request: Signed<Request>,
        last: u64,
    ) -> Result<Offer, AllocError>
        ensures answer { IfOk result (λ answer. answer ≡ offer_of ring.now self.old request last) }
        ensures pool { IfOk result (λ answer. self.new ≡ pool_after answer self.old request) }
        ensures err { OnErr result (self.new ≡ self.old) }
    {
        let asked = request.statement();
        let (client, seq) = (asked.client.get(), asked.seq);
        if !request.verifies(ring) {
            return Ok(Offer::BadTag);
        }
        if LAST_CLIENT < client {
            return Ok(Offer::Stranger);
        }
        if seq <= last {
            return Ok(Offer::Old);
        }
        if 1 < seq - last {
            return Ok(Offer::Ahead);
        }
        if self.put(request)? {
            Ok(Offer::Replaced)
        } else {
            Ok(Offer::Kept)
        }
    }

    /// Puts a request at the position of its client's earlier one, which it replaces, or at the end.
    /// Tells whether there was one. Error: want of memory.
    fn put(&mut self, request: Signed<Request>) -> Result<bool, AllocError>
        ensures replaced { IfOk result (λ replaced. replaced ≡ has_client self.old request.statement.client) }
        ensures pool { OnOk result (self.new ≡ offered self.old request) }
        ensures err { OnErr result (self.new ≡ self.old) }
    {
        let client = request.statement().client.get();
        let old = self.requests.insert(client, request)?;
        Ok(old.is_some())
    }

    /// The batch for a place, if there is one: as many requests as it may hold, from the first on,
    /// that state an earlier place. A request of the view manager stands alone; it is passed over if
    /// another one comes first. Error: want of memory.
    pub fn gather(&self, place: Place) -> Result<Option<Batch>, AllocError>
        ensures { IfOk result (λ batch. batch ≡ gathered self.now place) }
    {
        gathered(*self.requests.allocator(), self.as_slice(), place)
    }

    /// Keeps only the requests that are still their client's next.
    pub fn settle(&mut self, table: &ClientTable)
        ensures { self.new ≡ settled table.now self.old }
    {
        self.requests.retain(
            |_client: &u16, request: &mut Signed<Request>| -> bool
                ensures { (result ≡ is_next table.entry.now request.old.statement) × (request.new ≡ request.old) }
            {
                let asked = request.statement();
                table.may_execute(asked.client, asked.seq)
            },
        );
    }

    /// The oldest request, if there is one.
    pub fn oldest(&self) -> Option<&Signed<Request>>
        ensures { option_copied result ≡ slice_get self.now 0 }
    {
        self.as_slice().first()
    }

    /// The requests, in order.
    pub fn as_slice(&self) -> &[Signed<Request>]
        ensures value { result.now ≡ self.now }
        ensures one_each { Distinct (clients_of result.now) }
    {
        self.requests.values().as_slice()
    }

    pub fn len(&self) -> usize
        ensures { result ≡ length self.now }
    {
        self.requests.len()
    }

    pub fn is_empty(&self) -> bool
        ensures { result ≡ (length self.now == 0) }
    {
        self.requests.is_empty()
    }
}
