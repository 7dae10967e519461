//! A member's replica, to which batches are delivered.
ghost use Rattle.std.specs.Prelude.{◌≡◌, ◌+◌, ◌^◌, ◌<◌, false, IfOk, OnOk, OnErr};
ghost use Rattle.std.specs.Result.{is_err};
ghost use Rattle.replica_rules.specs.Replicas.{delivered, executed_lines, empty};
ghost use Rattle.delivery.specs.Moves.{IsBegun};

use crate::delivered::Delivered;
use crate::execute::execute_all;
use smart_base::number::Place;
use smart_base::view::{View, Views};
use smart_service::replica::Replica;
use smart_service::service::Service;
use smart_service::table::ClientTable;
use smart_statements::batch::Batch;
use std::alloc::{AllocError, Global};

/// A replica, and whether want of memory stopped a delivery half-way. Then the replica is spent: some
/// requests of the batch may have been executed. No batch is delivered to it any more, and no call
/// makes it whole.
pub struct KeptReplica<S> {
    replica: Replica<S>,
    spent: bool,
}

/// Let go by one call, so that no function that lets one go carries the whole of it.
impl<S: Drop> Drop for KeptReplica<S> {
    fn drop(self) {
        let KeptReplica {
            replica: _,
            spent: _,
        } = self;
    }
}

impl<S> KeptReplica<S> {
    pub fn new(replica: Replica<S>) -> Self
        ensures { result ≡ record { replica = replica; spent = false } }
    {
        KeptReplica {
            replica,
            spent: false,
        }
    }

    /// Whether a delivery began and did not end.
    pub fn spent(&self) -> bool
        ensures { result ≡ self.now.spent }
    {
        self.spent
    }

    /// The replica. If it is spent, it is at the place of the batch of which some requests may have
    /// been executed.
    pub fn replica(&self) -> &Replica<S>
        ensures { result.now ≡ self.now.replica }
    {
        &self.replica
    }
}

impl<S: Service> KeptReplica<S> {
    /// The replica before any batch, in a first view. Error: want of memory.
    pub fn empty(alloc: Global, view: View) -> Result<Self, AllocError>
        ensures { IfOk result (λ kept. kept ≡ record { replica = empty S.meaning view; spent = false }) }
    {
        let service = S::first(alloc)?;
        let views = Views::new(alloc, view)?;
        Ok(KeptReplica::new(Replica {
            service,
            table: ClientTable::new(alloc),
            views,
            place: Place::zero(),
        }))
    }
}

/// Executes a batch at the next place, and gives the executions, in order. A request is executed if
/// its number may be executed then; any other is passed over. Each execution has the reply for its
/// client. A request of the view manager may begin a view at the place behind. Error: want of memory; the
/// replica is spent then, and knows the views that it knew before. A valid state of the service stays
/// valid in any case.
#[tactic(auto, unfolding(replica_rules::specs::Replicas::delivered, replica_rules::specs::Replicas::executed_lines))]
pub fn deliver<S: Service>(
    alloc: Global,
    replica: &mut KeptReplica<S>,
    batch: &Batch,
) -> Result<Delivered, AllocError>
    requires ready { replica.old.spent ≡ false }
    requires room { replica.old.replica.place + 1 < 2 ^ 63 }
    ensures state { OnOk result (replica.new.replica ≡ delivered S.meaning replica.old.replica batch.now) }
    ensures spent { replica.new.spent ≡ is_err result }
    ensures place { replica.new.replica.place ≡ replica.old.replica.place + 1 }
    ensures valid { S.valid replica.old.replica.service → S.valid replica.new.replica.service }
    ensures lines { IfOk result (λ given. given.lines ≡ executed_lines S.meaning replica.old.replica batch.now) }
    ensures begun { IfOk result (λ given. IsBegun replica.old.replica.views replica.new.replica.views given.begun) }
    ensures views { OnErr result (replica.new.replica.views ≡ replica.old.replica.views) }
{
    replica.spent = true;
    replica.replica.place = replica.replica.place.next();
    let given = execute_all(alloc, &mut replica.replica, batch)?;
    replica.spent = false;
    Ok(given)
}
