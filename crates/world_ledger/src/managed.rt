//! What the view manager's requests have made of a group.
ghost use Rattle.std.specs.Prelude.{◌≡◌, ◌+◌, ◌==◌, ◌&&◌, [], IfOk, OnOk};
ghost use Rattle.reconfig.specs.Outcomes.{views_behind};
ghost use Rattle.replica_rules.specs.Replicas.{is_of_manager, managed, manages, manages_all};

use reconfig::outcome;
use reconfig::outcome::Outcome;
use reconfig::views::with_view;
use smart_base::duplicate::Duplicate;
use smart_base::number::Place;
use smart_base::view::{View, Views};
use smart_statements::batch::Batch;
use smart_statements::statement::Request;
use std::alloc::{AllocError, Global};
use std::marker::Model;

/// What the view manager's requests have made of a group: the number of the last one that was executed,
/// and the views, the present one last.
pub struct Managed {
    seq: u64,
    views: Views,
}

/// Let go by one call, so that no function that lets one go carries the whole of it.
impl Drop for Managed {
    fn drop(self) {
        let Managed { seq: _, views: _ } = self;
    }
}

impl Model for Managed {
    ghost use Rattle.replica_rules.specs.Replicas.{Managed};

    ghost Value = { Managed };

    ghost view = { λ g. record { seq = g.seq; views = g.views } };
}

/// The same views. Error: want of memory.
fn copy_of(alloc: Global, views: &Views) -> Result<Views, AllocError>
    ensures { IfOk result (λ copy. copy ≡ views.now) }
{
    let all = views.as_slice();
    let mut list = Vec::with_capacity(alloc, all.len())?;
    for view in all {
        list.push(view.duplicate(alloc)?)?;
    }
    Ok(Views::from_vec(list))
}

/// Takes the view that an outcome begins behind the others, if it begins one. Error: want of memory; they
/// are as they were.
fn take_outcome(alloc: Global, views: &mut Views, outcome: &Outcome) -> Result<(), AllocError>
    ensures { OnOk result (views.new ≡ views_behind views.old outcome.now) }
{
    match outcome {
        Outcome::Begins { view } => {
            let more = with_view(alloc, views, view.duplicate(alloc)?)?;
            *views = more;
            Ok(())
        }
        Outcome::Refused { fault: _ } | Outcome::NoChange => Ok(()),
    }
}

impl Managed {
    /// What is made of a group before any batch, which begins with a view. Error: want of memory.
    pub fn new(alloc: Global, view: View) -> Result<Self, AllocError>
        ensures { IfOk result (λ g. g ≡ managed view []) }
    {
        Ok(Managed {
            seq: 0,
            views: Views::new(alloc, view)?,
        })
    }

    /// The views, the present one last.
    pub fn views(&self) -> &[View]
        ensures { result.now ≡ self.now.views }
    {
        self.views.as_slice()
    }

    /// Whether a request is the view manager's next one.
    fn is_next(&self, request: &Request) -> bool
        ensures { result ≡ (is_of_manager request.now && (request.now.seq == self.now.seq + 1)) }
    {
        request.client.get() == 0 && request.seq.checked_sub(self.seq) == Some(1)
    }

    /// Takes a request at a place: the view manager's next one may begin a view. Error: want of memory.
    fn take(&mut self, alloc: Global, place: Place, request: &Request) -> Result<(), AllocError>
        ensures { OnOk result (self.new ≡ manages place self.old request.now) }
    {
        if !self.is_next(request) {
            return Ok(());
        }
        let outcome = outcome::execute(alloc, &self.views, request.op.as_slice(), place)?;
        take_outcome(alloc, &mut self.views, &outcome)?;
        self.seq = request.seq;
        Ok(())
    }

    /// Takes the requests of a batch at a place, in order. Error: want of memory; some of them may have
    /// been taken then.
    fn take_all(&mut self, alloc: Global, place: Place, batch: &Batch) -> Result<(), AllocError>
        ensures { OnOk result (self.new ≡ manages_all place self.old batch.now) }
    {
        for request in batch.as_slice() {
            self.take(alloc, place, request.statement())?;
        }
        Ok(())
    }

    /// What a batch at a place makes of it. Error: want of memory.
    pub fn after(&self, alloc: Global, place: Place, batch: &Batch) -> Result<Self, AllocError>
        ensures { IfOk result (λ g. g ≡ manages_all place self.now batch.now) }
    {
        let mut managed = Managed {
            seq: self.seq,
            views: copy_of(alloc, &self.views)?,
        };
        managed.take_all(alloc, place, batch)?;
        Ok(managed)
    }
}
