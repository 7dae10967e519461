//! The batch that a pool gives.
ghost use Rattle.std.specs.Prelude.{◌≡◌, ◌^◌, ◌<◌, ◌==◌, ◌∷◌, ◌++◌, [], Some, not, nat_lt, filter, length, true, IfOk, OnOk};
ghost use Rattle.smart_statements.specs.Batches.{batch_text};
ghost use Rattle.replica_rules.specs.Seals.{is_managers};
ghost use Rattle.replica_rules.specs.Pools.{is_within, filled, batch_of, gathered};

use smart_base::duplicate::Duplicate;
use smart_base::limits::{BATCH_BYTES, BATCH_REQUESTS};
use smart_base::number::Place;
use smart_base::sequence::Sequence;
use smart_statements::batch::Batch;
use smart_statements::signed::Signed;
use smart_statements::statement::Request;
use std::alloc::{AllocError, Global};
use std::marker::Model;

/// The number of a batch's bytes before its requests.
const HEAD_BYTES: usize = 2;

/// A batch that grows, with the number of its bytes.
#[derive(Drop)]
struct Gathering {
    list: Sequence<Signed<Request>>,
    bytes: usize,
}

impl Model for Gathering {
    ghost use Rattle.std.specs.Prelude.{◌≡◌, ◌<◌, ◌≤◌, ◌^◌, List, length};
    ghost use Rattle.smart_base.specs.declared.limits.TheConstants.{BATCH_REQUESTS};
    ghost use Rattle.smart_statements.specs.Forms.{SignedBy};
    ghost use Rattle.smart_statements.specs.Batches.{batch_text};
    ghost use Rattle.smart_statements.specs.declared.statement.Request.{Request};

    ghost Value = { List (SignedBy Request) };

    ghost view = { λ g. g.list };

    ghost invariant = { λ g. (0 < length g.list) × (length g.list ≤ BATCH_REQUESTS) × (g.bytes ≡ length (batch_text g.list)) × (g.bytes < 2 ^ 40) };
}

impl Gathering {
    /// The batch of one request. Error: want of memory.
    fn begin(alloc: Global, first: Signed<Request>) -> Result<Gathering, AllocError>
        ensures { IfOk result (λ g. g ≡ first ∷ []) }
    {
        let bytes = HEAD_BYTES + first.text_len();
        let mut list = Sequence::new(alloc);
        list.push(first)?;
        Ok(Gathering { list, bytes })
    }

    /// Whether the batch with one more request is within the limits.
    fn has_room(&self, request: &Signed<Request>) -> bool
        ensures { result ≡ is_within (self.now ++ request.now ∷ []) }
    {
        self.list.len() < BATCH_REQUESTS as usize && self.bytes + request.text_len() <= BATCH_BYTES
    }

    fn add(&mut self, request: Signed<Request>) -> Result<(), AllocError>
        requires { is_within (self.old ++ request ∷ []) ≡ true }
        ensures { OnOk result (self.new ≡ self.old ++ request ∷ []) }
    {
        let bytes = self.bytes + request.text_len();
        self.list.push(request)?;
        self.bytes = bytes;
        Ok(())
    }

    /// Adds requests that may stand beside others, up to the first that would pass a limit. Error:
    /// want of memory.
    fn fill(
        &mut self,
        alloc: Global,
        pool: &[Signed<Request>],
        place: Place,
    ) -> Result<(), AllocError>
        ensures { OnOk result (self.new ≡ filled self.old (filter (λ q. not (is_managers q)) (filter (λ q. nat_lt q.statement.after place) pool.now))) }
    {
        for request in pool {
            if is_due(request, place) && !is_managers(request) {
                if !self.has_room(request) {
                    return Ok(());
                }
                self.add(request.duplicate(alloc)?)?;
            }
        }
        Ok(())
    }

    fn into_batch(self) -> Batch
        ensures { result ≡ self }
    {
        let Gathering { list, .. } = self;
        Batch::from_list(list)
    }
}

/// Whether a request states an earlier place than this one.
fn is_due(request: &Signed<Request>, place: Place) -> bool
    ensures { result ≡ nat_lt request.now.statement.after place }
{
    request.statement().after < place.get()
}

fn is_managers(request: &Signed<Request>) -> bool
    ensures { result ≡ is_managers request.now }
{
    request.statement().client.get() == 0
}

/// The batch that begins with a request, of those after it. Error: want of memory.
fn batch_from(
    alloc: Global,
    first: &Signed<Request>,
    rest: &[Signed<Request>],
    place: Place,
) -> Result<Batch, AllocError>
    ensures { IfOk result (λ batch. Some batch ≡ batch_of (first.now ∷ filter (λ q. nat_lt q.statement.after place) rest.now)) }
{
    let mut gathering = Gathering::begin(alloc, first.duplicate(alloc)?)?;
    if !is_managers(first) {
        gathering.fill(alloc, rest, place)?;
    }
    Ok(gathering.into_batch())
}

/// The batch for a place, if there is one. Error: want of memory.
#[tactic(auto, unfolding(replica_rules::specs::Pools::gathered))]
pub fn gathered(
    alloc: Global,
    pool: &[Signed<Request>],
    place: Place,
) -> Result<Option<Batch>, AllocError>
    ensures { IfOk result (λ batch. batch ≡ gathered pool.now place) }
{
    for i in 0..pool.len() {
        if is_due(&pool[i], place) {
            return Ok(Some(batch_from(alloc, &pool[i], &pool[i + 1..], place)?));
        }
    }
    Ok(None)
}
