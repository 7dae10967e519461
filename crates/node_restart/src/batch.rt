//! The digest of a batch, and whether the batch may stand at a place.
ghost use Rattle.std.specs.Prelude.{◌≡◌, ◌&&◌, true, not, IfOk, length};
ghost use Rattle.std.specs.List.{list_any, list_all};
ghost use Rattle.smart_statements.specs.Batches.{batch_text, FitsBatch};
ghost use Rattle.replica_rules.specs.Seals.{digest_of, request_fits, is_managers, fits};
ghost use Rattle.node_rules.specs.Arrivals.{is_batch_for};
ghost use Rattle.node_restart.specs.Restarts.{named_for};

use smart_base::bytes::Digest32;
use smart_base::equality::same_bytes;
use smart_base::keys::Digester;
use smart_base::limits::{BATCH_BYTES, BATCH_REQUESTS, LAST_CLIENT};
use smart_keys::hash::Sha;
use smart_keys::ring::Ring;
use smart_statements::batch::Batch;
use smart_statements::signed::Signed;
use smart_statements::statement::Request;
use std::alloc::{AllocError, Global};

/// The digest that names a batch in votes. Error: want of memory.
#[tactic(auto, unfolding(replica_rules::specs::Seals::digest_of))]
pub fn digest_of(alloc: Global, batch: &Batch) -> Result<Digest32, AllocError>
    ensures { IfOk result (λ digest. digest ≡ digest_of batch.now) }
{
    let text = batch.text(alloc)?;
    Ok(Sha::digest(text.as_slice()))
}

fn request_fits(ring: &Ring, place: u64, request: &Signed<Request>) -> bool
    ensures { result ≡ request_fits ring.now place request.now }
{
    let asked = request.statement();
    asked.client.get() <= LAST_CLIENT && asked.after < place && request.verifies(ring)
}

fn all_fit(ring: &Ring, place: u64, batch: &[Signed<Request>]) -> bool
    ensures { result ≡ list_all (request_fits ring.now place) batch.now }
{
    batch
        .iter()
        .all(|request| request_fits(ring, place, request))
}

fn is_managers(request: &Signed<Request>) -> bool
    ensures { result ≡ is_managers request.now }
{
    request.statement().client.get() == 0
}

fn has_managers(batch: &[Signed<Request>]) -> bool
    ensures { result ≡ list_any is_managers batch.now }
{
    batch.iter().any(is_managers)
}

/// Whether a batch of so many bytes may stand at a place.
#[tactic(auto, unfolding(replica_rules::specs::Seals::fits))]
fn fits(ring: &Ring, batch: &[Signed<Request>], bytes: usize, place: u64) -> bool
    requires { bytes ≡ length (batch_text batch.now) }
    ensures { result ≡ fits ring.now batch.now place }
{
    1 <= batch.len()
        && batch.len() <= BATCH_REQUESTS as usize
        && bytes <= BATCH_BYTES
        && all_fit(ring, place, batch)
        && (batch.len() <= 1 || !has_managers(batch))
}

/// Whether a batch may stand at a place, and has a digest. Error: want of memory.
#[tactic(auto, unfolding(replica_rules::specs::Seals::digest_of, node_rules::specs::Arrivals::is_batch_for))]
pub fn is_batch_for(
    alloc: Global,
    ring: &Ring,
    place: u64,
    digest: &Digest32,
    batch: &Batch,
) -> Result<bool, AllocError>
    ensures { IfOk result (λ valid. valid ≡ is_batch_for ring.now place digest.now batch.now) }
{
    let text = batch.text(alloc)?;
    let stands = fits(ring, batch.as_slice(), text.len(), place);
    let named = Sha::digest(text.as_slice());
    Ok(stands && same_bytes(named.as_slice(), digest.as_slice()))
}

/// The digest of a batch, if the batch may stand at a place. Error: want of memory.
#[tactic(auto, unfolding(replica_rules::specs::Seals::digest_of, node_rules::specs::Arrivals::is_batch_for))]
pub fn named_for(
    alloc: Global,
    ring: &Ring,
    place: u64,
    batch: &Batch,
) -> Result<Option<Digest32>, AllocError>
    ensures { IfOk result (λ named. named ≡ named_for ring.now place batch.now) }
{
    let text = batch.text(alloc)?;
    if !fits(ring, batch.as_slice(), text.len(), place) {
        return Ok(None);
    }
    Ok(Some(Sha::digest(text.as_slice())))
}

/// Whether two batches are one, by their bytes. Error: want of memory.
#[tactic(auto, using(crate::proofs::Named::is_one))]
pub(crate) fn is_same(alloc: Global, a: &Batch, b: &Batch) -> Result<bool, AllocError>
    requires first { FitsBatch a.now }
    requires second { FitsBatch b.now }
    ensures { IfOk result (λ same. same ≡ true → a.now ≡ b.now) }
{
    let (a, b) = (a.text(alloc)?, b.text(alloc)?);
    Ok(same_bytes(a.as_slice(), b.as_slice()))
}
