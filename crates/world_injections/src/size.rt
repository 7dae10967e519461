//! How many bytes parts of messages have. It takes no memory to count them.
ghost use Rattle.std.specs.Prelude.{◌≡◌, ◌<◌, ◌^◌, length};
ghost use Rattle.std.specs.List.{flat_map};
ghost use Rattle.smart_statements.specs.Batches.{batch_text};
ghost use Rattle.smart_statements.specs.Reports.{lock_certificate};
ghost use Rattle.smart_statements.specs.SignedLists.{optional};
ghost use Rattle.smart_statements.specs.Spelling.{signed};

use smart_statements::batch::Batch;
use smart_statements::report::LockCertificate;
use smart_statements::signed::{Signed, Statement};

/// The bytes of statements.
fn each_len<S: Statement>(items: &[Signed<S>]) -> usize
    requires { length items.now < 2 ^ 16 }
    ensures value { result ≡ length (flat_map (signed S.form) items.now) }
    ensures small { result < 2 ^ 50 }
{
    let mut bytes = 0;
    for item in items {
        bytes += item.text_len();
    }
    bytes
}

/// The bytes of a lock behind a 1, or of a 0 where there is none.
#[tactic(auto, using(crate::proofs::SizeLaws::lock_length))]
pub fn lock_len(lock: &Option<LockCertificate>) -> usize
    ensures value { result ≡ length (optional lock_certificate lock.now) }
    ensures small { result < 2 ^ 51 }
{
    match lock {
        None => 1,
        Some(lock) => 7 + lock.digest.as_slice().len() + each_len(lock.writes.as_slice()),
    }
}

/// The bytes of a batch behind a 1, or of a 0 where there is none.
#[tactic(auto, unfolding(smart_statements::specs::Batches::batch_text))]
pub fn batch_len(batch: &Option<Batch>) -> usize
    ensures value { result ≡ length (optional batch_text batch.now) }
    ensures small { result < 2 ^ 51 }
{
    match batch {
        None => 1,
        Some(batch) => 3 + each_len(batch.as_slice()),
    }
}
