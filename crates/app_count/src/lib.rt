//! A service that adds: its state is a sum, and an operation is a number in decimal.
#![tactic(auto)]

ghost use Rattle.std.specs.Prelude.{◌≡◌};

use smart_base::bytes::Payload;
use smart_base::decimal::number_of;
use smart_base::sequence::Bytes;
use smart_service::fault::RestoreError;
use smart_service::service::Service;
use std::alloc::{AllocError, Global};

/// A sum, which stays at 2^64 - 1.
#[derive(Drop)]
pub struct Count {
    pub sum: u64,
}

impl Service for Count {
    ghost use Rattle.app_count.specs.Counts.{counting, IsSum};
    ghost use Rattle.app_count.specs.Replies.{brief_replies, printable_replies};
    ghost use Rattle.app_count.specs.Sums.{first_sum, next_sum, short_snapshot, restored_sum, valid_sum, one_snapshot};

    ghost meaning = { counting };

    ghost valid = { IsSum };

    ghost brief = { brief_replies };

    ghost printable = { printable_replies };

    ghost valid_first = { first_sum };

    ghost valid_next = { next_sum };

    ghost small = { short_snapshot };

    ghost restores = { restored_sum };

    ghost valid_restored = { valid_sum };

    ghost spelled = { one_snapshot };

    fn first(_alloc: Global) -> Result<Count, AllocError> {
        Ok(Count { sum: 0 })
    }

    fn run(&mut self, alloc: Global, op: &[u8]) -> Result<Payload, AllocError> {
        match number_of(op) {
            None => Payload::from_slice(alloc, b"?"),
            Some(amount) => {
                let sum = self.sum.saturating_add(amount);
                let text = sum.to_string(alloc)?;
                let reply = Payload::from_slice(alloc, text.as_bytes())?;
                self.sum = sum;
                Ok(reply)
            }
        }
    }

    fn snapshot(&self, alloc: Global) -> Result<Bytes, AllocError> {
        Bytes::from_slice(alloc, &self.sum.to_be_bytes())
    }

    fn restore(_alloc: Global, bytes: &[u8]) -> Result<Count, RestoreError> {
        if bytes.len() != 8 {
            return Err(RestoreError::BadSnapshot);
        }
        let mut number = [0; 8];
        number.copy_from_slice(bytes);
        Ok(Count {
            sum: u64::from_be_bytes(number),
        })
    }
}
