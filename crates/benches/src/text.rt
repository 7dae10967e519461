//! A service whose state is a text that no operation changes.
ghost use Rattle.std.specs.Prelude.{◌≡◌};

use smart_base::bytes::Payload;
use smart_base::limits::STATE_BYTES;
use smart_base::sequence::Bytes;
use smart_service::fault::RestoreError;
use smart_service::service::Service;
use std::alloc::{AllocError, Global};

/// A text of at most 12,000,000 bytes.
#[derive(Drop)]
pub struct Text {
    pub bytes: Bytes,
}

impl Service for Text {
    ghost use Rattle.benches.specs.Texts.{keeping, IsText, brief_replies, printable_replies, first_text, next_text, short_snapshot, restored_text, valid_text, one_snapshot};

    ghost meaning = { keeping };

    ghost valid = { IsText };

    ghost brief = { brief_replies };

    ghost printable = { printable_replies };

    ghost valid_first = { first_text };

    ghost valid_next = { next_text };

    ghost small = { short_snapshot };

    ghost restores = { restored_text };

    ghost valid_restored = { valid_text };

    ghost spelled = { one_snapshot };

    fn first(alloc: Global) -> Result<Text, AllocError> {
        Ok(Text {
            bytes: Bytes::new(alloc),
        })
    }

    fn run(&mut self, alloc: Global, op: &[u8]) -> Result<Payload, AllocError> {
        let _ = op;
        Payload::from_slice(alloc, &[])
    }

    fn snapshot(&self, alloc: Global) -> Result<Bytes, AllocError> {
        Bytes::from_slice(alloc, self.bytes.as_slice())
    }

    fn restore(alloc: Global, bytes: &[u8]) -> Result<Text, RestoreError> {
        if bytes.len() <= STATE_BYTES {
            Ok(Text {
                bytes: Bytes::from_slice(alloc, bytes)?,
            })
        } else {
            Err(RestoreError::BadSnapshot)
        }
    }
}
