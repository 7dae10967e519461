//! Checkpoints.
ghost use Rattle.std.specs.Prelude.{◌≡◌, ◌<◌, ◌^◌, ◌++◌, length, OnOk, OnErr};
ghost use Rattle.smart_base.specs.Cuts.{Gives};
ghost use Rattle.smart_base.specs.Spelling.{Extends};
ghost use Rattle.store_form.specs.Spelling.{IsCheckpoint, checkpoint_text};
ghost use Rattle.store_form.specs.Reading.{checkpoint_at};

use crate::group::take_entry;
use smart_base::cursor::Cursor;
use smart_base::fault::ReadError;
use smart_base::field::{put_text, put_u64};
use smart_base::sequence::Bytes;
use std::alloc::{AllocError, Global};

/// A checkpoint: a snapshot, and the number of its generation.
pub struct Checkpoint {
    pub generation: u64,
    pub snapshot: Bytes,
}

/// Let go by one call, so that no function that lets one go carries the whole of it.
impl Drop for Checkpoint {
    fn drop(self) {
        let Checkpoint {
            generation: _,
            snapshot: _,
        } = self;
    }
}

/// Reads the checkpoint after a slot's gate. Errors: a field that is none; want of memory.
#[tactic(auto, unfolding(crate::specs::Reading::checkpoint_at))]
pub fn take_checkpoint(alloc: Global, cut: &mut Cursor<'_>) -> Result<Checkpoint, ReadError>
    ensures exact { Gives result cut.new (checkpoint_at cut.old) }
    ensures unchanged { OnErr result (cut.new ≡ cut.old) }
{
    let mut ahead = cut.ahead();
    let generation = ahead.take_u64()?;
    let snapshot = take_entry(alloc, &mut ahead)?;
    *cut = ahead;
    Ok(Checkpoint {
        generation,
        snapshot,
    })
}

/// Adds the bytes after a slot's gate, with this snapshot. Error: want of memory.
#[tactic(auto, unfolding(crate::specs::Spelling::checkpoint_text))]
pub fn put_checkpoint(out: &mut Vec<u8>, generation: u64, snapshot: &[u8]) -> Result<(), AllocError>
    requires { length snapshot.now < 2 ^ 32 }
    ensures text { OnOk result (out.new.items ≡ out.old.items ++ checkpoint_text (record { generation = generation; snapshot = snapshot.now })) }
    ensures err { OnErr result (Extends out.old.items out.new.items) }
{
    put_u64(out, generation)?;
    put_text(out, snapshot)?;
    Ok(())
}
