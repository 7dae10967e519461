//! Batches: the requests of one place.
ghost use Rattle.std.specs.Prelude.{◌≡◌, ◌<◌, ◌≤◌, [], ◌∷◌, ◌++◌, length, IfOk, OnOk, OnErr};
ghost use Rattle.smart_base.specs.Cuts.{Gives};
ghost use Rattle.smart_base.specs.Spelling.{Extends};
ghost use Rattle.smart_base.specs.declared.limits.TheConstants.{BATCH_REQUESTS};
ghost use Rattle.smart_statements.specs.Kinds.{requests};
ghost use Rattle.smart_statements.specs.Batches.{batch_text};
ghost use Rattle.smart_statements.specs.Reading.{requests_at, batch_at};

use crate::signed::{Every, Signed};
use crate::signed_list::{put_each, read_each};
use crate::statement::Request;
use smart_base::cursor::Cursor;
use smart_base::duplicate::Duplicate;
use smart_base::fault::ReadError;
use smart_base::field::{put_u16, take_items};
use smart_base::limits::{BATCH_BYTES, BATCH_REQUESTS};
use smart_base::sequence::Sequence;
use std::alloc::{AllocError, Global};
use std::marker::Model;

/// The room with which a batch's bytes begin: more than a few small requests take.
const ROOM: usize = 512;

/// A batch: 1 to 64 signed requests of one place, in the order in which they are executed; at most
/// 262,144 bytes.
pub struct Batch {
    list: Sequence<Signed<Request>>,
}

/// Let go by one call, so that no function that lets one go carries the whole of it.
impl Drop for Batch {
    fn drop(self) {
        let Batch { list: _ } = self;
    }
}

impl Model for Batch {
    ghost use Rattle.std.specs.Prelude.{List, length, ◌<◌, ◌≤◌};
    ghost use Rattle.smart_base.specs.declared.limits.TheConstants.{BATCH_REQUESTS};
    ghost use Rattle.smart_statements.specs.Forms.{SignedBy};
    ghost use Rattle.smart_statements.specs.declared.statement.Request.{Request};

    ghost Value = { List (SignedBy Request) };

    ghost view = { λ b. b.list };

    ghost invariant = { λ b. (0 < length b.list) × (length b.list ≤ BATCH_REQUESTS) };
}

impl Batch {
    pub fn from_list(list: Sequence<Signed<Request>>) -> Batch
        requires some { 0 < length list }
        requires few { length list ≤ BATCH_REQUESTS }
        ensures { result ≡ list }
    {
        Batch { list }
    }

    /// The batch of one request. Error: want of memory.
    pub fn single(alloc: Global, request: Signed<Request>) -> Result<Batch, AllocError>
        ensures { IfOk result (λ batch. batch ≡ request ∷ []) }
    {
        let mut list = Vec::new(alloc);
        list.push(request)?;
        Ok(Batch {
            list: Sequence::from_vec(list),
        })
    }

    pub fn len(&self) -> usize
        ensures value { result ≡ length self.now }
        ensures some { 0 < result }
        ensures few { result ≤ BATCH_REQUESTS }
    {
        self.list.len()
    }

    pub fn as_slice(&self) -> &[Signed<Request>]
        ensures value { result.now ≡ self.now }
        ensures some { 0 < length result.now }
        ensures few { length result.now ≤ BATCH_REQUESTS }
    {
        self.list.as_slice()
    }

    /// The requests as a list. It needs no memory.
    pub fn into_list(self) -> Sequence<Signed<Request>>
        ensures { result ≡ self }
    {
        let Batch { list } = self;
        list
    }

    /// Adds the bytes of the batch. Error: want of memory.
    #[tactic(auto, unfolding(crate::specs::Batches::batch_text))]
    pub fn put(&self, out: &mut Vec<u8>) -> Result<(), AllocError>
        ensures text { OnOk result (out.new.items ≡ out.old.items ++ batch_text self.now) }
        ensures err { OnErr result (Extends out.old.items out.new.items) }
    {
        put_u16(out, self.len() as u16)?;
        put_each(out, self.as_slice())?;
        Ok(())
    }

    /// The bytes of the batch, over which its digest is taken. Error: want of memory.
    pub fn text(&self, alloc: Global) -> Result<Vec<u8>, AllocError>
        ensures { IfOk result (λ text. text.items ≡ batch_text self.now) }
    {
        let mut out = Vec::with_capacity(alloc, ROOM)?;
        self.put(&mut out)?;
        Ok(out)
    }

    /// Reads a batch. Errors: a field that is none, or that ends past the batch's limit of bytes;
    /// want of memory.
    #[tactic(auto, unfolding(crate::specs::Reading::batch_at, smart_base::specs::Cuts::limited))]
    pub fn read(alloc: Global, cut: &mut Cursor<'_>) -> Result<Batch, ReadError>
        ensures exact { Gives result cut.new (batch_at requests cut.old) }
        ensures unchanged { OnErr result (cut.new ≡ cut.old) }
    {
        let mut inner = cut.front(BATCH_BYTES);
        let room = inner.rest().len();
        let batch = read_requests(alloc, &mut inner)?;
        cut.skip(room.saturating_sub(inner.rest().len()));
        Ok(batch)
    }
}

#[tactic(auto, unfolding(crate::specs::Reading::requests_at))]
fn read_requests(alloc: Global, cut: &mut Cursor<'_>) -> Result<Batch, ReadError>
    ensures { Gives result cut.new (requests_at requests cut.old) }
{
    let count = take_items(cut, BATCH_REQUESTS)?;
    let list = read_each::<Request, Every>(alloc, &Every, count, cut)?;
    Ok(Batch { list })
}

impl Duplicate for Batch {
    fn duplicate(&self, alloc: Global) -> Result<Batch, AllocError> {
        Ok(Batch {
            list: self.list.duplicate(alloc)?,
        })
    }
}
