//! The entries that a member writes into its log before a message that rests on them leaves.
ghost use Rattle.std.specs.Prelude.{◌≡◌, IfOk};

use smart_base::bytes::Digest32;
use smart_base::duplicate::Duplicate;
use smart_base::name::MemberId;
use smart_base::number::{Place, Regency, ViewNo};
use smart_base::view::View;
use smart_statements::batch::Batch;
use smart_statements::report::Mark;
use smart_statements::signed_list::SignedList;
use smart_statements::statement::{Ballot, Slot};
use std::alloc::{AllocError, Global};

/// The opening of a book: its member, the number of places in which each member takes one checkpoint,
/// and the group's first view.
pub struct Opening {
    pub member: MemberId,
    pub period: u32,
    pub view: View,
}

/// Let go by one call, so that no function that lets one go carries the whole of it.
impl Drop for Opening {
    fn drop(self) {
        let Opening {
            member: _,
            period: _,
            view: _,
        } = self;
    }
}

/// A WRITE: the member has voted for a digest in a slot, in the first phase (Mod-SMaRt, EDCC 2012).
pub struct Write {
    pub slot: Slot,
    pub digest: Digest32,
}

/// Let go by one call, so that no function that lets one go carries the whole of it.
impl Drop for Write {
    fn drop(self) {
        let Write { slot: _, digest: _ } = self;
    }
}

/// An ACCEPT: the member has voted for a digest in a slot, in the second phase, after a quorum wrote
/// for it (Mod-SMaRt, EDCC 2012).
pub struct Accept {
    pub slot: Slot,
    pub digest: Digest32,
    pub writes: SignedList<Ballot>,
    pub batch: Batch,
}

/// Let go by one call, so that no function that lets one go carries the whole of it.
impl Drop for Accept {
    fn drop(self) {
        let Accept {
            slot: _,
            digest: _,
            writes: _,
            batch: _,
        } = self;
    }
}

/// A promise to vote in no earlier regency of the view.
#[derive(Clone, Copy)]
pub struct Promise {
    pub view: ViewNo,
    pub regency: Regency,
}

/// The beginning of a regency. The member may vote in it from place `base` on, which is 1 to 2^63. At
/// the base it may vote for `bound` alone, if there is one.
pub struct Start {
    pub view: ViewNo,
    pub regency: Regency,
    pub base: u64,
    pub bound: Option<Digest32>,
}

/// Let go by one call, so that no function that lets one go carries the whole of it.
impl Drop for Start {
    fn drop(self) {
        let Start {
            view: _,
            regency: _,
            base: _,
            bound: _,
        } = self;
    }
}

/// A decision: a quorum accepted a batch in a slot.
pub struct Decision {
    pub slot: Slot,
    pub batch: Batch,
    pub accepts: SignedList<Ballot>,
}

/// Let go by one call, so that no function that lets one go carries the whole of it.
impl Drop for Decision {
    fn drop(self) {
        let Decision {
            slot: _,
            batch: _,
            accepts: _,
        } = self;
    }
}

/// An installation: the replica after a place was taken over from other members, who had marked it.
pub struct Installation {
    pub place: Place,
    pub digest: Digest32,
    pub view: ViewNo,
    pub marks: SignedList<Mark>,
}

/// Let go by one call, so that no function that lets one go carries the whole of it.
impl Drop for Installation {
    fn drop(self) {
        let Installation {
            place: _,
            digest: _,
            view: _,
            marks: _,
        } = self;
    }
}

/// An entry of a member's book. That batches and replies are logged is Dura-SMaRt's (USENIX ATC
/// 2013). That votes, promises and marks are logged before they leave is this project's own rule.
#[derive(Drop)]
pub enum LogEntry {
    Opened(Opening),
    Wrote(Write),
    Accepted(Accept),
    Promised(Promise),
    Synced(Start),
    Decided(Decision),
    Installed(Installation),
    /// The member has marked its replica.
    Marked(Mark),
}

impl Duplicate for Opening {
    fn duplicate(&self, alloc: Global) -> Result<Opening, AllocError> {
        Ok(Opening {
            member: self.member,
            period: self.period,
            view: self.view.duplicate(alloc)?,
        })
    }
}

impl Duplicate for Write {
    fn duplicate(&self, _alloc: Global) -> Result<Write, AllocError> {
        Ok(Write {
            slot: self.slot,
            digest: self.digest,
        })
    }
}

impl Duplicate for Accept {
    fn duplicate(&self, alloc: Global) -> Result<Accept, AllocError> {
        Ok(Accept {
            slot: self.slot,
            digest: self.digest,
            writes: self.writes.duplicate(alloc)?,
            batch: self.batch.duplicate(alloc)?,
        })
    }
}

impl Duplicate for Start {
    fn duplicate(&self, _alloc: Global) -> Result<Start, AllocError> {
        Ok(Start {
            view: self.view,
            regency: self.regency,
            base: self.base,
            bound: self.bound,
        })
    }
}

impl Duplicate for Decision {
    fn duplicate(&self, alloc: Global) -> Result<Decision, AllocError> {
        Ok(Decision {
            slot: self.slot,
            batch: self.batch.duplicate(alloc)?,
            accepts: self.accepts.duplicate(alloc)?,
        })
    }
}

impl Duplicate for Installation {
    fn duplicate(&self, alloc: Global) -> Result<Installation, AllocError> {
        Ok(Installation {
            place: self.place,
            digest: self.digest,
            view: self.view,
            marks: self.marks.duplicate(alloc)?,
        })
    }
}

impl Duplicate for LogEntry {
    fn duplicate(&self, alloc: Global) -> Result<LogEntry, AllocError> {
        match self {
            LogEntry::Opened(opening) => Ok(LogEntry::Opened(opening.duplicate(alloc)?)),
            LogEntry::Wrote(write) => Ok(LogEntry::Wrote(write.duplicate(alloc)?)),
            LogEntry::Accepted(accept) => Ok(LogEntry::Accepted(accept.duplicate(alloc)?)),
            LogEntry::Promised(promise) => Ok(LogEntry::Promised(*promise)),
            LogEntry::Synced(start) => Ok(LogEntry::Synced(start.duplicate(alloc)?)),
            LogEntry::Decided(decision) => Ok(LogEntry::Decided(decision.duplicate(alloc)?)),
            LogEntry::Installed(installation) => {
                Ok(LogEntry::Installed(installation.duplicate(alloc)?))
            }
            LogEntry::Marked(mark) => Ok(LogEntry::Marked(mark.duplicate(alloc)?)),
        }
    }
}
