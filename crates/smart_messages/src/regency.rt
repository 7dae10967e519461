//! The statements and messages of a leader change.
ghost use Rattle.smart_messages.specs.Regencies.{FitsStop, stops, FitsSync, syncs, FitsViewInfo, view_infos, stop_law, sync_law, view_info_law};

use smart_base::cursor::Cursor;
use smart_base::duplicate::Duplicate;
use smart_base::fault::ReadError;
use smart_base::field::{put_u8, put_u32, take_kind};
use smart_base::number::{Regency, ViewNo};
use smart_base::view::View;
use smart_base::view_bytes::{put_view, read_view};
use smart_statements::batch::Batch;
use smart_statements::optional::duplicate_optional;
use smart_statements::report::Report;
use smart_statements::signed::{MEMBER, Signed, Statement, within_limit};
use smart_statements::signed_list::SignedList;
use std::alloc::{AllocError, Global};

/// A member's wish for a regency of a view (STOP of Mod-SMaRt, EDCC 2012).
pub struct Stop {
    pub view: ViewNo,
    pub regency: Regency,
}

/// Let go by one call, so that no function that lets one go carries the whole of it.
impl Drop for Stop {
    fn drop(self) {
        let Stop {
            view: _,
            regency: _,
        } = self;
    }
}

/// The reports with which the leader of a regency begins it (SYNC of Mod-SMaRt, EDCC 2012). Everyone
/// makes the same choice of them.
pub struct Sync {
    pub view: ViewNo,
    pub regency: Regency,
    pub collect: SignedList<Report>,
}

/// Let go by one call, so that no function that lets one go carries the whole of it.
impl Drop for Sync {
    fn drop(self) {
        let Sync {
            view: _,
            regency: _,
            collect: _,
        } = self;
    }
}

/// A member's statement of the view in force, for a client (BFT-SMaRt, DSN 2014).
pub struct ViewInfo {
    pub view: View,
}

/// Let go by one call, so that no function that lets one go carries the whole of it.
impl Drop for ViewInfo {
    fn drop(self) {
        let ViewInfo { view: _ } = self;
    }
}

/// A member's report, with the batch of its lock (STOPDATA of Mod-SMaRt, EDCC 2012).
#[derive(Drop)]
pub struct Reported {
    pub head: Signed<Report>,
    pub batch: Option<Batch>,
}

impl Statement for Stop {
    ghost form = { stops };

    ghost fits = { λ signer. FitsStop };

    ghost agree = { stop_law };

    fn kind() -> u8 {
        MEMBER
    }

    #[tactic(auto, unfolding(crate::specs::Regencies::stop_at))]
    fn read(_alloc: Global, _signer: u16, cut: &mut Cursor<'_>) -> Result<Stop, ReadError> {
        take_kind(cut, 4)?;
        let view = ViewNo::new(cut.take_u32()?);
        let regency = Regency::new(cut.take_u32()?);
        Ok(Stop { view, regency })
    }

    #[tactic(auto, using(crate::specs::Regencies::stop_small))]
    fn put(&self, out: &mut Vec<u8>) -> Result<(), AllocError> {
        let (view, regency) = (self.view.get(), self.regency.get());
        put_u8(out, 4)?;
        put_u32(out, view)?;
        put_u32(out, regency)?;
        Ok(())
    }
}

impl Statement for Sync {
    ghost form = { syncs };

    ghost fits = { λ signer. FitsSync };

    ghost agree = { sync_law };

    fn kind() -> u8 {
        MEMBER
    }

    #[tactic(auto, unfolding(crate::specs::Regencies::sync_at))]
    fn read(alloc: Global, _signer: u16, cut: &mut Cursor<'_>) -> Result<Sync, ReadError> {
        take_kind(cut, 6)?;
        let view = ViewNo::new(cut.take_u32()?);
        let regency = Regency::new(cut.take_u32()?);
        let collect = SignedList::<Report>::read(alloc, cut)?;
        Ok(Sync {
            view,
            regency,
            collect,
        })
    }

    fn put(&self, out: &mut Vec<u8>) -> Result<(), AllocError> {
        let (view, regency) = (self.view.get(), self.regency.get());
        let before = out.len();
        put_u8(out, 6)?;
        put_u32(out, view)?;
        put_u32(out, regency)?;
        self.collect.put(out)?;
        within_limit(out, before)?;
        Ok(())
    }
}

impl Statement for ViewInfo {
    ghost form = { view_infos };

    ghost fits = { λ signer. FitsViewInfo };

    ghost agree = { view_info_law };

    fn kind() -> u8 {
        MEMBER
    }

    #[tactic(auto, unfolding(crate::specs::Regencies::view_info_at))]
    fn read(alloc: Global, _signer: u16, cut: &mut Cursor<'_>) -> Result<ViewInfo, ReadError> {
        take_kind(cut, 10)?;
        let view = read_view(alloc, cut)?;
        Ok(ViewInfo { view })
    }

    #[tactic(auto, using(crate::specs::Regencies::view_info_small))]
    fn put(&self, out: &mut Vec<u8>) -> Result<(), AllocError> {
        // A view has few members, so its text is short.
        let _few = self.view.members();
        put_u8(out, 10)?;
        put_view(out, &self.view)?;
        Ok(())
    }
}

impl Duplicate for Stop {
    fn duplicate(&self, _alloc: Global) -> Result<Stop, AllocError> {
        Ok(Stop {
            view: self.view,
            regency: self.regency,
        })
    }
}

impl Duplicate for Sync {
    fn duplicate(&self, alloc: Global) -> Result<Sync, AllocError> {
        Ok(Sync {
            view: self.view,
            regency: self.regency,
            collect: self.collect.duplicate(alloc)?,
        })
    }
}

impl Duplicate for ViewInfo {
    fn duplicate(&self, alloc: Global) -> Result<ViewInfo, AllocError> {
        Ok(ViewInfo {
            view: self.view.duplicate(alloc)?,
        })
    }
}

impl Duplicate for Reported {
    fn duplicate(&self, alloc: Global) -> Result<Reported, AllocError> {
        Ok(Reported {
            head: self.head.duplicate(alloc)?,
            batch: duplicate_optional(alloc, &self.batch)?,
        })
    }
}
