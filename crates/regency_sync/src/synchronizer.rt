//! A member's part in a leader change.
ghost use Rattle.std.specs.Prelude.{◌≡◌, ◌+◌, ◌<◌, ◌^◌, true, length, find, IfOk, OnOk, OnErr};
ghost use Rattle.std.specs.Option.{option_copied};
ghost use Rattle.smart_base.specs.Views.{is_member};
ghost use Rattle.regency_sync.specs.Synchronizers.{Synchronizer, is_synced, repeats_stop, repeats_report, repeats_sync};
ghost use Rattle.regency_sync.specs.Synchronizers.{has_next, stoppers, is_joining, is_promising, reporters, is_collecting, collect, collecting, resumed};
ghost use Rattle.regency_sync.specs.Synchronizers.{due, bears, batch_of, begun};
ghost use Rattle.regency_sync.specs.Synchronizers.{is_reached, keeps_stop, keeps_report, keeps_sync, keeping_stop, keeping_report, keeping_sync};
ghost use Rattle.regency_sync.specs.Synchronizers.{adopted, stopped, promised, promised_to, led, moved, taken_to, trimmed};

use crate::find::{
    carries, collect, count_reporters, count_stoppers, has_same_report, has_same_stop,
    has_same_sync,
};
use crate::needed::{is_needed, keep_reports, keep_stops, keep_syncs, needs_report, needs_sync};
use crate::rule::Rule;
use smart_base::bytes::Digest32;
use smart_base::name::MemberId;
use smart_base::number::{Regency, ViewNo};
use smart_base::view::View;
use smart_messages::regency::{Reported, Stop, Sync};
use smart_statements::batch::Batch;
use smart_statements::report::Report;
use smart_statements::signed::Signed;
use smart_statements::signed_list::SignedList;
use smart_view::size::{collect_size, stop_size};
use std::alloc::{AllocError, Global};
use std::marker::Model;

/// A member's part in a leader change (the synchronisation phase of Mod-SMaRt, EDCC 2012). It keeps
/// what comes of members, of regencies within reach, and each once: what else comes leaves it as it
/// was. Its caller has checked tags, and that reports and SYNCs bear their proofs. What is of another
/// view or of an earlier regency counts for nothing, and `trim` drops it.
pub struct Synchronizer {
    id: MemberId,
    /// The view in force.
    view: View,
    /// The greatest promised regency in the view in force; 0 if none is promised.
    regency: Regency,
    /// Whether the beginning of that regency is adopted.
    synced: bool,
    /// Whether the member has asked in this life for the regency after that one.
    stop_made: bool,
    /// Whether the member has sent, as leader, the SYNC of that regency in this life.
    sync_made: bool,
    /// The STOPs, and then the STOPDATA and SYNCs, each in the order in which they came.
    stops: Vec<Signed<Stop>>,
    reports: Vec<Reported>,
    syncs: Vec<Signed<Sync>>,
}

/// Let go by one call, so that no function that lets one go carries the whole of it.
impl Drop for Synchronizer {
    fn drop(self) {
        let Synchronizer {
            id: _,
            view: _,
            regency: _,
            synced: _,
            stop_made: _,
            sync_made: _,
            stops: _,
            reports: _,
            syncs: _,
        } = self;
    }
}

impl Model for Synchronizer {
    ghost use Rattle.regency_sync.specs.Synchronizers.{Synchronizer};

    ghost Value = { Synchronizer };

    ghost view = { λ s. record {
      id = s.id;
      view = s.view;
      regency = s.regency;
      synced = s.synced;
      stop_made = s.stop_made;
      sync_made = s.sync_made;
      stops = s.stops.items;
      reports = s.reports.items;
      syncs = s.syncs.items;
    } };
}

impl Synchronizer {
    /// A member that has promised nothing in a view. It needs no memory.
    pub fn begin(alloc: Global, id: MemberId, view: View) -> Self
        ensures { result ≡ begun id view }
    {
        Synchronizer {
            id,
            view,
            regency: Regency::new(0),
            synced: false,
            stop_made: false,
            sync_made: false,
            stops: Vec::new(alloc),
            reports: Vec::new(alloc),
            syncs: Vec::new(alloc),
        }
    }

    /// A member after a restart in a regency of a view, in which it takes part or not. It needs no
    /// memory.
    pub fn resume(alloc: Global, id: MemberId, view: View, regency: Regency, synced: bool) -> Self
        ensures { result ≡ resumed id view regency synced }
    {
        Synchronizer {
            id,
            view,
            regency,
            synced,
            stop_made: false,
            sync_made: false,
            stops: Vec::new(alloc),
            reports: Vec::new(alloc),
            syncs: Vec::new(alloc),
        }
    }

    /// Goes on in the view of a replica that was taken over, in the regency in force there. What was
    /// kept, and what the member did, stays.
    pub fn taken_to(&mut self, view: View, regency: Regency, synced: bool)
        ensures { self.new ≡ taken_to view regency synced self.old }
    {
        self.view = view;
        self.regency = regency;
        self.synced = synced;
    }

    /// The greatest regency that the member has promised in the view in force; 0 if it has promised
    /// none.
    pub fn regency(&self) -> Regency
        ensures { result ≡ self.now.regency }
    {
        self.regency
    }

    /// Whether the member takes part in its regency: in regency 0 at once, in a later one after it
    /// has adopted the beginning.
    pub fn is_synced(&self) -> bool
        ensures { result ≡ is_synced self.now }
    {
        self.regency.get() == 0 || self.synced
    }

    /// Keeps a member's STOP for the next regency, unless it repeats one; else the synchronizer stays as
    /// it was. Error: want of memory; nothing is kept then.
    pub fn on_stop(&mut self, stop: Signed<Stop>) -> Result<(), AllocError>
        ensures ok { OnOk result (self.new ≡ keeping_stop stop self.old) }
        ensures err { OnErr result (self.new ≡ self.old) }
    {
        if !self.keeps_stop(&stop) {
            return Ok(());
        }
        self.stops.push(stop)?;
        Ok(())
    }

    /// Keeps a member's report for a regency within reach, with the batch of its lock, unless it
    /// repeats one; else the synchronizer stays as it was. Error: want of memory; nothing is kept then.
    pub fn on_stopdata(
        &mut self,
        report: Signed<Report>,
        batch: Option<Batch>,
    ) -> Result<(), AllocError>
        ensures ok { OnOk result (self.new ≡ keeping_report report batch self.old) }
        ensures err { OnErr result (self.new ≡ self.old) }
    {
        let reported = Reported {
            head: report,
            batch,
        };
        if !self.keeps_report(&reported) {
            return Ok(());
        }
        self.reports.push(reported)?;
        Ok(())
    }

    /// Keeps a member's SYNC of the regency in force or a later one, unless it repeats one; else the
    /// synchronizer stays as it was. Error: want of memory; nothing is kept then.
    pub fn on_sync(&mut self, sync: Signed<Sync>) -> Result<(), AllocError>
        ensures ok { OnOk result (self.new ≡ keeping_sync sync self.old) }
        ensures err { OnErr result (self.new ≡ self.old) }
    {
        if !self.keeps_sync(&sync) {
            return Ok(());
        }
        self.syncs.push(sync)?;
        Ok(())
    }

    /// Whether a STOP may be kept.
    #[tactic(auto, unfolding(crate::specs::Synchronizers::keeps_stop))]
    fn keeps_stop(&self, stop: &Signed<Stop>) -> bool
        ensures { result ≡ keeps_stop self.now stop.now }
    {
        let wish = stop.statement();
        self.has_member(stop.signer())
            && (self.reaches(wish.view, wish.regency) && self.regency < wish.regency)
            && !self.repeats_stop(stop)
    }

    /// Whether a report may be kept.
    #[tactic(auto, unfolding(crate::specs::Synchronizers::keeps_report))]
    fn keeps_report(&self, reported: &Reported) -> bool
        ensures { result ≡ keeps_report self.now reported.now }
    {
        let report = reported.head.statement();
        self.has_member(reported.head.signer())
            && self.reaches(report.view, report.regency)
            && !self.repeats_report(&reported.head)
    }

    /// Whether a SYNC may be kept.
    #[tactic(auto, unfolding(crate::specs::Synchronizers::keeps_sync))]
    fn keeps_sync(&self, sync: &Signed<Sync>) -> bool
        ensures { result ≡ keeps_sync self.now sync.now }
    {
        self.has_member(sync.signer())
            && needs_sync(self.view.number(), self.regency, sync)
            && !self.repeats_sync(sync)
    }

    fn has_member(&self, signer: u16) -> bool
        ensures { result ≡ is_member self.now.view signer }
    {
        self.view.is_member(MemberId::new(signer))
    }

    /// Whether a view and a regency are within reach: the view in force, and the regency in force or
    /// the next one.
    fn reaches(&self, view: ViewNo, regency: Regency) -> bool
        ensures { result ≡ is_reached self.now view regency }
    {
        is_needed(self.view.number(), self.regency, view, regency)
            && regency.get() as u64 <= self.regency.get() as u64 + 1
    }

    /// The SYNCs that were kept, in the order in which they came.
    pub fn syncs(&self) -> &[Signed<Sync>]
        ensures { result.now ≡ self.now.syncs }
    {
        self.syncs.as_slice()
    }

    /// Whether the signer's STOP for the regency was kept before.
    pub fn repeats_stop(&self, stop: &Signed<Stop>) -> bool
        ensures { result ≡ repeats_stop self.now stop.now }
    {
        has_same_stop(self.stops.as_slice(), stop)
    }

    /// Whether the signer's report for the regency was kept before.
    pub fn repeats_report(&self, report: &Signed<Report>) -> bool
        ensures { result ≡ repeats_report self.now report.now }
    {
        has_same_report(self.reports.as_slice(), report)
    }

    /// Whether the signer's SYNC of the regency was kept before.
    pub fn repeats_sync(&self, sync: &Signed<Sync>) -> bool
        ensures { result ≡ repeats_sync self.now sync.now }
    {
        has_same_sync(self.syncs.as_slice(), sync)
    }

    /// The first rule that is due, if there is one.
    #[tactic(auto, unfolding(crate::specs::Synchronizers::due))]
    pub fn due(&self) -> Option<Rule>
        ensures { result ≡ due self.now.view self.now }
    {
        if self.is_joining() {
            Some(Rule::Join)
        } else if self.is_promising() {
            Some(Rule::Promise)
        } else if self.is_collecting() {
            Some(Rule::Collect)
        } else {
            None
        }
    }

    /// Whether the member is to ask for the next regency, as more than f members do. There is no
    /// regency after 2^32 - 1.
    #[tactic(auto, unfolding(crate::specs::Synchronizers::is_joining))]
    pub fn is_joining(&self) -> bool
        ensures value { result ≡ is_joining self.now.view self.now }
        ensures next { result ≡ true → self.now.regency + 1 < 2 ^ 32 }
    {
        self.has_next() && !self.stop_made && (self.view.f() as usize) < self.count_stoppers()
    }

    /// Whether the member is to promise the next regency, as 2f+1 members ask for it. There is no
    /// regency after 2^32 - 1.
    #[tactic(auto, unfolding(crate::specs::Synchronizers::is_promising))]
    pub fn is_promising(&self) -> bool
        ensures value { result ≡ is_promising self.now.view self.now }
        ensures next { result ≡ true → self.now.regency + 1 < 2 ^ 32 }
    {
        self.has_next() && stop_size(&self.view) <= self.count_stoppers()
    }

    /// The collect with which the member is to begin its regency, if it is to: it leads the regency,
    /// nobody has begun it, and n-f members have reported. It has the first report of each of the
    /// first n-f members by number. Error: want of memory.
    #[tactic(auto, unfolding(crate::specs::Synchronizers::collecting))]
    pub fn collecting(&self, alloc: Global) -> Result<Option<SignedList<Report>>, AllocError>
        ensures { IfOk result (λ reports. reports ≡ collecting self.now.view self.now) }
    {
        if self.is_collecting() {
            Ok(Some(self.collect(alloc)?))
        } else {
            Ok(None)
        }
    }

    /// The batch of a digest that binds: that of the first report whose lock has the digest, and
    /// which brings a batch, from whichever member (this project's own rule).
    #[tactic(auto, unfolding(crate::specs::Synchronizers::batch_of))]
    pub fn batch_of(&self, digest: &Digest32) -> Option<&Batch>
        ensures { option_copied result ≡ batch_of self.now.view self.now digest.now }
    {
        match self.bearer(digest) {
            None => None,
            Some(reported) => reported.batch.as_ref(),
        }
    }

    /// Notes that the member has adopted the beginning of a regency, in which it then takes part.
    pub fn adopted(&mut self, regency: Regency)
        ensures { self.new ≡ adopted regency self.old }
    {
        let is_same = regency == self.regency;
        self.stop_made = self.stop_made && is_same;
        self.sync_made = self.sync_made && is_same;
        self.regency = regency;
        self.synced = true;
    }

    /// Notes that the member has asked for the next regency.
    pub fn stop_made(&mut self)
        ensures { self.new ≡ stopped self.old }
    {
        self.stop_made = true;
    }

    /// Notes that the member has promised the next regency, which its leader has to begin.
    pub fn promised(&mut self)
        requires { self.old.regency + 1 < 2 ^ 32 }
        ensures { self.new ≡ promised self.old }
    {
        self.regency = Regency::new(self.regency.get() + 1);
        self.synced = false;
        self.stop_made = false;
        self.sync_made = false;
    }

    /// Notes that the member has promised a later regency, which its leader has to begin. If the
    /// member adopted its beginning before, it takes part at once; a book that is not tidy may have
    /// one before the promise.
    pub fn promised_to(&mut self, regency: Regency, begun: bool)
        ensures { self.new ≡ promised_to regency begun self.old }
    {
        self.regency = regency;
        self.synced = begun;
        self.stop_made = false;
        self.sync_made = false;
    }

    /// Notes that the member has sent its SYNC.
    pub fn sync_made(&mut self)
        ensures { self.new ≡ led self.old }
    {
        self.sync_made = true;
    }

    /// Moves to another view, in which nothing is promised. What is of other views is dropped.
    pub fn moved(&mut self, view: View)
        ensures { self.new ≡ trimmed view (moved view self.old) }
    {
        self.view = view;
        self.regency = Regency::new(0);
        self.synced = false;
        self.stop_made = false;
        self.sync_made = false;
        self.trim();
    }

    /// Drops what is of another view or of an earlier regency.
    #[tactic(auto, unfolding(crate::specs::Synchronizers::trimmed))]
    pub fn trim(&mut self)
        ensures { self.new ≡ trimmed self.old.view self.old }
    {
        let number = self.view.number();
        keep_stops(&mut self.stops, number, self.regency);
        keep_reports(&mut self.reports, number, self.regency);
        keep_syncs(&mut self.syncs, number, self.regency);
    }

    fn has_next(&self) -> bool
        ensures { result ≡ has_next self.now }
    {
        self.regency.get() < u32::MAX
    }

    /// The number of members that ask for the next regency.
    fn count_stoppers(&self) -> usize
        requires { has_next self.now ≡ true }
        ensures { result ≡ length (stoppers self.now.view self.now) }
    {
        let next = Regency::new(self.regency.get() + 1);
        let view = &self.view;
        count_stoppers(self.stops.as_slice(), view.members(), view.number(), next)
    }

    fn is_collecting(&self) -> bool
        ensures { result ≡ is_collecting self.now.view self.now }
    {
        self.view.leader(self.regency) == self.id
            && !self.is_synced()
            && !self.sync_made
            && collect_size(&self.view) <= self.count_reporters()
    }

    /// The number of members that have reported for the member's regency.
    fn count_reporters(&self) -> usize
        ensures { result ≡ length (reporters self.now.view self.now) }
    {
        count_reporters(
            self.reports.as_slice(),
            self.view.members(),
            self.view.number(),
            self.regency,
        )
    }

    /// The first reports of members, by number. Error: want of memory.
    fn collect(&self, alloc: Global) -> Result<SignedList<Report>, AllocError>
        ensures { IfOk result (λ reports. reports ≡ collect self.now.view self.now) }
    {
        collect(
            alloc,
            self.reports.as_slice(),
            self.view.members(),
            self.view.number(),
            self.regency,
            collect_size(&self.view),
        )
    }

    /// The first report with a lock of this digest that brings a batch.
    fn bearer(&self, digest: &Digest32) -> Option<&Reported>
        ensures { option_copied result ≡ find (bears self.now.view self.now digest.now) self.now.reports }
    {
        let number = self.view.number();
        self.reports.as_slice().iter().find(|reported| {
            needs_report(number, self.regency, reported) && carries(digest, reported)
        })
    }
}
