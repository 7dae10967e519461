//! What is still needed in a regency of a view.
ghost use Rattle.std.specs.Prelude.{◌≡◌, filter};
ghost use Rattle.regency_sync.specs.Synchronizers.{is_needed, needs_stop, needs_report, needs_sync};

use smart_base::number::{Regency, ViewNo};
use smart_messages::regency::{Reported, Stop, Sync};
use smart_statements::signed::Signed;

/// Whether a view and a regency are this view, and this regency or a later one.
pub fn is_needed(view: ViewNo, regency: Regency, its_view: ViewNo, its_regency: Regency) -> bool
    ensures { result ≡ is_needed view regency its_view its_regency }
{
    its_view == view && regency <= its_regency
}

fn needs_stop(view: ViewNo, regency: Regency, stop: &Signed<Stop>) -> bool
    ensures { result ≡ needs_stop view regency stop.now }
{
    is_needed(
        view,
        regency,
        stop.statement().view,
        stop.statement().regency,
    )
}

/// Whether a report is of this view, and of this regency or a later one.
pub fn needs_report(view: ViewNo, regency: Regency, reported: &Reported) -> bool
    ensures { result ≡ needs_report view regency reported.now }
{
    let report = reported.head.statement();
    is_needed(view, regency, report.view, report.regency)
}

/// Whether a SYNC is of this view, and of this regency or a later one.
pub fn needs_sync(view: ViewNo, regency: Regency, sync: &Signed<Sync>) -> bool
    ensures { result ≡ needs_sync view regency sync.now }
{
    is_needed(
        view,
        regency,
        sync.statement().view,
        sync.statement().regency,
    )
}

/// Keeps only the STOPs that are still needed.
pub fn keep_stops(stops: &mut Vec<Signed<Stop>>, view: ViewNo, regency: Regency)
    ensures { stops.new.items ≡ filter (needs_stop view regency) stops.old.items }
{
    stops.retain(|stop| needs_stop(view, regency, stop));
}

/// Keeps only the reports that are still needed.
pub fn keep_reports(reports: &mut Vec<Reported>, view: ViewNo, regency: Regency)
    ensures { reports.new.items ≡ filter (needs_report view regency) reports.old.items }
{
    reports.retain(|reported| needs_report(view, regency, reported));
}

/// Keeps only the SYNCs that are still needed.
pub fn keep_syncs(syncs: &mut Vec<Signed<Sync>>, view: ViewNo, regency: Regency)
    ensures { syncs.new.items ≡ filter (needs_sync view regency) syncs.old.items }
{
    syncs.retain(|sync| needs_sync(view, regency, sync));
}
