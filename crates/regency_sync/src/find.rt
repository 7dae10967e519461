//! What a member looks up in what it keeps.
ghost use Rattle.std.specs.Prelude.{◌≡◌, ◌&&◌, is_some, ◌≤◌, ◌<◌, ◌^◌, length, filter, filter_map, find, take, option_map, IfOk};
ghost use Rattle.std.specs.List.{list_any};
ghost use Rattle.std.specs.Option.{option_copied};
ghost use Rattle.smart_messages.specs.declared.regency.Reported.{Reported};
ghost use Rattle.regency_sync.specs.Synchronizers.{is_same_stop, is_same_report, is_same_sync, is_stop, is_report, first_report, is_lock_of};

use smart_base::bytes::Digest32;
use smart_base::duplicate::Duplicate;
use smart_base::equality::same_bytes;
use smart_base::name::MemberId;
use smart_base::number::{Regency, ViewNo};
use smart_base::sequence::Sequence;
use smart_messages::regency::{Reported, Stop, Sync};
use smart_statements::report::{LockCertificate, Report};
use smart_statements::signed::Signed;
use smart_statements::signed_list::SignedList;
use std::alloc::{AllocError, Global};

fn is_same_stop(stop: &Signed<Stop>, other: &Signed<Stop>) -> bool
    ensures { result ≡ is_same_stop stop.now other.now }
{
    other.signer() == stop.signer()
        && other.statement().view == stop.statement().view
        && other.statement().regency == stop.statement().regency
}

fn is_same_report(report: &Signed<Report>, other: &Reported) -> bool
    ensures { result ≡ is_same_report report.now other.now }
{
    other.head.signer() == report.signer()
        && other.head.statement().view == report.statement().view
        && other.head.statement().regency == report.statement().regency
}

fn is_same_sync(sync: &Signed<Sync>, other: &Signed<Sync>) -> bool
    ensures { result ≡ is_same_sync sync.now other.now }
{
    other.signer() == sync.signer()
        && other.statement().view == sync.statement().view
        && other.statement().regency == sync.statement().regency
}

/// Whether the signer's STOP for the regency was kept before.
pub fn has_same_stop(stops: &[Signed<Stop>], stop: &Signed<Stop>) -> bool
    ensures { result ≡ list_any (is_same_stop stop.now) stops.now }
{
    stops.iter().any(|other| is_same_stop(stop, other))
}

/// Whether the signer's report for the regency was kept before.
pub fn has_same_report(reports: &[Reported], report: &Signed<Report>) -> bool
    ensures { result ≡ list_any (is_same_report report.now) reports.now }
{
    reports.iter().any(|other| is_same_report(report, other))
}

/// Whether the signer's SYNC of the regency was kept before.
pub fn has_same_sync(syncs: &[Signed<Sync>], sync: &Signed<Sync>) -> bool
    ensures { result ≡ list_any (is_same_sync sync.now) syncs.now }
{
    syncs.iter().any(|other| is_same_sync(sync, other))
}

fn is_stop(view: ViewNo, regency: Regency, member: MemberId, stop: &Signed<Stop>) -> bool
    ensures { result ≡ is_stop view regency member stop.now }
{
    stop.signer() == member.get()
        && stop.statement().view == view
        && stop.statement().regency == regency
}

fn has_stop(stops: &[Signed<Stop>], view: ViewNo, regency: Regency, member: MemberId) -> bool
    ensures { result ≡ list_any (is_stop view regency member) stops.now }
{
    stops
        .iter()
        .any(|stop| is_stop(view, regency, member, stop))
}

/// The number of members among these that ask for a regency.
pub fn count_stoppers(
    stops: &[Signed<Stop>],
    members: &[MemberId],
    view: ViewNo,
    regency: Regency,
) -> usize
    ensures { result ≡ length (filter (λ member. list_any (is_stop view regency member) stops.now) members.now) }
{
    members
        .iter()
        .filter(|member| has_stop(stops, view, regency, **member))
        .count()
}

fn is_report(view: ViewNo, regency: Regency, member: MemberId, reported: &Reported) -> bool
    ensures { result ≡ is_report view regency member reported.now }
{
    reported.head.signer() == member.get()
        && reported.head.statement().view == view
        && reported.head.statement().regency == regency
}

fn has_report(reports: &[Reported], view: ViewNo, regency: Regency, member: MemberId) -> bool
    ensures { result ≡ list_any (is_report view regency member) reports.now }
{
    reports
        .iter()
        .any(|reported| is_report(view, regency, member, reported))
}

/// The number of members among these that have reported for a regency.
pub fn count_reporters(
    reports: &[Reported],
    members: &[MemberId],
    view: ViewNo,
    regency: Regency,
) -> usize
    ensures { result ≡ length (filter (λ member. list_any (is_report view regency member) reports.now) members.now) }
{
    members
        .iter()
        .filter(|member| has_report(reports, view, regency, **member))
        .count()
}

fn report_of(
    reports: &[Reported],
    view: ViewNo,
    regency: Regency,
    member: MemberId,
) -> Option<&Reported>
    ensures { option_copied result ≡ find (is_report view regency member) reports.now }
{
    reports
        .iter()
        .find(|reported| is_report(view, regency, member, reported))
}

/// The first reports of the first `size` members by number, or of all that have reported if they are
/// fewer. Error: want of memory.
pub fn collect(
    alloc: Global,
    reports: &[Reported],
    members: &[MemberId],
    view: ViewNo,
    regency: Regency,
    size: usize,
) -> Result<SignedList<Report>, AllocError>
    requires { size < 2 ^ 16 }
    ensures { IfOk result (λ list. list ≡ take size (filter_map (first_report view regency reports.now) members.now)) }
{
    let mut items = Sequence::new(alloc);
    for member in members {
        if items.len() == size {
            break;
        }
        if let Some(reported) = report_of(reports, view, regency, *member) {
            items.push(reported.head.duplicate(alloc)?)?;
        }
    }
    Ok(SignedList::from_list(items))
}

fn is_lock_of(digest: &Digest32, lock: &Option<LockCertificate>) -> bool
    ensures { result ≡ is_lock_of digest.now lock.now }
{
    match lock {
        None => false,
        Some(lock) => same_bytes(lock.digest.as_slice(), digest.as_slice()),
    }
}

/// Whether a report brings the batch of a digest, by its lock.
pub fn carries(digest: &Digest32, reported: &Reported) -> bool
    ensures { result ≡ (is_lock_of digest.now reported.now.head.statement.lock && is_some reported.now.batch) }
{
    is_lock_of(digest, &reported.head.statement().lock) && reported.batch.is_some()
}
