//! What a node looks up in what it keeps.
ghost use Rattle.std.specs.Prelude.{◌≡◌, ◌<◌, ℕ, max, filter, filter_map, find, option_map, IsSome};
ghost use Rattle.std.specs.List.{list_any};
ghost use Rattle.smart_statements.specs.Equality.{same_slot};
ghost use Rattle.smart_base.specs.Lists.{same_bytes};
ghost use Rattle.smart_statements.specs.declared.statement.VoteKind.TheVariants as kinds;
ghost use Rattle.std.specs.Option.{option_copied};
ghost use Rattle.vote_book.specs.Books.{last_made};
ghost use Rattle.vote_book.specs.Standing.{first_start};
ghost use Rattle.vote_book.specs.BookReports.{accept_for};
ghost use Rattle.vote_book.specs.declared.entry.Accept.{Accept};
ghost use Rattle.node_rules.specs.Votes.{has_quorum};
ghost use Rattle.node_rules.specs.Kept.{is_ahead};
ghost use Rattle.node_rules.specs.Nodes.{regency_in, greatest_regency, start_at};
ghost use Rattle.consensus_instance.specs.Nodes.{stated_start};

use consensus_instance::instance::Instance;
use consensus_instance::needed::is_ahead;
use consensus_instance::start::Start as Beginning;
use smart_base::bytes::Digest32;
use smart_base::equality::same_bytes;
use smart_base::number::{Place, Regency, ViewNo};
use smart_base::view::View;
use smart_statements::equality::same_slot;
use smart_statements::statement::Slot;
use vote_book::book::Book;
use vote_book::entry::{Accept, LogEntry, Start};

/// Whether a slot is among those proposed for.
pub fn has_proposed(proposed: &[Slot], slot: &Slot) -> bool
    ensures { result ≡ list_any (same_slot slot.now) proposed.now }
{
    proposed.iter().any(|made| same_slot(*slot, *made))
}

/// Keeps only the slots past a place.
pub fn keep_ahead(slots: &mut Vec<Slot>, view: ViewNo, place: Place, regency: Regency)
    ensures { slots.new.items ≡ filter (is_ahead view place regency) slots.old.items }
{
    slots.retain(|slot| is_ahead(view, place, regency, slot));
}

/// The first accept of a digest in a view for a place.
pub fn accept_under<'a>(
    book: &'a Book,
    view: ViewNo,
    place: Place,
    digest: &Digest32,
) -> Option<&'a Accept>
    requires { last_made book.now.entries < place }
    ensures { option_copied result ≡ find (λ (a : Accept). same_bytes a.digest digest.now) (filter_map (accept_for view place) book.now.entries) }
{
    for index in 0..book.pushed().len() {
        let accept = book.accept_for(view, place, index)?;
        if same_bytes(accept.digest.as_slice(), digest.as_slice()) {
            return Some(accept);
        }
    }
    None
}

/// The first accept in a slot's view and place whose batch a quorum accepted in that slot.
pub fn accept_by_quorum<'a>(book: &'a Book, instance: &Instance, slot: &Slot) -> Option<&'a Accept>
    requires { last_made book.now.entries < slot.now.place }
    ensures { option_copied result ≡ find (λ (a : Accept). has_quorum instance.now.arrivals instance.now.view kinds.Accept slot.now a.digest) (filter_map (accept_for slot.now.view slot.now.place) book.now.entries) }
{
    for index in 0..book.pushed().len() {
        let accept = book.accept_for(slot.view, slot.place, index)?;
        if instance.is_accepted(slot, &accept.digest) {
            return Some(accept);
        }
    }
    None
}

/// The beginning that an entry states.
fn stated_start(start: &Start) -> Beginning
    ensures { result ≡ stated_start start.now }
{
    Beginning {
        base: start.base,
        bound: start.bound,
    }
}

/// The first beginning of a regency of a view, by a book.
pub fn first_start(book: &Book, view: ViewNo, regency: Regency) -> Option<Beginning>
    ensures { result ≡ option_map stated_start (first_start view regency book.now.entries) }
{
    match book.first_start(view, regency) {
        None => None,
        Some(start) => Some(stated_start(start)),
    }
}

/// The beginning of a regency of a view, if a book states it; regency 0 begins with the view.
#[tactic(auto, using(crate::proofs::Starts::starts_at))]
pub fn start_at(book: &Book, view: &View, regency: Regency) -> Option<Beginning>
    ensures value { result ≡ option_map stated_start (start_at view.now regency book.now.entries) }
    ensures first { regency ≡ 0 → IsSome result }
{
    if regency.get() == 0 {
        return Some(Beginning {
            base: view.start(),
            bound: None,
        });
    }
    first_start(book, view.number(), regency)
}

/// The regency that an entry promises in a view; 0 if it promises none there.
fn regency_in(view: ViewNo, entry: &LogEntry) -> Regency
    ensures { result ≡ regency_in view entry.now }
{
    match entry {
        LogEntry::Promised(promise) if promise.view == view => promise.regency,
        LogEntry::Opened(_)
        | LogEntry::Wrote(_)
        | LogEntry::Accepted(_)
        | LogEntry::Promised(_)
        | LogEntry::Synced(_)
        | LogEntry::Decided(_)
        | LogEntry::Installed(_)
        | LogEntry::Marked(_) => Regency::new(0),
    }
}

fn greater(a: Regency, b: Regency) -> Regency
    ensures { result ≡ max a b }
{
    if a < b { b } else { a }
}

/// The greatest regency that entries promise in a view; 0 if they promise none.
pub fn greatest_regency(view: ViewNo, entries: &[LogEntry]) -> Regency
    ensures { result ≡ greatest_regency view entries.now }
{
    let mut greatest = Regency::new(0);
    for entry in entries {
        greatest = greater(greatest, regency_in(view, entry));
    }
    greatest
}
