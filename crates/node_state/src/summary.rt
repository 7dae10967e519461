//! A node's instance and its part in a leader change, as its book says.
ghost use Rattle.std.specs.Prelude.{◌≡◌, ◌≤◌, [], false, None};
ghost use Rattle.vote_book.specs.Books.{last_made};
ghost use Rattle.node_state.specs.Following.{Follows};

use crate::find::{first_start, greatest_regency, start_at};
use consensus_instance::instance::Instance;
use regency_sync::synchronizer::Synchronizer;
use smart_base::name::MemberId;
use smart_base::number::Place;
use smart_base::view::View;
use std::alloc::Global;
use vote_book::book::Book;

/// A member's instance at the next place, and its part in a leader change.
#[derive(Drop)]
pub struct Summary {
    pub instance: Instance,
    pub synchronizer: Synchronizer,
}

/// What a member that has kept nothing of a view keeps beside its book, behind a place in that view. It
/// takes two copies of the view, and no memory.
pub fn summarize(
    alloc: Global,
    id: MemberId,
    own: View,
    other: View,
    place: Place,
    book: &Book,
) -> Summary
    requires same { other ≡ own }
    requires made { last_made book.now.entries ≤ place }
    ensures follows { Follows id own place None book.now.entries result.instance result.synchronizer }
    ensures arrivals { result.instance.arrivals ≡ [] }
    ensures stops { result.synchronizer.stops ≡ [] }
    ensures reports { result.synchronizer.reports ≡ [] }
    ensures syncs { result.synchronizer.syncs ≡ [] }
    ensures stop_made { result.synchronizer.stop_made ≡ false }
    ensures sync_made { result.synchronizer.sync_made ≡ false }
{
    let number = own.number();
    let regency = greatest_regency(number, book.pushed());
    let start = start_at(book, &own, regency);
    let votes = book.votes_at(number, place.get() + 1, regency);
    let synced = first_start(book, number, regency).is_some();
    Summary {
        instance: Instance::resume(alloc, id, own, place, regency, start, votes),
        synchronizer: Synchronizer::resume(alloc, id, other, regency, synced),
    }
}
