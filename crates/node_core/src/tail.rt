//! What a node's store keeps of its book beside a checkpoint.
ghost use Rattle.std.specs.Prelude.{◌≡◌, ◌-◌, length, IfOk};
ghost use Rattle.book_tail.specs.Tails.{AreTexts};
ghost use Rattle.node_rules.specs.Tails.{tail_of};

use book_tail::tail::{cut_texts, until_installed};
use node_rules::node::BookTail;
use node_state::state::NodeState;
use smart_base::number::Place;
use smart_service::service::Service;
use std::alloc::AllocError;
use vote_book::entry::LogEntry;

/// How many of the first entries of the book the node made in this life.
fn made_of<S: Service>(node: &NodeState<S>, entries: &[LogEntry]) -> u64
    ensures { result ≡ length entries.now - node.now.restored }
{
    (entries.len() as u64).saturating_sub(node.restored)
}

/// The tail of the log beside a checkpoint of a place. Error: want of memory, also for an entry that no
/// log has room for.
#[tactic(auto, unfolding(node_rules::specs::Tails::tail_of))]
pub fn tail<S: Service>(node: &NodeState<S>, place: Place) -> Result<BookTail, AllocError>
    ensures value { IfOk result (λ t. t ≡ tail_of node.now place) }
    ensures fit { IfOk result (λ t. AreTexts t.entries) }
{
    let front = until_installed(node.book.pushed(), place);
    let made = made_of(node, front);
    let entries = cut_texts(node.alloc, front, place)?;
    Ok(BookTail { made, entries })
}
