//! The snapshots that a node has, and which of them are firm.
ghost use Rattle.std.specs.Prelude.{◌≡◌, ◌&&◌, ◌==◌, nat_le, filter, find};
ghost use Rattle.std.specs.Option.{option_copied, option_to_list};
ghost use Rattle.smart_messages.specs.Messages.{kept_if};
ghost use Rattle.node_rules.specs.declared.node.OwnSnapshot.{OwnSnapshot};
ghost use Rattle.node_rules.specs.Marks.{is_firm_snapshot, last_taken, newest_firm, firm_at};

use crate::state::NodeState;
use node_rules::node::OwnSnapshot;
use smart_base::number::Place;
use smart_service::service::Service;

/// Whether no crash loses a snapshot.
fn is_firm<S: Service>(node: &NodeState<S>, own: &OwnSnapshot) -> bool
    ensures { result ≡ is_firm_snapshot node.now own.now }
{
    own.needs <= node.firm
}

/// The checkpoint's snapshot, if it is firm.
fn firm_checkpoint<S: Service>(node: &NodeState<S>) -> Option<&OwnSnapshot>
    ensures { option_copied result ≡ kept_if (is_firm_snapshot node.now) node.now.checkpoint }
{
    match &node.checkpoint {
        None => None,
        Some(own) => if is_firm(node, own) { Some(own) } else { None },
    }
}

/// The last one of some snapshots that needs no more than so many firm entries.
#[tactic(auto, using(crate::proofs::Newest::newer_none, crate::proofs::Newest::newer_kept, crate::proofs::Newest::newer_passed))]
fn last_firm(taken: &[OwnSnapshot], firm: u64) -> Option<&OwnSnapshot>
    ensures { option_copied result ≡ last_taken (filter (λ (s : OwnSnapshot). nat_le s.needs firm) taken.now) }
{
    let mut found = None;
    for own in taken {
        if own.needs <= firm {
            found = Some(own);
        }
    }
    found
}

/// The newest snapshot of a node that is firm: the last one that it took, or that of its checkpoint.
#[tactic(auto, using(crate::proofs::Newest::newest_some, crate::proofs::Newest::newest_none))]
pub fn newest_firm<S: Service>(node: &NodeState<S>) -> Option<&OwnSnapshot>
    ensures { option_copied result ≡ newest_firm node.now }
{
    let found = last_firm(node.taken.as_slice(), node.firm);
    if found.is_some() {
        return found;
    }
    firm_checkpoint(node)
}

/// The checkpoint's snapshot, if it is firm and of a place.
fn checkpoint_at<S: Service>(node: &NodeState<S>, place: Place) -> Option<&OwnSnapshot>
    ensures { option_copied result ≡ find (λ (s : OwnSnapshot). is_firm_snapshot node.now s && (s.place == place)) (option_to_list node.now.checkpoint) }
{
    match &node.checkpoint {
        None => None,
        Some(own) => if is_firm(node, own) && own.place == place {
            Some(own)
        } else {
            None
        },
    }
}

/// The first snapshot that the node took, and that is firm and of a place.
fn taken_at<S: Service>(node: &NodeState<S>, place: Place) -> Option<&OwnSnapshot>
    ensures { option_copied result ≡ find (λ (s : OwnSnapshot). is_firm_snapshot node.now s && (s.place == place)) node.now.taken }
{
    node.taken
        .as_slice()
        .iter()
        .find(|own| is_firm(node, own) && own.place == place)
}

/// A firm snapshot of a place.
#[tactic(auto, using(crate::proofs::Newest::at_checkpoint, crate::proofs::Newest::at_taken))]
pub fn firm_at<S: Service>(node: &NodeState<S>, place: Place) -> Option<&OwnSnapshot>
    ensures { option_copied result ≡ firm_at node.now place }
{
    let own = checkpoint_at(node, place);
    if own.is_some() {
        return own;
    }
    taken_at(node, place)
}
