//! The judging of marks.
ghost use Rattle.std.specs.Prelude.{◌≡◌, ◌+◌, ◌||◌, ◌&&◌, nat_lt, None, IfOk, OnOk, OnErr};
ghost use Rattle.smart_base.specs.Views.{is_member};
ghost use Rattle.smart_statements.specs.Reports.{marks};
ghost use Rattle.replica_rules.specs.Seals.{is_verified};
ghost use Rattle.node_rules.specs.Nodes.{ring_of, view_of, decided_place};
ghost use Rattle.node_rules.specs.Arrivals.{why_mark, noted, kept};
ghost use Rattle.node_judging.specs.Arriving.{kept_unless};
ghost use Rattle.smart_messages.specs.declared.message.Message.TheVariants as changes;

use node_rules::node::Why;
use node_state::seal::is_verified;
use node_state::state::NodeState;
use smart_base::name::MemberId;
use smart_service::service::Service;
use smart_statements::report::Mark;
use smart_statements::signed::Signed;
use std::alloc::AllocError;

/// Keeps a mark, or tells why it is dropped. Error: want of memory.
#[tactic(auto, unfolding(node_rules::specs::Arrivals::noted, node_rules::specs::Arrivals::kept))]
pub fn take_mark<S: Service>(
    node: &mut NodeState<S>,
    mark: Signed<Mark>,
) -> Result<Option<Why>, AllocError>
    ensures why { IfOk result (λ why. why ≡ why_mark node.old mark) }
    ensures node { IfOk result (λ why. node.new ≡ kept_unless why (noted node.old (changes.Mark mark)) (changes.Mark mark)) }
    ensures err { OnErr result (node.new.entries ≡ node.old.entries) }
    ensures snapshots { OnErr result (node.new.taken ≡ node.old.taken) }
{
    let dropped = why_mark(node, &mark);
    note(node, &mark);
    if dropped.is_some() {
        return Ok(dropped);
    }
    keep_mark(node, mark)?;
    Ok(None)
}

/// Keeps a mark that is not dropped. Error: want of memory.
#[tactic(auto, unfolding(node_rules::specs::Arrivals::kept))]
fn keep_mark<S: Service>(node: &mut NodeState<S>, mark: Signed<Mark>) -> Result<(), AllocError>
    ensures node { OnOk result (node.new ≡ kept node.old (changes.Mark mark)) }
    ensures err { OnErr result (node.new.entries ≡ node.old.entries) }
    ensures snapshots { OnErr result (node.new.taken ≡ node.old.taken) }
{
    node.marks.note(mark)
}

/// Whether a mark is one of a member of the view, with the member's tag.
fn is_members<S: Service>(node: &NodeState<S>, mark: &Signed<Mark>) -> bool
    ensures { result ≡ (is_verified marks (ring_of node.now) mark.now && is_member (view_of node.now) mark.now.signer) }
{
    is_verified(node.keys.ring(), mark) && node.view().is_member(MemberId::new(mark.signer()))
}

/// Notes that the node lags, if a member's mark of a place shows it.
fn note<S: Service>(node: &mut NodeState<S>, mark: &Signed<Mark>)
    ensures { node.new ≡ record node.old { behind = node.old.behind || (is_verified marks (ring_of node.old) mark.now && is_member (view_of node.old) mark.now.signer && nat_lt (decided_place node.old + 1) mark.now.statement.place) } }
{
    let last = node.decided_place().get();
    node.behind = node.behind || is_members(node, mark) && last + 1 < mark.statement().place.get();
}

/// Why a mark is dropped, if it is.
#[tactic(auto, unfolding(node_rules::specs::Arrivals::why_mark))]
fn why_mark<S: Service>(node: &NodeState<S>, mark: &Signed<Mark>) -> Option<Why>
    ensures { result ≡ why_mark node.now mark.now }
{
    if !is_verified(node.keys.ring(), mark) {
        Some(Why::BadTag)
    } else if !node.view().is_member(MemberId::new(mark.signer())) {
        Some(Why::Stranger)
    } else if mark.statement().place <= node.place() {
        Some(Why::OldPlace)
    } else if node.marks.repeats(mark) {
        Some(Why::Repeated)
    } else {
        None
    }
}
