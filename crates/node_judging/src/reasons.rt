//! The reasons that several kinds of messages share.
ghost use Rattle.std.specs.Prelude.{◌≡◌};
ghost use Rattle.replica_rules.specs.Seals.{is_verified};
ghost use Rattle.node_rules.specs.Nodes.{ring_of};
ghost use Rattle.node_rules.specs.Arrivals.{view_why, place_why, regency_why, slot_why, signer_why, is_newer, is_beyond, wish_why};

use node_rules::node::Why;
use node_state::seal::is_verified;
use node_state::state::NodeState;
use smart_base::name::MemberId;
use smart_base::number::{Place, Regency, ViewNo};
use smart_service::service::Service;
use smart_statements::signed::{Signed, Statement};
use smart_statements::statement::Slot;

/// Whether a view is later than the one in force.
pub fn is_newer<S: Service>(node: &NodeState<S>, view: ViewNo) -> bool
    ensures { result ≡ is_newer node.now view }
{
    node.view().number().get() < view.get()
}

pub fn is_beyond<S: Service>(node: &NodeState<S>, slot: Slot) -> bool
    ensures { result ≡ is_beyond node.now slot }
{
    let view = node.view().number().get();
    let last = node.decided_place().get();
    is_newer(node, slot.view) || slot.view.get() == view && last + 1 < slot.place.get()
}

#[tactic(auto, unfolding(node_rules::specs::Arrivals::signer_why))]
pub fn signer_why<S: Service, T: Statement>(node: &NodeState<S>, signed: &Signed<T>) -> Option<Why>
    ensures { result ≡ signer_why node.now (is_verified T.form (ring_of node.now) signed.now) signed.now.signer }
{
    if !node.view().is_member(node.id()) {
        Some(Why::NotMember)
    } else if !is_verified(node.keys.ring(), signed) {
        Some(Why::BadTag)
    } else if !node.view().is_member(MemberId::new(signed.signer())) {
        Some(Why::Stranger)
    } else {
        None
    }
}

pub fn view_why<S: Service>(node: &NodeState<S>, view: ViewNo) -> Option<Why>
    ensures { result ≡ view_why node.now view }
{
    let present = node.view().number().get();
    if view.get() < present {
        Some(Why::OldView)
    } else if present < view.get() {
        Some(Why::NewView)
    } else {
        None
    }
}

fn place_why<S: Service>(node: &NodeState<S>, place: Place) -> Option<Why>
    ensures { result ≡ place_why node.now place }
{
    let last = node.decided_place().get();
    if place.get() <= last {
        Some(Why::OldPlace)
    } else if last + 2 < place.get() {
        Some(Why::FarPlace)
    } else {
        None
    }
}

pub fn regency_why<S: Service>(node: &NodeState<S>, regency: Regency) -> Option<Why>
    ensures { result ≡ regency_why node.now regency }
{
    let present = node.regency().get();
    if regency.get() < present {
        Some(Why::OldRegency)
    } else if present as u64 + 1 < regency.get() as u64 {
        Some(Why::NewRegency)
    } else {
        None
    }
}

pub fn wish_why<S: Service>(node: &NodeState<S>, regency: Regency) -> Option<Why>
    ensures { result ≡ wish_why node.now regency }
{
    let present = node.regency().get();
    if regency.get() <= present {
        Some(Why::OldRegency)
    } else if present as u64 + 1 < regency.get() as u64 {
        Some(Why::NewRegency)
    } else {
        None
    }
}

#[tactic(auto, unfolding(node_rules::specs::Arrivals::slot_why))]
pub fn slot_why<S: Service>(node: &NodeState<S>, slot: Slot) -> Option<Why>
    ensures { result ≡ slot_why node.now slot }
{
    if let Some(why) = view_why(node, slot.view) {
        return Some(why);
    }
    if let Some(why) = place_why(node, slot.place) {
        return Some(why);
    }
    regency_why(node, slot.regency)
}
