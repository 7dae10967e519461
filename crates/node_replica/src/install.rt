//! The rule that installs.
ghost use Rattle.std.specs.Prelude.{◌≡◌, ◌&&◌, ◌<◌, ◌++◌, ◌∷◌, [], true, false, is_some, is_none, nat_lt, filter, None, IfOk, OnOk, OnErr};
ghost use Rattle.std.specs.List.{list_all};
ghost use Rattle.smart_base.specs.Lists.{same_bytes};
ghost use Rattle.smart_base.specs.Views.{is_view};
ghost use Rattle.replica_rules.specs.Pools.{settled};
ghost use Rattle.node_rules.specs.Nodes.{recording, entered, enters};
ghost use Rattle.state_transfer.specs.Fetches.{joined_of, finished};
ghost use Rattle.node_rules.specs.Transfers.{is_ready, installing, installed_by, install_replica, same_view, go_on, is_of_group, install_by, told_install, is_other_offer, install_told, installs};
ghost use Rattle.node_replica.specs.Begun.{viewed};
ghost use Rattle.node_state.specs.Broken.{IsPartly};
ghost use Rattle.vote_book.specs.declared.entry.LogEntry.TheVariants as entries;
ghost use Rattle.node_rules.specs.declared.node.Fired.TheVariants as fires;

use crate::views::{number_begun, tell_view};
use delivery::replica::KeptReplica;
use node_rules::node::{Fired, OwnSnapshot, Target};
use node_state::find::{first_start, greatest_regency, start_at};
use node_state::shown::hold_state_ask;
use node_state::state::NodeState;
use node_state::summary::{Summary, summarize};
use smart_base::duplicate::Duplicate;
use smart_base::name::MemberId;
use smart_base::number::{Place, ViewNo};
use smart_base::sequence::{Bytes, Sequence};
use smart_base::view::View;
use smart_service::replica::Replica;
use smart_service::service::Service;
use state_transfer::choice::Plan;
use state_transfer::fetch::{Fetch, FinishError};
use std::alloc::{AllocError, Global};
use std::mem::{self, drop};
use transfer_form::transfer::StateOffer;
use vote_book::entry::{Installation, LogEntry};

/// Whether all parts of a plan are there, no batch waits, and its place is past the node's.
fn is_ready<S: Service>(node: &NodeState<S>, fetch: &Fetch) -> bool
    ensures { result ≡ is_ready node.now fetch.now }
{
    fetch.are_all_there() && node.waiting.is_none() && node.place() < fetch.plan.place
}

/// Whether a plan is to be installed.
#[tactic(auto, unfolding(node_rules::specs::Transfers::installing))]
fn is_installing<S: Service>(node: &NodeState<S>) -> bool
    ensures { result ≡ is_some (installing node.now) }
{
    match &node.fetch {
        None => false,
        Some(fetch) => is_ready(node, fetch),
    }
}

/// The installation of a plan's replica. Error: want of memory.
fn installation_by(alloc: Global, plan: &Plan) -> Result<Installation, AllocError>
    ensures entry { IfOk result (λ installation. entries.Installed installation ≡ installed_by plan.now) }
    ensures place { IfOk result (λ installation. installation.place ≡ plan.now.place) }
{
    Ok(Installation {
        place: plan.place,
        digest: plan.digest,
        view: plan.view,
        marks: plan.marks.duplicate(alloc)?,
    })
}

/// Records an installation, and lets a replica of the view in force take the place of the node's. Error:
/// want of memory.
fn take_over_here<S: Service>(
    node: &mut NodeState<S>,
    replica: Replica<S>,
    installation: Installation,
) -> Result<(), AllocError>
    requires waits { is_none node.old.waiting ≡ true }
    requires place { installation.place ≡ replica.place }
    requires past { node.old.replica.place < replica.place }
    ensures node { OnOk result (node.new ≡ record (recording node.old (entries.Installed installation)) { replica = replica; pool = settled replica.table node.old.pool }) }
    ensures err { OnErr result (node.new.entries ≡ node.old.entries) }
{
    let alloc = node.alloc;
    let view = replica.views.present();
    let place = replica.place;
    let number = view.number();
    let regency = greatest_regency(number, node.book.pushed());
    let start = start_at(&node.book, view, regency);
    let votes = node.book.votes_at(number, place.get() + 1, regency);
    let synced = first_start(&node.book, number, regency).is_some();
    let own = view.duplicate(alloc)?;
    let other = view.duplicate(alloc)?;
    node.book.push(LogEntry::Installed(installation))?;
    node.instance.taken_to(own, place, regency, start, votes);
    node.synchronizer.taken_to(other, regency, synced);
    node.replica = KeptReplica::new(replica);
    node.pool.settle(&node.replica.replica().table);
    Ok(())
}

/// Records an installation, and lets a replica of another view take the place of the node's. What was kept
/// is of views that are over, and is let go. Error: want of memory.
#[tactic(auto, using(crate::proofs::Installing::last_anew))]
fn take_over_anew<S: Service>(
    node: &mut NodeState<S>,
    replica: Replica<S>,
    installation: Installation,
) -> Result<(), AllocError>
    requires waits { is_none node.old.waiting ≡ true }
    requires place { installation.place ≡ replica.place }
    requires past { node.old.replica.place < replica.place }
    ensures node { OnOk result (node.new ≡ entered false (record (recording node.old (entries.Installed installation)) { replica = replica; pool = settled replica.table node.old.pool })) }
    ensures err { OnErr result (node.new.entries ≡ node.old.entries) }
{
    let alloc = node.alloc;
    let view = replica.views.present();
    let place = replica.place;
    let own = view.duplicate(alloc)?;
    let other = view.duplicate(alloc)?;
    node.book.push(LogEntry::Installed(installation))?;
    let id = node.keys.member();
    let Summary {
        instance,
        synchronizer,
    } = summarize(alloc, id, own, other, place, &node.book);
    node.instance = instance;
    node.synchronizer = synchronizer;
    node.proposed = Vec::new(alloc);
    node.replica = KeptReplica::new(replica);
    node.pool.settle(&node.replica.replica().table);
    Ok(())
}

/// Records an installation, and lets the replica take the place of the node's, which enters its view.
/// Error: want of memory.
#[tactic(auto, using(crate::proofs::Installing::entered_here))]
fn take_over<S: Service>(
    node: &mut NodeState<S>,
    replica: Replica<S>,
    installation: Installation,
) -> Result<(), AllocError>
    requires waits { is_none node.old.waiting ≡ true }
    requires place { installation.place ≡ replica.place }
    requires past { node.old.replica.place < replica.place }
    ensures node { OnOk result (node.new ≡ enters node.old (record (recording node.old (entries.Installed installation)) { replica = replica; pool = settled replica.table node.old.pool })) }
    ensures err { OnErr result (node.new.entries ≡ node.old.entries) }
{
    if node.view().number() == replica.views.present().number() {
        take_over_here(node, replica, installation)
    } else {
        take_over_anew(node, replica, installation)
    }
}

/// What an installation does: it is recorded, the replica takes the place of the node's, the snapshot is
/// an own one, and all members are asked for more. Error: want of memory.
#[tactic(auto, unfolding(node_rules::specs::Transfers::install_replica))]
fn install_replica<S: Service>(
    node: &mut NodeState<S>,
    fetch: &Fetch,
    snapshot: Bytes,
    replica: Replica<S>,
) -> Result<(), AllocError>
    requires waits { is_none node.old.waiting ≡ true }
    requires place { replica.place ≡ fetch.now.plan.place }
    requires past { node.old.replica.place < replica.place }
    requires joined { snapshot ≡ joined_of fetch.now }
    requires fetch { node.old.fetch ≡ None }
    ensures node { OnOk result (node.new ≡ install_replica node.old fetch.now replica) }
    ensures err { OnErr result (IsPartly node.old.entries node.new.entries (node.old.entries ++ installed_by fetch.now.plan ∷ [])) }
{
    let installation = installation_by(node.alloc, &fetch.plan)?;
    take_over(node, replica, installation)?;
    let needs = node.made();
    node.taken.push(OwnSnapshot {
        place: fetch.plan.place,
        snapshot,
        needs,
    })?;
    hold_state_ask(node, Target::View, Place::zero())
}

/// Whether members are the same.
fn same_members(a: &[MemberId], b: &[MemberId]) -> bool
    ensures { result ≡ same_bytes a.now b.now }
{
    if a.len() != b.len() {
        return false;
    }
    for (i, x) in a.iter().enumerate() {
        if *x != b[i] {
            return false;
        }
    }
    true
}

fn same_view(a: &View, b: &View) -> bool
    ensures { result ≡ same_view a.now b.now }
{
    a.number() == b.number()
        && a.start() == b.start()
        && a.f() == b.f()
        && same_members(a.members(), b.members())
}

/// Whether a view is valid and starts past a place.
fn starts_past(place: u64, view: &View) -> bool
    ensures { result ≡ (is_view view.now && nat_lt place view.now.start) }
{
    // That the view is valid is known with its members.
    let _members = view.members();
    place < view.start()
}

fn all_start_past(place: u64, views: &[View]) -> bool
    ensures { result ≡ list_all (λ v. is_view v && nat_lt place v.start) views.now }
{
    views.iter().all(|view| starts_past(place, view))
}

/// Whether views go on from those that are known: they begin with these, and each further one starts past
/// a place.
#[tactic(auto, using(crate::proofs::Installing::goes_short, crate::proofs::Installing::goes_on, crate::proofs::Installing::goes_not, crate::proofs::Installing::goes_end))]
fn go_on(place: u64, known: &[View], views: &[View]) -> bool
    ensures { result ≡ go_on place known.now views.now }
{
    if views.len() < known.len() {
        return false;
    }
    for (i, view) in known.iter().enumerate() {
        if !same_view(view, &views[i]) {
            return false;
        }
    }
    all_start_past(place, &views[known.len()..])
}

/// Whether a replica's views go on from those that the node knows.
fn is_of_group<S: Service>(node: &NodeState<S>, replica: &Replica<S>) -> bool
    ensures { result ≡ is_of_group node.now replica.now }
{
    go_on(
        node.place().get() + 1,
        node.replica.replica().views.as_slice(),
        replica.views.as_slice(),
    )
}

/// Whether an offer is not the one that a plan follows.
fn is_other(plan: &Plan, offer: &StateOffer) -> bool
    ensures { result ≡ is_other_offer plan.now offer.now }
{
    !(offer.member == plan.seeder && offer.place == plan.place)
}

fn keep_others(offers: &mut Vec<StateOffer>, plan: &Plan)
    ensures { offers.new.items ≡ filter (is_other_offer plan.now) offers.old.items }
{
    offers.retain(|offer| is_other(plan, offer));
}

/// Offers without the one that a plan follows.
fn others(offers: Sequence<StateOffer>, plan: &Plan) -> Sequence<StateOffer>
    ensures { result ≡ filter (is_other_offer plan.now) offers }
{
    let mut kept = offers.into_vec();
    keep_others(&mut kept, plan);
    Sequence::from_vec(kept)
}

/// Drops the offer that a plan follows.
fn forget_offer<S: Service>(node: &mut NodeState<S>, plan: &Plan)
    ensures { node.new ≡ record node.old { offers = filter (is_other_offer plan.now) node.old.offers } }
{
    let offers = mem::replace(&mut node.offers, Sequence::new(node.alloc));
    node.offers = others(offers, plan);
}

/// Drops the offer that a plan follows, and tells that. Error: want of memory.
fn refuse<S: Service>(
    node: &mut NodeState<S>,
    plan: &Plan,
    fired: &mut Sequence<Fired>,
) -> Result<(), AllocError>
    ensures node { node.new ≡ record node.old { offers = filter (is_other_offer plan.now) node.old.offers } }
    ensures fired { OnOk result (fired.new ≡ fired.old ++ fires.Spoiled ∷ []) }
{
    forget_offer(node, plan);
    fired.push(Fired::Spoiled)
}

/// Tells an installation, and the view that it began, if it began one. Error: want of memory.
fn tell_installed(
    place: Place,
    begun: Option<ViewNo>,
    fired: &mut Sequence<Fired>,
) -> Result<(), AllocError>
    ensures { OnOk result (fired.new ≡ fired.old ++ fires.Installed place ∷ viewed begun) }
{
    fired.push(Fired::Installed(place))?;
    tell_view(begun, fired)?;
    Ok(())
}

/// Installs what the parts of a plan make, or drops the plan and its offer. Error: want of memory.
fn finish<S: Service>(
    node: &mut NodeState<S>,
    fetch: &Fetch,
    fired: &mut Sequence<Fired>,
) -> Result<(), AllocError>
    requires ready { is_ready node.old fetch.now ≡ true }
    requires fetch { node.old.fetch ≡ None }
    ensures node { OnOk result (node.new ≡ install_by node.old fetch.now (finished S.meaning fetch.now)) }
    ensures fired { OnOk result (fired.new ≡ fired.old ++ told_install node.old fetch.now (finished S.meaning fetch.now)) }
    ensures err { OnErr result (IsPartly node.old.entries node.new.entries (install_by node.old fetch.now (finished S.meaning fetch.now)).entries) }
{
    let joined = fetch.join(node.alloc)?;
    match fetch.finish::<S>(node.alloc, joined.as_slice()) {
        Ok(replica) => {
            if !is_of_group(node, &replica) {
                drop(replica);
                return refuse(node, &fetch.plan, fired);
            }
            let begun = number_begun(node.replica.replica(), &replica);
            install_replica(node, fetch, joined, replica)?;
            tell_installed(fetch.plan.place, begun, fired)?;
            Ok(())
        }
        Err(FinishError::Spoiled(_)) => refuse(node, &fetch.plan, fired),
        Err(FinishError::NoMemory) => Err(AllocError),
    }
}

/// The rule that installs: if all parts of the plan are there, no batch waits, and its place is past the
/// node's, the replica that enough members certify takes the place of the node's (collaborative state
/// transfer: Dura-SMaRt, USENIX ATC 2013). Error: want of memory.
#[tactic(auto, using(crate::proofs::Installing::installs_none, crate::proofs::Installing::told_none, crate::proofs::Installing::none_due))]
pub fn installs<S: Service>(
    node: &mut NodeState<S>,
    fired: &mut Sequence<Fired>,
) -> Result<(), AllocError>
    ensures node { OnOk result (node.new ≡ installs S.meaning node.old) }
    ensures fired { OnOk result (fired.new ≡ fired.old ++ install_told S.meaning node.old (installing node.old)) }
    ensures err { OnErr result (IsPartly node.old.entries node.new.entries (installs S.meaning node.old).entries) }
{
    if !is_installing(node) {
        return Ok(());
    }
    let Some(fetch) = node.fetch.take() else {
        return Ok(());
    };
    finish(node, &fetch, fired)?;
    Ok(())
}
