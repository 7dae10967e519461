//! The rules that propose, write and accept. Each has three functions: what is due, what the rule
//! does with it, and both together.
ghost use Rattle.std.specs.Prelude.{◌≡◌, ◌++◌, true, IfOk, OnOk, IsSome, Some, option_map, OnErr, ◌∷◌, []};
ghost use Rattle.std.specs.Option.{option_copied};
ghost use Rattle.smart_statements.specs.Kinds.{proposals};
ghost use Rattle.vote_book.specs.declared.entry.Accept.{Accept};
ghost use Rattle.node_rules.specs.Rules.{batch_under, proposing, propose_batch, proposes, ballot, writing, writes, accepting, accepts, fired_if};
ghost use Rattle.node_rules.specs.Nodes.{next_place, open_slot, is_free, holding, recording, signs, view_of, bound_at, start_of};
ghost use Rattle.node_rules.specs.Votes.{accepted_under, certificate_votes};
ghost use Rattle.node_rules.specs.Steps.{vote_rows, pass};
ghost use Rattle.consensus_instance.specs.Nodes.{due_at};
ghost use Rattle.node_state.specs.Broken.{IsPartly};
ghost use Rattle.smart_statements.specs.declared.statement.VoteKind.TheVariants as kinds;
ghost use Rattle.vote_book.specs.declared.entry.LogEntry.TheVariants as entries;
ghost use Rattle.node_rules.specs.declared.node.Target.TheVariants as targets;
ghost use Rattle.node_rules.specs.declared.node.Fired.TheVariants as fires;

use consensus_instance::rule::Rule;
use node_restart::batch::digest_of;
use node_rules::node::{Cause, Fired, Target};
use node_state::find::{accept_under, has_proposed};
use node_state::state::NodeState;
use smart_base::bytes::Digest32;
use smart_base::duplicate::Duplicate;
use smart_base::number::Place;
use smart_base::sequence::Sequence;
use smart_messages::message::{Message, Proposed};
use smart_service::service::Service;
use smart_statements::batch::Batch;
use smart_statements::signed::Signed;
use smart_statements::statement::{Ballot, Proposal, VoteKind};
use std::alloc::AllocError;
use vote_book::entry::{Accept, LogEntry, Write};

/// One pass of the rules that vote: proposes, writes and accepts, each once. Error: want of memory.
#[tactic(auto, unfolding(node_rules::specs::Steps::pass, node_rules::specs::Steps::vote_rows))]
pub fn votes<S: Service>(
    node: &mut NodeState<S>,
    cause: &Cause,
    fired: &mut Sequence<Fired>,
) -> Result<(), AllocError>
    ensures pass { OnOk result (pass vote_rows node.old cause.now fired.old ≡ (node.new, fired.new)) }
    ensures err { OnErr result (IsPartly node.old.entries node.new.entries (pass vote_rows node.old cause.now fired.old).0.entries) }
{
    proposes(node, fired)?;
    writes(node, fired)?;
    accepts(node, fired)?;
    Ok(())
}

/// The first batch of a digest that the node accepted at the next place, in any regency.
fn accepted_under<'a, S: Service>(node: &'a NodeState<S>, digest: &Digest32) -> Option<&'a Accept>
    requires { is_free node.now ≡ true }
    ensures { option_map (λ (a : Accept). a.batch) (option_copied result) ≡ accepted_under (view_of node.now).number (next_place node.now) digest.now node.now.entries }
{
    let view = node.view().number();
    let place = node.place().next();
    accept_under(&node.book, view, place, digest)
}

/// The bound batch, by its digest: one that a report brought, or that the node accepted.
#[tactic(auto, unfolding(node_rules::specs::Rules::batch_under))]
fn bound_batch<'a, S: Service>(node: &'a NodeState<S>, digest: &Digest32) -> Option<&'a Batch>
    requires { is_free node.now ≡ true }
    ensures { option_copied result ≡ batch_under node.now (Some digest.now) }
{
    let reported = node.synchronizer().batch_of(digest);
    if reported.is_some() {
        return reported;
    }
    match accepted_under(node, digest) {
        None => None,
        Some(accept) => Some(&accept.batch),
    }
}

/// The digest that binds at a place, if there is one.
fn is_bound_to<S: Service>(node: &NodeState<S>, place: Place) -> Option<&Digest32>
    ensures { option_copied result ≡ bound_at place (start_of node.now) }
{
    node.instance.is_bound_to(place)
}

/// The batch to propose at the next place: the bound one, or one gathered from the pool. Error: want
/// of memory.
#[tactic(auto, unfolding(node_rules::specs::Rules::batch_under))]
fn next_batch<S: Service>(node: &NodeState<S>) -> Result<Option<Batch>, AllocError>
    requires { is_free node.now ≡ true }
    ensures { IfOk result (λ batch. batch ≡ batch_under node.now (bound_at (next_place node.now) (start_of node.now))) }
{
    let place = node.place().next();
    match is_bound_to(node, place) {
        None => node.pool.gather(place),
        Some(digest) => match bound_batch(node, digest) {
            None => Ok(None),
            Some(batch) => Ok(Some(batch.duplicate(node.alloc)?)),
        },
    }
}

/// The proposal that is due: the slot is open, the node leads, it has made none for this slot, and it
/// has a batch. Error: want of memory.
#[tactic(auto, unfolding(node_rules::specs::Rules::proposing))]
fn proposing<S: Service>(node: &NodeState<S>) -> Result<Option<Batch>, AllocError>
    ensures batch { IfOk result (λ batch. batch ≡ proposing node.now) }
    ensures free { IfOk result (λ batch. IsSome batch → is_free node.now ≡ true) }
{
    if !node.is_open() || node.view().leader(node.regency()) != node.id() {
        return Ok(None);
    }
    let slot = node.open_slot();
    if has_proposed(node.proposed.as_slice(), &slot) {
        return Ok(None);
    }
    next_batch(node)
}

/// The node's signed PROPOSE of a digest for the open slot. Error: want of memory.
fn proposal<S: Service>(
    node: &NodeState<S>,
    digest: Digest32,
) -> Result<Signed<Proposal>, AllocError>
    requires { is_free node.now ≡ true }
    ensures { IfOk result (λ head. head ≡ signs node.now proposals (record { slot = open_slot node.now; digest = digest })) }
{
    let slot = node.open_slot();
    let proposal = Proposal { slot, digest };
    Ok(node.keys.sealed(node.alloc, proposal)?)
}

#[tactic(auto, unfolding(node_rules::specs::Rules::propose_batch))]
fn propose_batch<S: Service>(node: &mut NodeState<S>, batch: Batch) -> Result<(), AllocError>
    requires { is_free node.old ≡ true }
    ensures node { OnOk result (node.new ≡ propose_batch node.old (Some batch)) }
    ensures err { OnErr result (node.new.entries ≡ node.old.entries) }
{
    let slot = node.open_slot();
    let digest = digest_of(node.alloc, &batch)?;
    let head = proposal(node, digest)?;
    node.proposed.push(slot)?;
    let message = Message::Propose(Proposed { head, batch });
    node.hold(Target::View, message)?;
    Ok(())
}

/// The rule that proposes: the leader sends PROPOSE with one batch for the open slot (Mod-SMaRt, EDCC
/// 2012). Error: want of memory.
#[tactic(auto, unfolding(node_rules::specs::Rules::proposes, node_rules::specs::Rules::propose_batch))]
fn proposes<S: Service>(
    node: &mut NodeState<S>,
    fired: &mut Sequence<Fired>,
) -> Result<(), AllocError>
    ensures node { OnOk result (node.new ≡ proposes node.old) }
    ensures fired { OnOk result (fired.new ≡ fired.old ++ fired_if fires.Proposed (proposing node.old)) }
    ensures err { OnErr result (node.new.entries ≡ node.old.entries) }
{
    match proposing(node)? {
        None => Ok(()),
        Some(batch) => {
            fired.push(Fired::Proposed)?;
            propose_batch(node, batch)?;
            Ok(())
        }
    }
}

/// The node's signed vote for a digest in the open slot. Error: want of memory.
fn ballot<S: Service>(
    node: &NodeState<S>,
    kind: VoteKind,
    digest: Digest32,
) -> Result<Message, AllocError>
    requires { is_free node.now ≡ true }
    ensures { IfOk result (λ vote. vote ≡ ballot node.now kind digest) }
{
    let slot = node.open_slot();
    let ballot = Ballot { kind, slot, digest };
    Ok(Message::Vote(node.keys.sealed(node.alloc, ballot)?))
}

/// The proposal for which a vote is due, if there is one.
fn due<S: Service>(node: &NodeState<S>, rule: Rule) -> Option<&Proposed>
    ensures proposal { option_copied result ≡ due_at rule node.now }
    ensures free { IsSome result → is_free node.now ≡ true }
{
    node.instance.due(rule)
}

/// Records a WRITE for a digest, and puts it into the outbox. Error: want of memory.
fn write_digest<S: Service>(node: &mut NodeState<S>, digest: Digest32) -> Result<(), AllocError>
    requires { is_free node.old ≡ true }
    ensures node { OnOk result (node.new ≡ holding (recording node.old (entries.Wrote (record { slot = open_slot node.old; digest = digest }))) targets.View (ballot node.old kinds.Write digest)) }
    ensures err { OnErr result (IsPartly node.old.entries node.new.entries (node.old.entries ++ entries.Wrote (record { slot = open_slot node.old; digest = digest }) ∷ [])) }
{
    let slot = node.open_slot();
    let vote = ballot(node, VoteKind::Write, digest)?;
    node.book.push(LogEntry::Wrote(Write { slot, digest }))?;
    node.instance.wrote();
    node.hold(Target::View, vote)?;
    Ok(())
}

/// The rule that writes: the node votes once in the open slot for the batch proposed there (WRITE of
/// Mod-SMaRt, EDCC 2012). The vote leaves after its entry is firm (this project's own rule). Error:
/// want of memory.
#[tactic(auto, unfolding(node_rules::specs::Rules::writes, node_rules::specs::Rules::write_batch))]
fn writes<S: Service>(
    node: &mut NodeState<S>,
    fired: &mut Sequence<Fired>,
) -> Result<(), AllocError>
    ensures node { OnOk result (node.new ≡ writes node.old) }
    ensures fired { OnOk result (fired.new ≡ fired.old ++ fired_if fires.Wrote (writing node.old)) }
    ensures err { OnErr result (IsPartly node.old.entries node.new.entries (writes node.old).entries) }
{
    match due(node, Rule::Write) {
        None => Ok(()),
        Some(proposed) => {
            let digest = proposed.head.statement().digest;
            fired.push(Fired::Wrote)?;
            write_digest(node, digest)?;
            Ok(())
        }
    }
}

/// Records an ACCEPT for a batch with its write certificate, and puts it into the outbox. Error: want
/// of memory.
fn accept_digest<S: Service>(
    node: &mut NodeState<S>,
    digest: Digest32,
    batch: Batch,
) -> Result<(), AllocError>
    requires { is_free node.old ≡ true }
    ensures node { OnOk result (node.new ≡ holding (recording node.old (entries.Accepted (record { slot = open_slot node.old; digest = digest; writes = certificate_votes node.old.arrivals (view_of node.old) kinds.Write (open_slot node.old) digest; batch = batch }))) targets.View (ballot node.old kinds.Accept digest)) }
    ensures err { OnErr result (IsPartly node.old.entries node.new.entries (node.old.entries ++ entries.Accepted (record { slot = open_slot node.old; digest = digest; writes = certificate_votes node.old.arrivals (view_of node.old) kinds.Write (open_slot node.old) digest; batch = batch }) ∷ [])) }
{
    let slot = node.open_slot();
    let vote = ballot(node, VoteKind::Accept, digest)?;
    let writes = node.certificate(VoteKind::Write, &slot, &digest)?;
    node.book.push(LogEntry::Accepted(Accept {
        slot,
        digest,
        writes,
        batch,
    }))?;
    node.instance.accepted();
    node.hold(Target::View, vote)?;
    Ok(())
}

/// The rule that accepts: the node accepts once in the open slot the batch that a quorum wrote for
/// (ACCEPT of Mod-SMaRt, EDCC 2012). The vote leaves after its entry is firm (this project's own
/// rule). Error: want of memory.
#[tactic(auto, unfolding(node_rules::specs::Rules::accepts, node_rules::specs::Rules::accept_batch))]
fn accepts<S: Service>(
    node: &mut NodeState<S>,
    fired: &mut Sequence<Fired>,
) -> Result<(), AllocError>
    ensures node { OnOk result (node.new ≡ accepts node.old) }
    ensures fired { OnOk result (fired.new ≡ fired.old ++ fired_if fires.Accepted (accepting node.old)) }
    ensures err { OnErr result (IsPartly node.old.entries node.new.entries (accepts node.old).entries) }
{
    match due(node, Rule::Accept) {
        None => Ok(()),
        Some(proposed) => {
            let digest = proposed.head.statement().digest;
            let batch = proposed.batch.duplicate(node.alloc)?;
            fired.push(Fired::Accepted)?;
            accept_digest(node, digest, batch)?;
            Ok(())
        }
    }
}
