//! A member's host, and what it tells of its node's steps.
ghost use Rattle.std.specs.Prelude.{◌≡◌, ◌+◌, ◌^◌, ◌<◌, ◌++◌, ◌==◌, ◌&&◌, ◌≤◌, [], true, not, IfOk, OnOk, length, map, drop, is_some, nat_lt, Some, None, if◌then◌else◌};
ghost use Rattle.std.specs.List.{flat_map};
ghost use Rattle.node_rules.specs.Nodes.{next_place, view_of};
ghost use Rattle.node_rules.specs.Kept.{core_step};
ghost use Rattle.node_rules.specs.Transfers.{completed_by};
ghost use Rattle.node_rules.specs.Marks.{wanted};
ghost use Rattle.node_rules.specs.Steps.{leaving, released, opened, outset};
ghost use Rattle.store_laws.specs.States.{is_due, given};
ghost use Rattle.store_laws.specs.Stops.{is_installed};
ghost use Rattle.store_plan.specs.Fit.{AreEntries};
ghost use Rattle.node_rules.specs.Deliveries.{delivery_in, installed_in, segment_with, segment_after};
ghost use Rattle.world_rules.specs.Worlds.{core_course, host_of_node, spelled_behind, disk_called, snapshot_in, told_drop, told_fired, chosen_with, asking_for, place_of_own, segment_of, tail_due, host_after, host_index, hosts_below, shown_host};
ghost use Rattle.world_rules.specs.Premises.{is_among};
ghost use Rattle.world_hosts.specs.Hearing.{firmness, is_idle, with_segment};
ghost use Rattle.world_hosts.specs.Standing.{stands};

use member_store::store::MemberStore;
use node_core::node::NodeCore;
use node_rules::node::{BookTail, Delivery, Fired, Held, Why};
use smart_base::name::MemberId;
use smart_base::number::Place;
use smart_base::sequence::{Bytes, Sequence};
use smart_base::view::View;
use smart_keys::ring::Ring;
use smart_service::service::Service;
use smart_statements::entry::NodeEvent;
use std::alloc::{AllocError, Global};
use std::marker::Model;
use std::mem::drop;
use store_laws::job::Tail;
use vote_book::entry::LogEntry;
use world_ledger::chosen::Chosen;
use world_rules::line::OutLine;

/// A member's host: its node, and the store of what the node writes, which runs if the node does. It
/// has the place of the checkpoint to which the store switches, or last did in this life. It has the
/// place at which this life began or last took over a replica, the batches that steps delivered since,
/// and those that earlier steps delivered.
pub struct Host<S> {
    pub(crate) node: NodeCore<S>,
    pub(crate) store: MemberStore,
    pub(crate) switching: Place,
    pub(crate) resumed: Place,
    pub(crate) delivered: Vec<Delivery>,
    pub(crate) earlier: Vec<Delivery>,
}

impl<S> Model for Host<S> {
    ghost use Rattle.std.specs.Prelude.{[]};
    ghost use Rattle.world_rules.specs.Worlds.{Host};

    ghost Value = { Host S };

    ghost view = { λ h. record {
      node = h.node.node;
      up = h.store.runs;
      store = h.store.state;
      switching = h.switching;
      life = record { diary = []; aside = [] };
      resumed = h.resumed;
      delivered = h.delivered.items;
      earlier = h.earlier.items;
    } };
}

impl<S: Drop> Drop for Host<S> {
    fn drop(self) {
        let Host {
            node,
            store,
            switching: _switching,
            resumed: _resumed,
            delivered,
            earlier,
        } = self;
        drop(node);
        drop(store);
        drop(delivered);
        drop(earlier);
    }
}

/// What a step of a node tells: the reason for which an arrival was dropped, or the rules that a
/// transcript names.
fn tell_step(
    told: &mut Vec<OutLine>,
    id: MemberId,
    dropped: Option<Why>,
    fired: &[Fired],
) -> Result<(), AllocError>
    ensures { OnOk result (told.new.items ≡ told.old.items ++ (told_drop id dropped ++ flat_map (told_fired id) fired.now)) }
{
    if let Some(why) = dropped {
        told.push(OutLine::Dropped { member: id, why })?;
    }
    tell_fired(told, id, fired)?;
    Ok(())
}

fn tell_rule(told: &mut Vec<OutLine>, id: MemberId, rule: &Fired) -> Result<(), AllocError>
    ensures { OnOk result (told.new.items ≡ told.old.items ++ told_fired id rule.now) }
{
    match rule {
        Fired::Installed(place) => told.push(OutLine::Installed {
            member: id,
            place: *place,
        })?,
        Fired::Delivered(delivery) => {
            let line = OutLine::Delivered {
                member: id,
                place: delivery.place,
                executed: delivery.executed,
            };
            told.push(line)?;
        }
        Fired::Viewed(view) => told.push(OutLine::View {
            member: id,
            view: *view,
        })?,
        Fired::Adopted(start) => {
            let line = OutLine::Synced {
                member: id,
                view: start.view,
                regency: start.regency,
                base: start.base,
                bound: start.bound.is_some(),
            };
            told.push(line)?;
        }
        Fired::Promised(promise) => told.push(OutLine::Promised {
            member: id,
            view: promise.view,
            regency: promise.regency,
        })?,
        Fired::Decided(place) => told.push(OutLine::Decided {
            member: id,
            place: *place,
        })?,
        Fired::Spoiled
        | Fired::Marked(_)
        | Fired::Joined
        | Fired::Led
        | Fired::Proposed
        | Fired::Wrote
        | Fired::Accepted
        | Fired::Timed
        | Fired::Answered => {}
    }
    Ok(())
}

fn tell_fired(told: &mut Vec<OutLine>, id: MemberId, fired: &[Fired]) -> Result<(), AllocError>
    ensures { OnOk result (told.new.items ≡ told.old.items ++ flat_map (told_fired id) fired.now) }
{
    for rule in fired {
        tell_rule(told, id, rule)?;
    }
    Ok(())
}

/// Ends a segment of deliveries at a place.
pub(crate) fn end_segment<S: Service>(host: &mut Host<S>, place: Place) -> Result<(), AllocError>
    ensures { OnOk result (host.new ≡ with_segment host.old (segment_with (Some place) [] (segment_of host.old))) }
{
    host.earlier.append(&mut host.delivered)?;
    host.resumed = place;
    Ok(())
}

/// Keeps the batch that a rule has delivered, or the snapshot that it has marked. A replica that was
/// taken over ends a segment.
fn keep_rule<S: Service>(
    host: &mut Host<S>,
    marked: &mut Vec<Bytes>,
    rule: Fired,
) -> Result<(), AllocError>
    ensures host { OnOk result (host.new ≡ with_segment host.old (segment_with (installed_in rule) (delivery_in rule) (segment_of host.old))) }
    ensures marked { OnOk result (marked.new.items ≡ marked.old.items ++ snapshot_in rule) }
{
    match rule {
        Fired::Installed(place) => {
            end_segment(host, place)?;
        }
        Fired::Delivered(delivery) => {
            host.delivered.push(delivery)?;
        }
        Fired::Marked(snapshot) => {
            marked.push(snapshot)?;
        }
        Fired::Adopted(start) => drop(start),
        Fired::Promised(promise) => drop(promise),
        Fired::Spoiled
        | Fired::Viewed(_)
        | Fired::Decided(_)
        | Fired::Joined
        | Fired::Led
        | Fired::Proposed
        | Fired::Wrote
        | Fired::Accepted
        | Fired::Timed
        | Fired::Answered => {}
    }
    Ok(())
}

/// Keeps the batches that rules have delivered, and the snapshots that they have marked.
fn keep_fired<S: Service>(
    host: &mut Host<S>,
    marked: &mut Vec<Bytes>,
    fired: Sequence<Fired>,
) -> Result<(), AllocError>
    ensures host { OnOk result (host.new ≡ with_segment host.old (segment_after (segment_of host.old) fired)) }
    ensures marked { OnOk result (marked.new.items ≡ marked.old.items ++ flat_map snapshot_in fired) }
{
    for rule in fired.into_vec() {
        keep_rule(host, marked, rule)?;
    }
    Ok(())
}

/// Whether no rule fired.
fn is_idle(fired: &[Fired]) -> bool
    ensures { result ≡ is_idle fired.now }
{
    match fired {
        [] => true,
        [_, ..] => false,
    }
}

impl<S: Service> Host<S> {
    /// The host of a new node, over devices that hold nothing. `view` is the group's first view. `period`
    /// is the number of places in which each member takes one checkpoint. Error: want of memory.
    pub fn begin(
        alloc: Global,
        id: MemberId,
        view: View,
        period: u32,
        ring: Ring,
    ) -> Result<Self, AllocError>
        ensures { IfOk result (λ h. h ≡ host_of_node (opened (outset S.meaning ring id view period))) }
    {
        let node: NodeCore<S> = NodeCore::begin(alloc, id, view, period, ring)?;
        let mut store = match MemberStore::empty(alloc) {
            Ok(store) => store,
            Err(error) => {
                drop(node);
                return Err(error);
            }
        };
        if let Err(error) = store.write_down(node.book()) {
            drop(store);
            drop(node);
            return Err(error);
        }
        Ok(Host {
            node,
            store,
            switching: Place::new(0),
            resumed: Place::new(0),
            delivered: Vec::new(alloc),
            earlier: Vec::new(alloc),
        })
    }

    /// The member whose host this is.
    pub fn id(&self) -> MemberId
        ensures { result ≡ self.now.node.id }
    {
        self.node.id()
    }

    /// The view that its node is in.
    pub fn view(&self) -> &View
        ensures { result.now ≡ view_of self.now.node }
    {
        self.node.view()
    }

    /// The book of its node.
    pub fn book(&self) -> &[LogEntry]
        ensures { result.now ≡ self.now.node.entries }
    {
        self.node.book()
    }

    /// Whether its node runs.
    pub fn is_up(&self) -> bool
        ensures { result ≡ self.now.up }
    {
        self.store.runs()
    }

    /// The batches that steps delivered since this life began or took over a replica.
    pub fn delivered(&self) -> &[Delivery]
        ensures { result.now ≡ self.now.delivered }
    {
        self.delivered.as_slice()
    }

    /// The batches that steps delivered before.
    pub fn earlier(&self) -> &[Delivery]
        ensures { result.now ≡ self.now.earlier }
    {
        self.earlier.as_slice()
    }

    /// Whether its node runs, and its store has a device call to make.
    pub fn has_call(&self) -> bool
        ensures { result ≡ (self.now.up && is_due is_installed self.now.store) }
    {
        self.store.is_due()
    }

    /// Whether a batch is decided and not yet delivered.
    pub fn waits(&self) -> bool
        ensures { result ≡ is_some self.now.node.waiting }
    {
        self.node.waits()
    }

    /// What its node has to hear: the number of firm entries of its life, if they are more than it
    /// knows.
    fn firmness(&self) -> Option<NodeEvent>
        requires { self.now.up ≡ true }
        ensures { result ≡ firmness self.now }
    {
        let firm = self.store.firm();
        if self.node.firm() < firm {
            return Some(NodeEvent::Firm(firm.saturating_sub(self.node.restored())));
        }
        None
    }

    /// The texts that an event completes at its node: one, or none. Error: want of memory.
    pub fn completed(&mut self, alloc: Global, event: &NodeEvent) -> Result<Vec<Bytes>, AllocError>
        ensures texts { IfOk result (λ texts. texts.items ≡ completed_by self.old.node event.now) }
        ensures same { self.new ≡ self.old }
    {
        let mut texts = Vec::new(alloc);
        if let Some(text) = self.node.completed(event)? {
            texts.push(text)?;
        }
        Ok(texts)
    }

    /// The line of the node's place, view and regency, or the line that its member has crashed.
    pub fn shown(&self) -> OutLine
        ensures { result ≡ stands self.now }
    {
        if !self.is_up() {
            return OutLine::Down {
                member: self.node.id(),
            };
        }
        OutLine::Stands {
            member: self.node.id(),
            place: self.node.place(),
            view: self.node.view().number(),
            regency: self.node.regency(),
        }
    }
}

/// The tail that the store of a running host writes at its next device call, if that call writes one.
/// Error: want of memory.
fn tail_due<S: Service>(host: &Host<S>) -> Result<Tail, AllocError>
    requires { host.now.up ≡ true }
    ensures is { IfOk result (λ tail. tail ≡ tail_due host.now) }
    ensures fit { IfOk result (λ tail. AreEntries tail.entries) }
{
    if !host.store.wants_tail() {
        return Ok(host.store.no_tail());
    }
    let BookTail { made, entries } = host.node.tail(host.switching)?;
    Ok(Tail { made, entries })
}

/// Notes to which checkpoint the store of a running host switches, if a switch waited and has begun.
fn note_switch<S: Service>(host: &mut Host<S>, waited: bool)
    requires { host.old.up ≡ true }
    ensures { host.new ≡ record host.old { switching = if waited && not (is_some host.old.store.asked) then place_of_own (wanted host.old.node) else host.old.switching } }
{
    if waited && !host.store.asks() {
        host.switching = host.node.place_wanted();
    }
}

/// Makes the next device call of a running host's store, if there is one, and gives what its node has
/// to hear then. Error: want of memory.
#[tactic(auto, unfolding(world_rules::specs::Worlds::disk_called))]
pub fn call_disk<S: Service>(host: &mut Host<S>) -> Result<Option<NodeEvent>, AllocError>
    requires { host.old.up ≡ true }
    ensures host { OnOk result (host.new ≡ disk_called (core_course S.meaning) host.old) }
    ensures event { IfOk result (λ event. event ≡ firmness (disk_called (core_course S.meaning) host.old)) }
{
    let waited = host.store.asks();
    let tail = tail_due(host)?;
    host.store.call(&tail)?;
    note_switch(host, waited);
    Ok(host.firmness())
}

/// The entries after the first ones.
pub(crate) fn behind(entries: &[LogEntry], count: u64) -> &[LogEntry]
    ensures { result.now ≡ drop count entries.now }
{
    let count = count as usize;
    if count >= entries.len() {
        return &[];
    }
    let (_, rest) = entries.split_at(count);
    rest
}

/// Whether a host is a member's.
fn is_host_of<S: Service>(host: &Host<S>, member: MemberId) -> bool
    ensures { result ≡ (host.now.node.id == member) }
{
    host.id() == member
}

/// The index of a member's host, if the member has one.
pub fn host_index<S: Service>(hosts: &[Host<S>], member: MemberId) -> Option<usize>
    ensures { result ≡ host_index hosts.now member }
{
    hosts.iter().position(|host| is_host_of(host, member))
}

/// A count, and one more if a host is of a member with a lower number.
fn count_below<S: Service>(count: usize, host: &Host<S>, member: MemberId) -> usize
    requires { count + 1 < 2 ^ 64 }
    ensures { result ≡ count + (if nat_lt host.now.node.id member then 1 else 0) }
{
    if host.id().get() < member.get() {
        count + 1
    } else {
        count
    }
}

/// How many hosts are of members with lower numbers.
pub fn hosts_below<S: Service>(hosts: &[Host<S>], member: MemberId) -> usize
    ensures count { result ≡ hosts_below hosts.now member }
    ensures within { result ≤ length hosts.now }
{
    let mut count = 0;
    for host in hosts {
        count = count_below(count, host, member);
    }
    count
}

/// Whether a list has a member.
pub fn is_among(members: &[MemberId], member: MemberId) -> bool
    ensures { result ≡ is_among members.now member }
{
    members.iter().any(|x| *x == member)
}

/// Tells a node's place, view and regency, or that its member has crashed, unless the member is
/// faulty.
fn show_host<S: Service>(
    told: &mut Vec<OutLine>,
    faulty: &[MemberId],
    host: &Host<S>,
) -> Result<(), AllocError>
    ensures { OnOk result (told.new.items ≡ told.old.items ++ shown_host faulty.now host.now) }
{
    if !is_among(faulty, host.id()) {
        told.push(host.shown())?;
    }
    Ok(())
}

/// Tells this of each node whose member is not faulty.
pub fn show_hosts<S: Service>(
    told: &mut Vec<OutLine>,
    faulty: &[MemberId],
    hosts: &[Host<S>],
) -> Result<(), AllocError>
    ensures { OnOk result (told.new.items ≡ told.old.items ++ flat_map (shown_host faulty.now) hosts.now) }
{
    for host in hosts {
        show_host(told, faulty, host)?;
    }
    Ok(())
}

/// What a step leaves.
#[derive(Drop)]
pub struct Left {
    /// The messages that leave.
    pub messages: Sequence<Held>,
    /// Whether no rule fired.
    pub idle: bool,
}

/// Asks the store of a running host to switch to the snapshot that its node wants, if there is one.
/// Error: want of memory.
fn ask_wanted<S: Service>(host: &mut Host<S>) -> Result<(), AllocError>
    requires { host.old.up ≡ true }
    ensures { OnOk result (host.new ≡ record host.old { store = asking_for (wanted host.old.node) host.old.store }) }
{
    if let Some(own) = host.node.wanted()? {
        host.store.ask(own.snapshot)?;
    }
    Ok(())
}

/// Asks the same, if the node took a snapshot since it had taken so many. Error: want of memory.
fn ask_switch<S: Service>(host: &mut Host<S>, taken: u64) -> Result<(), AllocError>
    requires { host.old.up ≡ true }
    ensures { OnOk result (host.new ≡ record host.old { store = asking_for (if nat_lt taken (length host.old.node.taken) then wanted host.old.node else None) host.old.store }) }
{
    if taken < host.node.taken() {
        ask_wanted(host)?;
    }
    Ok(())
}

/// Gives to the store of a running host what its node has written after so many entries. If the node
/// took a checkpoint since it had taken so many, the store is asked to switch to it. Error: want of
/// memory.
fn keep_step<S: Service>(host: &mut Host<S>, made: u64, taken: u64) -> Result<(), AllocError>
    requires { host.old.up ≡ true }
    ensures { OnOk result (host.new ≡ record host.old { store = asking_for (if nat_lt taken (length host.old.node.taken) then wanted host.old.node else None) (given (spelled_behind made host.old.node.entries) host.old.store) }) }
{
    host.store.write_down(behind(host.node.book(), made))?;
    ask_switch(host, taken)?;
    Ok(())
}

/// Takes an event at a running host's node, and gives the messages that leave. What the step tells,
/// the batch that it has chosen and the snapshots that it has marked are added. Error: want of memory.
/// A node that want of memory broke takes no event, and answers want of memory again.
pub fn step_host<S: Service>(
    alloc: Global,
    host: &mut Host<S>,
    chosen: &mut Chosen,
    told: &mut Vec<OutLine>,
    marked: &mut Vec<Bytes>,
    event: &NodeEvent,
) -> Result<Left, AllocError>
    requires { host.old.up ≡ true }
    ensures host { OnOk result (host.new ≡ host_after (core_course S.meaning) host.old (core_step S.meaning host.old.node event.now)) }
    ensures chosen { OnOk result (let after = (core_step S.meaning host.old.node event.now).node in chosen.new ≡ record chosen.old { list = chosen_with chosen.old.list (next_place after) after.waiting }) }
    ensures told { OnOk result (let o = core_step S.meaning host.old.node event.now in told.new.items ≡ told.old.items ++ (told_drop host.old.node.id o.dropped ++ flat_map (told_fired host.old.node.id) o.fired)) }
    ensures marked { OnOk result (marked.new.items ≡ marked.old.items ++ flat_map snapshot_in (core_step S.meaning host.old.node event.now).fired) }
    ensures left { IfOk result (λ left. let after = (core_step S.meaning host.old.node event.now).node in left.messages ≡ leaving after.firm after.held) }
    ensures idle { IfOk result (λ left. left.idle ≡ is_idle (core_step S.meaning host.old.node event.now).fired) }
{
    if host.node.broken() {
        return Err(AllocError);
    }
    let id = host.node.id();
    let made = host.node.made();
    let taken = host.node.taken();
    let outcome = host.node.step(event)?;
    keep_step(host, made, taken)?;
    tell_step(told, id, outcome.dropped, outcome.fired.as_slice())?;
    chosen.choose(alloc, host.node.place().get() + 1, host.node.waiting())?;
    let idle = is_idle(outcome.fired.as_slice());
    keep_fired(host, marked, outcome.fired)?;
    let messages = host.node.release_all()?;
    Ok(Left { messages, idle })
}
