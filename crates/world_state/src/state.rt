//! A world: its hosts and clients, and the messages that leave them.
ghost use Rattle.std.specs.Prelude.{◌≡◌, ◌<◌, ℕ, [], ◌∷◌, ◌++◌, IfOk, OnOk, Some, length, slice_get, map, if◌then◌else◌};
ghost use Rattle.smart_base.specs.Lists.{or_else};
ghost use Rattle.client_quorum.specs.Clients.{fresh};
ghost use Rattle.node_rules.specs.Nodes.{view_of};
ghost use Rattle.node_rules.specs.Steps.{opened};
ghost use Rattle.world_rules.specs.Secrets.{group_secret};
ghost use Rattle.world_rules.specs.Premises.{is_among};
ghost use Rattle.world_rules.specs.Worlds.{Host, telling, breaking, ending_few, posts, meets, is_gone, is_rogue, is_up, heard_by, sends, sends_all, host_of_node, hosts_from, outset_of, clients_from, asked_by, asked_in, begun, is_halted};
ghost use Rattle.world_rules.specs.Plays.{rested};

use crate::few::too_many_in;
use client_quorum::client::{Acceptance, Client};
use node_rules::node::{Held, Target};
use smart_base::duplicate::Duplicate;
use smart_base::limits::{CLIENTS, MESSAGES};
use smart_base::name::{ClientId, MemberId};
use smart_base::party::Party;
use smart_base::sequence::{Bytes, Sequence};
use smart_base::view::View;
use smart_keys::ring::Ring;
use smart_messages::message::Message;
use smart_service::service::Service;
use smart_statements::batch::Batch;
use std::alloc::{AllocError, Global};
use std::marker::Model;
use std::mem;
use world_hosts::host::{Host, is_among};
use world_ledger::chosen::Chosen;
use world_ledger::content::sent_line;
use world_ledger::ledger::Ledger;
use world_ledger::secret::GroupRing;
use world_rules::line::{Header, OutLine};
use world_rules::message::{Content, Ending, Origin, Premise, Sent};

/// The world: hosts and clients, and the list of all that was sent and met. It has the chosen list of
/// batches, who breaks the rules, and what the present script line tells.
pub struct WorldState<S> {
    pub alloc: Global,
    pub period: u32,
    pub ring: GroupRing,
    pub hosts: Vec<Host<S>>,
    pub clients: Vec<Client>,
    pub sent: Ledger,
    pub mark: u64,
    pub chosen: Chosen,
    pub accepted: Vec<Acceptance>,
    pub told: Vec<OutLine>,
    pub faulty: Vec<MemberId>,
    pub rogue: Vec<ClientId>,
    pub ending: Option<Ending>,
}

impl<S: Drop> Drop for WorldState<S> {
    fn drop(self) {
        let WorldState {
            alloc: _alloc,
            period: _period,
            ring: _ring,
            hosts: _hosts,
            clients: _clients,
            sent: _sent,
            mark: _mark,
            chosen: _chosen,
            accepted: _accepted,
            told: _told,
            faulty: _faulty,
            rogue: _rogue,
            ending: _ending,
        } = self;
    }
}

impl<S> Model for WorldState<S> {
    ghost use Rattle.world_rules.specs.Worlds.{World};

    ghost Value = { World S };

    ghost view = { λ w. record {
      view = w.chosen.first;
      period = w.period;
      hosts = w.hosts.items;
      clients = w.clients.items;
      sent = w.sent.sent;
      marked = w.sent.marked;
      mark = w.mark;
      chosen = w.chosen.list;
      accepted = w.accepted.items;
      told = w.told.items;
      faulty = w.faulty.items;
      rogue = w.rogue.items;
      ending = w.ending;
    } };
}

/// Lets a value go.
pub fn let_go<T: Drop>(_value: T) {}

/// Ends the play by a limit, if nothing has ended it.
fn or_limit(ending: Option<Ending>) -> Option<Ending>
    ensures { result ≡ or_else ending (Some Ending.Limit) }
{
    match ending {
        None => Some(Ending::Limit),
        Some(ending) => Some(ending),
    }
}

/// Ends the play by a premise that is broken, unless another one was broken before.
fn breaking(premise: Premise, ending: Option<Ending>) -> Option<Ending>
    ensures { result ≡ breaking premise ending }
{
    match ending {
        Some(Ending::Premise(first)) => Some(Ending::Premise(first)),
        Some(Ending::Limit) | None => Some(Ending::Premise(premise)),
    }
}

/// Ends the play by a collision, if a text clashes.
fn or_collision(clashes: bool, ending: Option<Ending>) -> Option<Ending>
    ensures { result ≡ (if clashes then breaking Premise.Collision ending else ending) }
{
    if clashes {
        return breaking(Premise::Collision, ending);
    }
    ending
}

/// Whether a list has a client.
fn has_client(clients: &[ClientId], client: ClientId) -> bool
    ensures { result ≡ is_among clients.now client }
{
    clients.iter().any(|x| *x == client)
}

/// The host of a new node of a member, in a view. Error: want of memory.
pub fn first_host<S: Service>(
    alloc: Global,
    view: &View,
    period: u32,
    ring: &Ring,
    id: MemberId,
) -> Result<Host<S>, AllocError>
    requires { ring.now ≡ group_secret }
    ensures { IfOk result (λ h. h ≡ host_of_node (opened (outset_of S.meaning view.now period id))) }
{
    let view = view.duplicate(alloc)?;
    let ring = ring.duplicate(alloc)?;
    Host::begin(alloc, id, view, period, ring)
}

fn first_hosts<S: Service>(
    alloc: Global,
    view: &View,
    period: u32,
    ring: &Ring,
) -> Result<Vec<Host<S>>, AllocError>
    requires { ring.now ≡ group_secret }
    ensures { IfOk result (λ hosts. hosts.items ≡ hosts_from S.meaning view.now period view.now.members) }
{
    let mut hosts: Vec<Host<S>> = Vec::new(alloc);
    for id in view.members() {
        hosts.push(first_host(alloc, view, period, ring, *id)?)?;
    }
    Ok(hosts)
}

/// A client that knows a first view. Error: want of memory.
fn first_client(alloc: Global, view: &View, id: ClientId) -> Result<Client, AllocError>
    ensures { IfOk result (λ client. client ≡ fresh view.now id) }
{
    Client::new(alloc, view.duplicate(alloc)?, id)
}

fn first_clients(alloc: Global, view: &View, count: u16) -> Result<Vec<Client>, AllocError>
    ensures { IfOk result (λ clients. clients.items ≡ clients_from view.now count 0) }
{
    let mut clients: Vec<Client> = Vec::new(alloc);
    for i in 0..count {
        clients.push(first_client(alloc, view, ClientId::new(i))?)?;
    }
    Ok(clients)
}

/// The members of a view, as parties. Error: want of memory.
pub fn members_of(alloc: Global, view: &View) -> Result<Sequence<Party>, AllocError>
    ensures { IfOk result (λ parties. parties ≡ map (λ (id : ℕ). Party.Member id) view.now.members) }
{
    let mut parties: Sequence<Party> = Sequence::new(alloc);
    for id in view.members() {
        parties.push(Party::Member(*id))?;
    }
    Ok(parties)
}

/// A list of one party. Error: want of memory.
fn one_party(alloc: Global, party: Party) -> Result<Sequence<Party>, AllocError>
    ensures { IfOk result (λ parties. parties ≡ party ∷ []) }
{
    let mut parties: Sequence<Party> = Sequence::new(alloc);
    parties.push(party)?;
    Ok(parties)
}

/// Adds the number of a client, if it has asked. Error: want of memory.
fn push_asked(asked: &mut Sequence<ClientId>, client: &Client) -> Result<(), AllocError>
    ensures { OnOk result (asked.new ≡ asked.old ++ asked_by client.now) }
{
    if client.last > 0 {
        asked.push(client.id)?;
    }
    Ok(())
}

/// The clients that have asked, by number. Error: want of memory.
fn asked_in(alloc: Global, clients: &[Client]) -> Result<Sequence<ClientId>, AllocError>
    ensures { IfOk result (λ asked. asked ≡ asked_in clients.now) }
{
    let mut asked: Sequence<ClientId> = Sequence::new(alloc);
    for client in clients {
        push_asked(&mut asked, client)?;
    }
    Ok(asked)
}

/// Clients, as parties. Error: want of memory.
fn parties_of(alloc: Global, clients: &[ClientId]) -> Result<Sequence<Party>, AllocError>
    ensures { IfOk result (λ parties. parties ≡ map (λ (id : ℕ). Party.Client id) clients.now) }
{
    let mut parties: Sequence<Party> = Sequence::new(alloc);
    for id in clients {
        parties.push(Party::Client(*id))?;
    }
    Ok(parties)
}

/// The parties that hear a message for a target: the members of its sender's view, one member, a
/// client, or all clients that have asked. Error: want of memory.
pub fn heard_by(
    alloc: Global,
    view: &View,
    clients: &[Client],
    target: Target,
) -> Result<Sequence<Party>, AllocError>
    ensures { IfOk result (λ parties. parties ≡ heard_by view.now (asked_in clients.now) target) }
{
    match target {
        Target::View => members_of(alloc, view),
        Target::Node(id) => one_party(alloc, Party::Member(id)),
        Target::Client(id) => one_party(alloc, Party::Client(id)),
        Target::Clients => parties_of(alloc, asked_in(alloc, clients)?.as_slice()),
    }
}

impl<S: Service> WorldState<S> {
    /// The world at the end of a header. Error: want of memory.
    pub fn begin(alloc: Global, header: &Header) -> Result<Self, AllocError>
        ensures { IfOk result (λ world. world ≡ begun S.meaning header.now) }
    {
        let view = header.view.duplicate(alloc)?;
        let period = header.period;
        let mut ring = GroupRing::new(alloc)?;
        ring.learn_members(view.members())?;
        Ok(WorldState {
            alloc,
            hosts: first_hosts(alloc, &view, period, ring.get())?,
            clients: first_clients(alloc, &view, CLIENTS)?,
            period,
            ring,
            sent: Ledger::new(alloc)?,
            mark: 0,
            chosen: Chosen::new(alloc, view)?,
            accepted: Vec::new(alloc),
            told: Vec::new(alloc),
            faulty: Vec::new(alloc),
            rogue: Vec::new(alloc),
            ending: None,
        })
    }

    /// Whether nothing more happens in the present line.
    pub fn is_halted(&self) -> bool
        ensures { result ≡ is_halted self.now }
    {
        self.ending.is_some()
    }

    /// Whether a member is faulty, so that its node is gone.
    pub fn is_gone(&self, member: MemberId) -> bool
        ensures { result ≡ is_gone self.now member }
    {
        is_among(self.faulty.as_slice(), member)
    }

    /// Whether a host's node runs.
    pub fn is_up(&self, host: &Host<S>) -> bool
        ensures { result ≡ is_up self.now host.now }
    {
        host.is_up() && !self.is_gone(host.id())
    }

    pub fn is_rogue(&self, client: ClientId) -> bool
        ensures { result ≡ is_rogue self.now client }
    {
        has_client(self.rogue.as_slice(), client)
    }

    // Messages that leave.

    pub fn tell(&mut self, line: OutLine) -> Result<(), AllocError>
        ensures { OnOk result (self.new ≡ telling self.old line) }
    {
        self.told.push(line)?;
        Ok(())
    }

    /// Sends a content, which gets the next number. Error: want of memory.
    #[tactic(auto, unfolding(world_rules::specs::Worlds::posts))]
    pub fn post(&mut self, sent: Sent) -> Result<(), AllocError>
        ensures { OnOk result (self.new ≡ posts self.old sent) }
    {
        match self.sent.collides(self.alloc, &sent.content) {
            Err(error) => {
                let_go(sent);
                return Err(error);
            }
            Ok(true) => {
                let_go(sent);
                self.ending = breaking(Premise::Collision, self.ending);
                return Ok(());
            }
            Ok(false) => {}
        }
        let count = self.sent.as_slice().len();
        if count >= MESSAGES {
            let_go(sent);
            self.ending = or_limit(self.ending);
            return Ok(());
        }
        let line = sent_line(count as u64 + 1, &sent.origin, &sent.content);
        if let Err(error) = self.tell(line) {
            let_go(sent);
            return Err(error);
        }
        self.sent.push(self.alloc, sent)
    }

    /// Meets a snapshot that a node marked. One that clashes with a text that was met ends the play.
    /// Error: want of memory.
    fn meet(&mut self, snapshot: Bytes) -> Result<(), AllocError>
        ensures { OnOk result (self.new ≡ meets self.old (snapshot ∷ [])) }
    {
        let clashes = self.sent.clashes(snapshot.as_slice());
        self.sent.meet(self.alloc, snapshot)?;
        self.ending = or_collision(clashes, self.ending);
        Ok(())
    }

    /// Meets the snapshots that a node marked, in order. Error: want of memory.
    pub fn meet_all(&mut self, snapshots: Vec<Bytes>) -> Result<(), AllocError>
        ensures { OnOk result (self.new ≡ meets self.old snapshots.items) }
    {
        for snapshot in snapshots {
            self.meet(snapshot)?;
        }
        Ok(())
    }

    /// Sends a message to some parties. Error: want of memory.
    pub fn send(
        &mut self,
        origin: Origin,
        to: Sequence<Party>,
        message: Message,
    ) -> Result<(), AllocError>
        ensures { OnOk result (self.new ≡ posts self.old (record { origin = origin; to = to; content = Content.Message message })) }
    {
        let sent = Sent {
            origin,
            to,
            content: Content::Message(message),
        };
        self.post(sent)
    }

    /// Sends what a node in a view lets go. Error: want of memory.
    fn send_held(&mut self, id: MemberId, view: &View, held: Held) -> Result<(), AllocError>
        ensures { OnOk result (self.new ≡ sends self.old (Origin.Node id) view.now held.to held.message) }
    {
        let to = heard_by(self.alloc, view, self.clients.as_slice(), held.to)?;
        self.send(Origin::Node(id), to, held.message)
    }

    /// Sends all that a node in a view lets go, in order. Error: want of memory.
    pub fn send_all(
        &mut self,
        id: MemberId,
        view: &View,
        held: Sequence<Held>,
    ) -> Result<(), AllocError>
        ensures { OnOk result (self.new ≡ sends_all id view.now self.old held) }
    {
        for message in held.into_vec() {
            self.send_held(id, view, message)?;
        }
        Ok(())
    }

    /// The view of the node at an index. Error: want of memory.
    fn view_at(&self, i: usize) -> Result<View, AllocError>
        requires { i < length self.now.hosts }
        ensures { (h : Host S) → slice_get self.now.hosts i ≡ Some h → IfOk result (λ view. view ≡ view_of h.node) }
    {
        self.hosts()[i].view().duplicate(self.alloc)
    }

    /// Sends what a step of the node at an index lets go, in order. Most steps let nothing go, and want no
    /// copy of the view. Error: want of memory.
    fn send_left(&mut self, id: MemberId, i: usize, held: Sequence<Held>) -> Result<(), AllocError>
        requires { i < length self.old.hosts }
        ensures { (h : Host S) → slice_get self.old.hosts i ≡ Some h → OnOk result (self.new ≡ sends_all id (view_of h.node) self.old held) }
    {
        if held.is_empty() {
            let_go(held);
            return Ok(());
        }
        match self.view_at(i) {
            Ok(view) => self.send_all(id, &view, held),
            Err(error) => {
                let_go(held);
                Err(error)
            }
        }
    }

    /// Ends the play, if too many members of a view behind the chosen list are faulty.
    pub fn keep_few(&mut self)
        ensures { self.new ≡ record self.old { ending = ending_few self.old.view self.old.chosen self.old.faulty self.old.ending } }
    {
        if too_many_in(self.chosen.views(), self.faulty.as_slice()) {
            self.ending = breaking(Premise::TooManyFaulty, self.ending);
        }
    }

    /// Meets the snapshots that a step of the node at an index marked. Then sends what the step lets go,
    /// in order. Error: want of memory.
    pub fn leave(
        &mut self,
        id: MemberId,
        i: usize,
        marked: Vec<Bytes>,
        held: Sequence<Held>,
    ) -> Result<(), AllocError>
        requires { i < length self.old.hosts }
        ensures { (h : Host S) → slice_get self.old.hosts i ≡ Some h → OnOk result (self.new ≡ sends_all id (view_of h.node) (meets self.old marked.items) held) }
    {
        match self.meet_all(marked) {
            Ok(()) => self.send_left(id, i, held),
            Err(error) => {
                let_go(held);
                Err(error)
            }
        }
    }

    // What a play shows.

    /// What the lines since the last call have told.
    pub fn take_told(&mut self) -> Sequence<OutLine>
        ensures told { result ≡ self.old.told }
        ensures world { self.new ≡ rested self.old }
    {
        let told = mem::replace(&mut self.told, Vec::new(self.alloc));
        Sequence::from_vec(told)
    }

    /// The reason for which the play has ended, if it has.
    pub fn ending(&self) -> Option<Ending>
        ensures { result ≡ self.now.ending }
    {
        self.ending
    }

    /// The chosen list: the batch of each place that was decided.
    pub fn chosen(&self) -> &[Batch]
        ensures { result.now ≡ self.now.chosen }
    {
        self.chosen.as_slice()
    }

    /// Everything that was sent, injected messages too, in the order of their numbers.
    pub fn sent(&self) -> &[Sent]
        ensures { result.now ≡ self.now.sent }
    {
        self.sent.as_slice()
    }

    /// The replies that clients accepted, in order.
    pub fn accepted(&self) -> &[Acceptance]
        ensures { result.now ≡ self.now.accepted }
    {
        self.accepted.as_slice()
    }

    /// The members' hosts, by number.
    pub fn hosts(&self) -> &[Host<S>]
        ensures { result.now ≡ self.now.hosts }
    {
        self.hosts.as_slice()
    }
}
