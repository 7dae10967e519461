//! The play of a script.
ghost use Rattle.std.specs.Prelude.{◌≡◌, ◌++◌, [], ◌∷◌, true, false, None, Some, IfOk, IfErr, OnOk, IsErrOf, option_map};
ghost use Rattle.std.specs.Option.{option_copied};
ghost use Rattle.world_rules.specs.Worlds.{core_course, begun, host_of};
ghost use Rattle.world_rules.specs.Plays.{is_there, line_played, rested, IsPlay};
ghost use Rattle.world_rules.specs.declared.message.Ending.TheVariants as endings;
ghost use Rattle.world_rules.specs.declared.message.Premise.{Premise};

use crate::lines;
use client_quorum::client::Acceptance;
use node_rules::node::Delivery;
use smart_base::name::MemberId;
use smart_base::sequence::Sequence;
use smart_service::service::Service;
use smart_statements::batch::Batch;
use std::alloc::{AllocError, Global};
use std::marker::Model;
use vote_book::entry::LogEntry;
use world_hosts::host::Host;
use world_rules::line::{Header, Line, OutLine};
use world_rules::message::{Ending, Premise, Sent};
use world_state::state::WorldState;

/// The reason for which a line was not played to its end. The play is over then, unless the line was
/// not begun.
#[derive(Clone, Copy, Debug, PartialEq, Eq)]
pub enum WorldEnd {
    /// The line names what is not there. It is not begun.
    Refer,
    /// A premise does not hold.
    Premise(Premise),
    /// More messages would be sent than have numbers.
    Limit,
    /// Want of memory.
    NoMemory,
}

impl From<AllocError> for WorldEnd {
    ghost use Rattle.std.specs.Prelude.{◌≡◌};
    ghost use Rattle.world_core.specs.declared.world.WorldEnd.TheVariants.{NoMemory};

    ghost from_gives = { λ _ e. e ≡ NoMemory };

    fn from(_: AllocError) -> WorldEnd {
        WorldEnd::NoMemory
    }
}

/// The play of a script over a service: the world, and the lines that it stands for.
pub struct World<S: Service> {
    group: Header,
    lines: Sequence<Line>,
    state: WorldState<S>,
    over: bool,
}

impl<S: Service> Drop for World<S> {
    fn drop(self) {
        let World {
            group: _group,
            lines: _lines,
            state: _state,
            over: _over,
        } = self;
    }
}

impl<S: Service> Model for World<S> {
    ghost use Rattle.world_rules.specs.Worlds.{core_course};
    ghost use Rattle.world_rules.specs.Plays.{Play, IsPlay};

    ghost Value = { Play S };

    ghost view = { λ w. record { group = w.group; lines = w.lines; world = w.state; over = w.over } };

    ghost invariant = { λ w. IsPlay (core_course S.meaning) S.meaning (record { group = w.group; lines = w.lines; world = w.state; over = w.over }) };
}

/// Plays a line that names only what is there, and tells why the play is over, if it is.
fn play_line<S: Service>(state: &mut WorldState<S>, line: &Line) -> Result<(), WorldEnd>
    ensures world { OnOk result (state.new ≡ line_played (core_course S.meaning) state.old line.now) }
    ensures going { OnOk result (state.new.ending ≡ None) }
    ensures refer { IsErrOf result WorldEnd.Refer → ⊥ }
    ensures limit { IsErrOf result WorldEnd.Limit → (line_played (core_course S.meaning) state.old line.now).ending ≡ Some endings.Limit }
    ensures premise { (which : Premise) → IsErrOf result (WorldEnd.Premise which) → (line_played (core_course S.meaning) state.old line.now).ending ≡ Some (endings.Premise which) }
{
    lines::play(state, line)?;
    match state.ending() {
        None => Ok(()),
        Some(Ending::Limit) => Err(WorldEnd::Limit),
        Some(Ending::Premise(which)) => Err(WorldEnd::Premise(which)),
    }
}

impl<S: Service> World<S> {
    /// The play at the end of a header. Error: want of memory.
    pub fn begin(alloc: Global, header: Header) -> Result<Self, AllocError>
        ensures { IfOk result (λ w. w ≡ record { group = header; lines = []; world = begun S.meaning header; over = false }) }
    {
        let state = WorldState::begin(alloc, &header)?;
        Ok(World {
            group: header,
            lines: Sequence::new(alloc),
            state,
            over: false,
        })
    }

    /// Plays a line, and gives what it tells, or the reason for which it was not played.
    pub fn play(&mut self, line: Line) -> Result<Sequence<OutLine>, WorldEnd>
        requires { self.old.over ≡ false }
        ensures told { IfOk result (λ told. told ≡ (line_played (core_course S.meaning) self.old.world line).told) }
        ensures world { OnOk result (self.new ≡ record { group = self.old.group; lines = self.old.lines ++ line ∷ []; world = rested (line_played (core_course S.meaning) self.old.world line); over = false }) }
        ensures there { OnOk result (is_there self.old.world line ≡ true) }
        ensures going { OnOk result ((line_played (core_course S.meaning) self.old.world line).ending ≡ None) }
        ensures refer { IsErrOf result WorldEnd.Refer → is_there self.old.world line ≡ false }
        ensures unchanged { IsErrOf result WorldEnd.Refer → self.new ≡ self.old }
        ensures within { IsErrOf result WorldEnd.Limit → is_there self.old.world line ≡ true }
        ensures supposed { (which : Premise) → IsErrOf result (WorldEnd.Premise which) → is_there self.old.world line ≡ true }
        ensures memory { IsErrOf result WorldEnd.NoMemory → is_there self.old.world line ≡ true }
        ensures limit { IsErrOf result WorldEnd.Limit → (line_played (core_course S.meaning) self.old.world line).ending ≡ Some endings.Limit }
        ensures premise { (which : Premise) → IsErrOf result (WorldEnd.Premise which) → (line_played (core_course S.meaning) self.old.world line).ending ≡ Some (endings.Premise which) }
        ensures over { IfErr result (λ end. (end ≡ WorldEnd.Refer → ⊥) → self.new.over ≡ true) }
    {
        if !lines::is_there(&self.state, &line) {
            return Err(WorldEnd::Refer);
        }
        self.over = true;
        if let Err(end) = play_line(&mut self.state, &line) {
            return Err(end);
        }
        self.lines.push(line)?;
        let told = self.state.take_told();
        self.over = false;
        Ok(told)
    }

    /// Whether the play is over. Until then it stands for its lines.
    pub fn over(&self) -> bool
        ensures value { result ≡ self.now.over }
        ensures stands { IsPlay (core_course S.meaning) S.meaning self.now }
    {
        self.over
    }

    /// What the header states of the group.
    pub fn header(&self) -> &Header
        ensures { result.now ≡ self.now.group }
    {
        &self.group
    }

    /// The chosen list: the batch of each place that was decided.
    pub fn chosen(&self) -> &[Batch]
        ensures { result.now ≡ self.now.world.chosen }
    {
        self.state.chosen()
    }

    /// Everything that was sent, injected messages too, in the order of their numbers.
    pub fn sent(&self) -> &[Sent]
        ensures { result.now ≡ self.now.world.sent }
    {
        self.state.sent()
    }

    /// The replies that clients accepted, in order.
    pub fn accepted(&self) -> &[Acceptance]
        ensures { result.now ≡ self.now.world.accepted }
    {
        self.state.accepted()
    }

    fn host(&self, id: MemberId) -> Option<&Host<S>>
        ensures { option_copied result ≡ host_of self.now.world.hosts id }
    {
        find_host(self.state.hosts(), id)
    }

    /// The book of a member, if it is one.
    pub fn book(&self, id: MemberId) -> Option<&[LogEntry]>
        ensures { option_copied result ≡ option_map (λ h. h.node.entries) (host_of self.now.world.hosts id) }
    {
        match self.host(id) {
            None => None,
            Some(host) => Some(host.book()),
        }
    }

    /// The batches that a member's steps delivered since it last restarted or took over a replica, if
    /// it is a member.
    pub fn delivered(&self, id: MemberId) -> Option<&[Delivery]>
        ensures { option_copied result ≡ option_map (λ h. h.delivered) (host_of self.now.world.hosts id) }
    {
        match self.host(id) {
            None => None,
            Some(host) => Some(host.delivered()),
        }
    }

    /// The batches that a member's steps delivered before it last restarted or took over a replica, if
    /// it is a member.
    pub fn earlier(&self, id: MemberId) -> Option<&[Delivery]>
        ensures { option_copied result ≡ option_map (λ h. h.earlier) (host_of self.now.world.hosts id) }
    {
        match self.host(id) {
            None => None,
            Some(host) => Some(host.earlier()),
        }
    }
}

fn find_host<S: Service>(hosts: &[Host<S>], id: MemberId) -> Option<&Host<S>>
    ensures { option_copied result ≡ host_of hosts.now id }
{
    for host in hosts {
        if host.id() == id {
            return Some(host);
        }
    }
    None
}
