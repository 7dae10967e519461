//! The table of clients.
ghost use Rattle.std.specs.Prelude.{◌≡◌, ◌≤◌, [], length, option_copied, OnOk, OnErr, IfOk, IfErr};
ghost use Rattle.smart_service.specs.Tables.{last_seq, may_execute, is_executed, is_beyond, kept_reply, noting, line_for, Ascends, lines_before, Found, Missing};

use smart_base::bytes::Payload;
use smart_base::duplicate::Duplicate;
use smart_base::name::ClientId;
use smart_base::number::{Place, ViewNo};
use std::alloc::{AllocError, Global};
use std::marker::Model;

/// An executed request: where it stands in the list, the number of the view in force there, and its
/// reply.
#[derive(Drop)]
pub struct Execution {
    pub client: ClientId,
    pub seq: u64,
    pub place: Place,
    /// The request's index in its batch, from 0.
    pub index: u16,
    pub view: ViewNo,
    pub reply: Payload,
}

impl Duplicate for Execution {
    fn duplicate(&self, alloc: Global) -> Result<Execution, AllocError> {
        Ok(Execution {
            client: self.client,
            seq: self.seq,
            place: self.place,
            index: self.index,
            view: self.view,
            reply: self.reply.duplicate(alloc)?,
        })
    }
}

/// What is kept of a client: its last executed request.
#[derive(Drop)]
pub struct TableLine {
    pub last: Execution,
}

/// The table of clients: a line for each client that had a request executed, by ascending client.
pub struct ClientTable {
    lines: Vec<TableLine>,
}

/// Let go by one call, so that no function that lets one go carries the whole of it.
impl Drop for ClientTable {
    fn drop(self) {
        let ClientTable { lines: _ } = self;
    }
}

impl Model for ClientTable {
    ghost use Rattle.std.specs.Prelude.{List};
    ghost use Rattle.smart_service.specs.Tables.{Ascends};
    ghost use Rattle.smart_service.specs.declared.table.TableLine.{TableLine};

    ghost Value = { List TableLine };

    ghost view = { λ t. t.lines.items };

    ghost invariant = { λ t. Ascends t.lines.items };
}

/// The number of lines before a client's, by binary search.
fn lines_before(lines: &[TableLine], client: ClientId) -> usize
    requires { Ascends lines.now }
    ensures place { result ≡ lines_before lines.now client }
    ensures within { result ≤ length lines.now }
{
    lines.partition_point(|line| line.last.client < client)
}

/// The index of a client's line, or else the index at which it belongs.
fn place_of(lines: &[TableLine], client: ClientId) -> Result<usize, usize>
    requires { Ascends lines.now }
    ensures found { IfOk result (Found lines.now client) }
    ensures missing { IfErr result (Missing lines.now client) }
{
    let at = lines_before(lines, client);
    if at == lines.len() {
        return Err(at);
    }
    if lines[at].last.client == client {
        Ok(at)
    } else {
        Err(at)
    }
}

fn line_of(lines: &[TableLine], client: ClientId) -> Option<&TableLine>
    requires { Ascends lines.now }
    ensures { option_copied result ≡ line_for lines.now client }
{
    match place_of(lines, client) {
        Ok(at) => Some(&lines[at]),
        Err(_) => None,
    }
}

fn put_line(lines: &mut Vec<TableLine>, execution: Execution) -> Result<(), AllocError>
    requires { Ascends lines.old.items }
    ensures noted { OnOk result (lines.new.items ≡ noting lines.old.items execution) }
    ensures err { OnErr result (lines.new.items ≡ lines.old.items) }
    ensures order { Ascends lines.new.items }
{
    match place_of(lines.as_slice(), execution.client) {
        Ok(at) => lines[at] = TableLine { last: execution },
        Err(at) => lines.insert(at, TableLine { last: execution })?,
    }
    Ok(())
}

impl ClientTable {
    pub fn new(alloc: Global) -> Self
        ensures { result ≡ [] }
    {
        ClientTable {
            lines: Vec::new(alloc),
        }
    }

    /// The table of these lines. It takes no memory.
    pub fn from_vec(lines: Vec<TableLine>) -> Self
        requires { Ascends lines.items }
        ensures { result ≡ lines.items }
    {
        ClientTable { lines }
    }

    /// All lines, ascending by client.
    pub fn as_slice(&self) -> &[TableLine]
        ensures value { result.now ≡ self.now }
        ensures order { Ascends result.now }
    {
        self.lines.as_slice()
    }

    /// What is kept of a client, if it had a request executed.
    fn line(&self, client: ClientId) -> Option<&TableLine>
        ensures { option_copied result ≡ line_for self.now client }
    {
        line_of(self.lines.as_slice(), client)
    }

    /// The number of a client's last executed request; 0 if there is none.
    pub fn last_seq(&self, client: ClientId) -> u64
        ensures { result ≡ last_seq self.now client }
    {
        match self.line(client) {
            Some(line) => line.last.seq,
            None => 0,
        }
    }

    /// Whether a client's request of a number may be executed now.
    pub fn may_execute(&self, client: ClientId, seq: u64) -> bool
        ensures { result ≡ may_execute self.now client seq }
    {
        let last = self.last_seq(client);
        seq.checked_sub(last) == Some(1)
    }

    /// Whether a client's request of a number has been executed, as far as the table tells.
    pub fn is_executed(&self, client: ClientId, seq: u64) -> bool
        ensures { result ≡ is_executed self.now client seq }
    {
        seq <= self.last_seq(client)
    }

    /// Whether a number is beyond those that a client may use now.
    pub fn is_beyond(&self, client: ClientId, seq: u64) -> bool
        ensures { result ≡ is_beyond self.now client seq }
    {
        let last = self.last_seq(client);
        last < seq && 1 < seq - last
    }

    /// The execution of a client's request of a number, if its reply is kept.
    pub fn kept_reply(&self, client: ClientId, seq: u64) -> Option<&Execution>
        ensures { option_copied result ≡ kept_reply self.now client seq }
    {
        match self.line(client) {
            Some(line) => {
                if line.last.seq == seq {
                    Some(&line.last)
                } else {
                    None
                }
            }
            None => None,
        }
    }

    /// Notes an execution. Error: want of memory; nothing has changed then.
    pub fn put(&mut self, execution: Execution) -> Result<(), AllocError>
        ensures noted { OnOk result (self.new ≡ noting self.old execution) }
        ensures err { OnErr result (self.new ≡ self.old) }
    {
        put_line(&mut self.lines, execution)
    }
}
