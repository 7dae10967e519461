//! How the links of a group are made, and dealt out to its parties.
ghost use Rattle.std.specs.Prelude.{◌≡◌, ◌≤◌, ◌<◌, [], length, vec_len, OnOk, IfOk};
ghost use Rattle.group_wires.specs.Wires.{IsAddedAt, IsLinked, IsRowAdded, AreDealt, AreFresh};

use crate::parties::{all_ends, member_ends};
use crate::row::Row;
use group_ends::inbox::Inbox;
use group_ends::port::{LINK, Port};
use group_links::ends::link;
use group_links::outward::LinkOut;
use node_rules::node::Target;
use smart_base::sequence::Bytes;
use std::alloc::{AllocError, Global};

/// The ends of all links of a group. A party has a row, on which it sends, and an inbox, which it polls. The
/// parties stand in their order.
#[derive(Drop)]
pub struct Wires {
    pub rows: Vec<Row>,
    pub inboxes: Vec<Inbox>,
}

/// Puts the far end of a link behind those of an inbox. Error: want of memory.
fn add_at(inboxes: &mut Vec<Inbox>, index: usize, outward: LinkOut<Bytes>) -> Result<(), AllocError>
    requires { index < vec_len inboxes.old }
    ensures added { OnOk result (IsAddedAt index outward inboxes.old.items inboxes.new.items) }
    ensures many { vec_len inboxes.new ≡ vec_len inboxes.old }
{
    inboxes[index].links.push(outward)?;
    Ok(())
}

/// Makes the next link of a row. Error: want of memory.
fn add_link(
    alloc: Global,
    end: Target,
    ports: &mut Vec<Port>,
    inboxes: &mut Vec<Inbox>,
) -> Result<(), AllocError>
    requires { vec_len ports.old < vec_len inboxes.old }
    ensures linked { OnOk result (IsLinked end ports.old.items ports.new.items inboxes.old.items inboxes.new.items) }
    ensures many { vec_len inboxes.new ≡ vec_len inboxes.old }
{
    let here = ports.len();
    let (inward, outward) = link(alloc, LINK)?;
    let port = Port::new(end, inward);
    add_at(inboxes, here, outward)?;
    ports.push(port)?;
    Ok(())
}

/// Makes a link to each of these parties, in their order. Error: want of memory.
fn add_row(alloc: Global, receivers: &[Target], inboxes: &mut Vec<Inbox>) -> Result<Row, AllocError>
    requires { length receivers.now ≤ vec_len inboxes.old }
    ensures added { IfOk result (λ row. IsRowAdded receivers.now row.ports.items inboxes.old.items inboxes.new.items) }
    ensures many { vec_len inboxes.new ≡ vec_len inboxes.old }
{
    let mut ports = Vec::new(alloc);
    for index in 0..receivers.len() {
        let end = receivers[index];
        add_link(alloc, end, &mut ports, inboxes)?;
    }
    Ok(Row { ports })
}

/// As many inboxes without links. Error: want of memory.
fn bare_inboxes(alloc: Global, count: usize) -> Result<Vec<Inbox>, AllocError>
    ensures bare { IfOk result (λ inboxes. AreDealt [] inboxes.items) }
    ensures many { IfOk result (λ inboxes. vec_len inboxes ≡ count) }
{
    let mut inboxes = Vec::new(alloc);
    for _made in 0..count {
        let inbox = Inbox::new(Vec::new(alloc));
        inboxes.push(inbox)?;
    }
    Ok(inboxes)
}

/// Makes the links of a group with so many members: one from each party to each, but that the client has
/// none to itself. Nothing was put on them. Error: want of memory.
pub fn new_wires(alloc: Global, members: u16) -> Result<Wires, AllocError>
    ensures { IfOk result (AreFresh members) }
{
    let all = all_ends(alloc, members)?;
    let mut inboxes = bare_inboxes(alloc, all.len())?;
    let mut rows = Vec::new(alloc);
    for _made in 0..members {
        let row = add_row(alloc, all.as_slice(), &mut inboxes)?;
        rows.push(row)?;
    }
    let others = member_ends(alloc, members)?;
    let last = add_row(alloc, others.as_slice(), &mut inboxes)?;
    rows.push(last)?;
    Ok(Wires { rows, inboxes })
}
