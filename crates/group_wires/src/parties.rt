//! The parties of a group in their order: its members by their numbers, and behind them the client.
ghost use Rattle.std.specs.Prelude.{◌≡◌, IfOk};
ghost use Rattle.group_wires.specs.Wires.{member_ends, all_ends};

use node_rules::node::Target;
use smart_base::name::{ClientId, MemberId};
use std::alloc::{AllocError, Global};

/// The number of a group's client.
const CLIENT: u16 = 1;

/// The members with the numbers from 1 to this one. Error: want of memory.
pub fn member_ends(alloc: Global, members: u16) -> Result<Vec<Target>, AllocError>
    ensures { IfOk result (λ ends. ends.items ≡ member_ends members) }
{
    let mut ends = Vec::new(alloc);
    for before in 0..members {
        ends.push(Target::Node(MemberId::new(before + 1)))?;
    }
    Ok(ends)
}

/// These members and the client. Error: want of memory.
pub fn all_ends(alloc: Global, members: u16) -> Result<Vec<Target>, AllocError>
    ensures { IfOk result (λ ends. ends.items ≡ all_ends members) }
{
    let mut ends = member_ends(alloc, members)?;
    ends.push(Target::Client(ClientId::new(CLIENT)))?;
    Ok(ends)
}
