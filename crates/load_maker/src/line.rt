//! The lines of a load's script.
ghost use Rattle.std.specs.Prelude.{◌≡◌, ◌++◌, OnOk, string_bytes};
ghost use Rattle.load_maker.specs.Loads.{line_text};

use smart_base::name::{ClientId, MemberId};
use std::alloc::AllocError;
use std::fmt::Write;

/// A line of a load's script.
#[derive(Clone, Copy, Debug, PartialEq, Eq)]
pub enum LoadLine {
    /// `group 4 1`: four members, of which one may be faulty.
    Group,
    /// `app count`: the service is a sum.
    App,
    /// `period 16`: the number of places in which each member takes one checkpoint.
    Period,
    /// `ask C A`: the client, 1 to 8, asks to add the amount, 1 to 100.
    Ask { client: ClientId, amount: u8 },
    /// `flow`: each message goes to all that it is for, until nothing is due.
    Flow,
    /// `crash M new`: the member, 1 to 4, crashes, and its devices are left as they read.
    Crash { member: MemberId },
    /// `restart M`: the member that crashed restarts.
    Restart { member: MemberId },
}

impl LoadLine {
    /// Adds the line's text, without a line feed. Error: want of memory; what was added then is not
    /// said.
    pub fn put(self, out: &mut String) -> Result<(), AllocError>
        ensures text { OnOk result (string_bytes out.new ≡ string_bytes out.old ++ line_text self) }
    {
        match self {
            LoadLine::Group => out.push_str("group 4 1"),
            LoadLine::App => out.push_str("app count"),
            LoadLine::Period => out.push_str("period 16"),
            LoadLine::Ask { client, amount } => {
                let client = client.get();
                write!(out, "ask {client} {amount}")
            }
            LoadLine::Flow => out.push_str("flow"),
            LoadLine::Crash { member } => {
                let member = member.get();
                write!(out, "crash {member} new")
            }
            LoadLine::Restart { member } => {
                let member = member.get();
                write!(out, "restart {member}")
            }
        }
    }
}
