//! How the ends of a group's links come together again.
ghost use Rattle.std.specs.Prelude.{◌≡◌, ◌≤◌, ◌<◌, length, vec_len, true};
ghost use Rattle.smart_base.specs.Lists.{Each};
ghost use Rattle.group_links.specs.Link.{in_link};
ghost use Rattle.group_wires.specs.declared.row.Row.{Row};
ghost use Rattle.group_wires.specs.Wires.{all_takings, row_links, row_puts, AreLinked, EndWith, HaveCome, IsLast, IsRejoinedAt, IsRowRejoined};

use crate::row::Row;
use group_ends::inbox::Inbox;
use group_ends::port::Port;
use group_links::ends::rejoin;

/// Takes the last link of the inbox at an index, and lets it come together with its other end. `false` only
/// if the inbox has none.
fn rejoin_at(port: Port, inboxes: &mut Vec<Inbox>, index: usize) -> bool
    requires within { index < vec_len inboxes.old }
    requires last { IsLast index (in_link port.link) inboxes.old.items }
    ensures whole { result ≡ true }
    ensures rejoined { IsRejoinedAt index port inboxes.old.items inboxes.new.items }
    ensures many { vec_len inboxes.new ≡ vec_len inboxes.old }
{
    match inboxes[index].links.pop() {
        Some(outward) => {
            let Port { end: _, link } = port;
            rejoin(link, outward);
            true
        }
        None => false,
    }
}

/// Lets the links of a row come together with their other ends, which are the last ones of the inboxes.
fn rejoin_row(row: Row, inboxes: &mut Vec<Inbox>)
    requires within { length row.ports.items ≤ vec_len inboxes.old }
    requires last { EndWith row.ports.items inboxes.old.items }
    ensures rejoined { IsRowRejoined row.ports.items inboxes.old.items inboxes.new.items }
    ensures many { vec_len inboxes.new ≡ vec_len inboxes.old }
{
    let Row { mut ports } = row;
    while let Some(port) = ports.pop() {
        let index = ports.len();
        rejoin_at(port, inboxes, index);
    }
}

/// Lets the links of a group come together: of the ends on which each party sends, and those that each
/// polls. What was taken from each is a front of what was put on it.
pub fn rejoin_all(rows: Vec<Row>, inboxes: Vec<Inbox>)
    requires within { Each (λ (row : Row). length row.ports.items ≤ vec_len inboxes) rows.items }
    requires linked { AreLinked (row_links rows.items) inboxes.items }
    ensures { HaveCome (row_puts rows.items) (all_takings inboxes.items) }
{
    let mut rows = rows;
    let mut inboxes = inboxes;
    while let Some(row) = rows.pop() {
        rejoin_row(row, &mut inboxes);
    }
}
