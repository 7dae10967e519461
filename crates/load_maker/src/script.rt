//! The script of a load, of which one line after the other is made.
ghost use Rattle.std.specs.Prelude.{◌≡◌, ◌+◌, ◌≤◌, ◌∷◌, [], IfSome, IsNone};
ghost use Rattle.load_maker.specs.Loads.{drawn, asker, amount, crasher, load_lines};
ghost use Rattle.load_maker.specs.Turns.{behind_ask, behind_flow};

use crate::draw::draw;
use crate::line::LoadLine;
use smart_base::name::{ClientId, MemberId};
use std::marker::Model;

/// The clients ask in turn; this is their number.
const CLIENTS: u32 = 8;

/// The amounts are 1 to this.
const AMOUNTS: u32 = 100;

/// The number of members.
const MEMBERS: u32 = 4;

/// All messages flow after each ask whose number this divides, and after the last.
const ASKS_OF_A_FLOW: u32 = 8;

/// A member crashes and restarts after each ask whose number this divides.
const ASKS_OF_A_CRASH: u32 = 64;

/// Which line comes next.
#[derive(Clone, Copy, Debug, PartialEq, Eq)]
enum Turn {
    /// The first line of the header.
    Group,
    /// The second line of the header.
    App,
    /// The third line of the header.
    Period,
    /// The next ask, or nothing if there is none left.
    Ask,
    /// All messages flow.
    Flow,
    /// A member crashes: the next draw says which.
    Crash,
    /// The member that crashed restarts: the last draw said which.
    Restart,
}

/// What is still to come of a load's script. To contracts it is the list of these lines. It keeps
/// three numbers and the kind of the next line, and no text.
#[derive(Drop)]
pub struct LoadScript {
    /// The number of asks of the whole script.
    count: u32,
    /// The number of asks still to come.
    more: u32,
    /// The number that was drawn last, or `count` before the first draw.
    last: u32,
    turn: Turn,
}

impl Model for LoadScript {
    ghost use Rattle.std.specs.Prelude.{List, ◌≤◌};
    ghost use Rattle.load_maker.specs.Turns.{lines_left};
    ghost use Rattle.load_maker.specs.declared.line.LoadLine.{LoadLine};

    ghost Value = { List LoadLine };

    ghost view = { λ s. lines_left s.count s.more s.last s.turn };

    ghost invariant = { λ s. s.more ≤ s.count };
}

/// Which line comes behind an ask.
fn behind_ask(count: u32, ask: u32) -> Turn
    ensures { result ≡ behind_ask count ask }
{
    if ask % ASKS_OF_A_FLOW == 0 || ask == count {
        Turn::Flow
    } else {
        Turn::Ask
    }
}

/// Which line comes behind the flow after an ask.
fn behind_flow(ask: u32) -> Turn
    ensures { result ≡ behind_flow ask }
{
    if ask % ASKS_OF_A_CRASH == 0 {
        Turn::Crash
    } else {
        Turn::Ask
    }
}

/// The client of an ask, by the ask's number.
fn asker(ask: u32) -> ClientId
    requires { 1 ≤ ask }
    ensures { result ≡ asker ask }
{
    ClientId::new(1 + ((ask - 1) % CLIENTS) as u16)
}

/// The amount of an ask, by the number that was drawn for it.
fn amount(number: u32) -> u8
    ensures { result ≡ amount number }
{
    1 + (number % AMOUNTS) as u8
}

/// The member that crashes, by the number that was drawn for it.
fn crasher(number: u32) -> MemberId
    ensures { result ≡ crasher number }
{
    MemberId::new(1 + (number % MEMBERS) as u16)
}

impl LoadScript {
    /// The whole script of a load of `count` asks. It takes no memory.
    pub fn new(count: u32) -> LoadScript
        ensures { result ≡ load_lines count }
    {
        LoadScript {
            count,
            more: count,
            last: count,
            turn: Turn::Group,
        }
    }

    /// Gives the next line, or `None` exactly where none is left. It takes no memory.
    pub fn next(&mut self) -> Option<LoadLine>
        ensures some { IfSome result (λ line. self.old ≡ line ∷ self.new) }
        ensures none { IsNone result → self.old ≡ [] }
        ensures end { IsNone result → self.new ≡ [] }
    {
        match self.turn {
            Turn::Group => {
                self.turn = Turn::App;
                Some(LoadLine::Group)
            }
            Turn::App => {
                self.turn = Turn::Period;
                Some(LoadLine::App)
            }
            Turn::Period => {
                self.turn = Turn::Ask;
                Some(LoadLine::Period)
            }
            Turn::Ask => {
                if self.more == 0 {
                    return None;
                }
                let number = draw(self.last);
                self.last = number;
                self.more -= 1;
                let ask = self.count - self.more;
                self.turn = behind_ask(self.count, ask);
                Some(LoadLine::Ask {
                    client: asker(ask),
                    amount: amount(number),
                })
            }
            Turn::Flow => {
                self.turn = behind_flow(self.count - self.more);
                Some(LoadLine::Flow)
            }
            Turn::Crash => {
                self.last = draw(self.last);
                self.turn = Turn::Restart;
                Some(LoadLine::Crash {
                    member: crasher(self.last),
                })
            }
            Turn::Restart => {
                self.turn = Turn::Ask;
                Some(LoadLine::Restart {
                    member: crasher(self.last),
                })
            }
        }
    }
}
