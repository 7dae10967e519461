//! What a line of a transcript tells, as far as it is drawn.

use crate::party::{Party, number_in, party_of};
use crate::picture::Figure;

/// A kind of message.
#[derive(Clone, Copy, PartialEq, Eq)]
pub enum Kind {
    Ask,
    Propose,
    Write,
    Accept,
    Reply,
    Stop,
    StopData,
    Sync,
    Mark,
    Decision,
    StateAsk,
    Offer,
    Part,
    View,
    Raw,
}

/// A message that is sent, with the words of its fields.
#[derive(Clone, Copy)]
pub struct Message<'a> {
    pub number: &'a str,
    pub sender: Party,
    pub kind: Kind,
    pub fields: &'a str,
}

/// The parties that a message is for.
#[derive(Clone, Copy, PartialEq, Eq)]
pub enum Audience {
    View,
    One(Party),
    Nobody,
}

/// Something that happens at a party, with the words that follow.
#[derive(Clone, Copy)]
pub struct Happening<'a> {
    pub word: &'a str,
    pub figure: Figure,
    pub party: Party,
    pub rest: &'a str,
}

/// What a line tells.
#[derive(Clone, Copy)]
pub enum Scene<'a> {
    Sent(Message<'a>),
    Happens(Happening<'a>),
    /// It draws nothing.
    Nothing,
}

/// The words of a transcript for the kinds of message.
const KINDS: [(&str, Kind); 15] = [
    ("ask", Kind::Ask),
    ("propose", Kind::Propose),
    ("write", Kind::Write),
    ("accept", Kind::Accept),
    ("reply", Kind::Reply),
    ("stop", Kind::Stop),
    ("stopdata", Kind::StopData),
    ("sync", Kind::Sync),
    ("mark", Kind::Mark),
    ("decision", Kind::Decision),
    ("stateask", Kind::StateAsk),
    ("offer", Kind::Offer),
    ("part", Kind::Part),
    ("view", Kind::View),
    ("raw", Kind::Raw),
];

/// The words of a transcript for what happens, and their figures.
const FIGURES: [(&str, Figure); 9] = [
    ("decided", Figure::Decided),
    ("delivered", Figure::Delivered),
    ("promised", Figure::Promised),
    ("synced", Figure::Synced),
    ("dropped", Figure::Dropped),
    ("crashed", Figure::Crashed),
    ("restarted", Figure::Restarted),
    ("installed", Figure::Installed),
    ("accepted", Figure::Accepted),
];

impl Kind {
    fn of(word: &str) -> Option<Kind> {
        for (name, kind) in KINDS {
            if name == word {
                return Some(kind);
            }
        }
        None
    }

    pub fn name(self) -> &'static str {
        match self {
            Kind::Ask => "ASK",
            Kind::Propose => "PROPOSE",
            Kind::Write => "WRITE",
            Kind::Accept => "ACCEPT",
            Kind::Reply => "REPLY",
            Kind::Stop => "STOP",
            Kind::StopData => "STOPDATA",
            Kind::Sync => "SYNC",
            Kind::Mark => "MARK",
            Kind::Decision => "DECISION",
            Kind::StateAsk => "STATEASK",
            Kind::Offer => "STATEOFFER",
            Kind::Part => "STATEPART",
            Kind::View => "VIEWTOLD",
            Kind::Raw => "RAW",
        }
    }

    /// The names of a message's fields. A field `-` is left out, and of `=` the value stands alone.
    pub fn field_names(self) -> &'static str {
        match self {
            Kind::Ask => "client request after",
            Kind::Propose => "- place regency requests",
            Kind::Write => "- place regency",
            Kind::Accept => "- place regency",
            Kind::Reply => "client request place index",
            Kind::Stop => "- regency",
            Kind::StopData => "- regency last lock",
            Kind::Sync => "- regency base =",
            Kind::Mark => "place",
            Kind::Decision => "place",
            Kind::StateAsk => "place fetch",
            Kind::Offer => "place marks",
            Kind::Part => "place part of",
            Kind::View => "view",
            Kind::Raw => "",
        }
    }
}

/// The leader of a regency.
fn leader_of(members: u64, regency: u64) -> Audience {
    match regency.checked_rem(members) {
        Some(index) => Audience::One(Party::Member(index.saturating_add(1))),
        None => Audience::Nobody,
    }
}

impl Message<'_> {
    /// The parties that the message is for. A member passes a request to the leader of its regency.
    pub fn audience(self, members: u64, regency: u64) -> Audience {
        if self.sender == Party::Script {
            return Audience::Nobody;
        }
        match self.kind {
            Kind::Ask => match self.sender {
                Party::Client(_) => Audience::View,
                _ => leader_of(members, regency),
            },
            Kind::Propose | Kind::Write | Kind::Accept | Kind::Stop | Kind::Sync | Kind::Mark =>
                Audience::View,
            Kind::Reply => match number_at(self.fields, 0) {
                Some(client) => Audience::One(Party::Client(client)),
                None => Audience::Nobody,
            },
            Kind::StopData => match number_at(self.fields, 1) {
                Some(regency) => leader_of(members, regency),
                None => Audience::Nobody,
            },
            // An ask for parts is for one member, which its words do not name.
            Kind::StateAsk => match number_at(self.fields, 1) {
                Some(0) => Audience::View,
                _ => Audience::Nobody,
            },
            // A view is told to all clients, or to one that its words do not name.
            Kind::Decision | Kind::Offer | Kind::Part | Kind::View | Kind::Raw => Audience::Nobody,
        }
    }
}

/// The first word of a text, and what follows.
pub fn split_word(text: &str) -> (&str, &str) {
    text.split_once(' ').unwrap_or((text, ""))
}

/// The word at an index, as a number.
pub fn number_at(words: &str, index: usize) -> Option<u64> {
    number_in(words.split(' ').nth(index)?)
}

fn figure_of(word: &str) -> Figure {
    for (name, figure) in FIGURES {
        if name == word {
            return figure;
        }
    }
    Figure::Other
}

fn sent_of(text: &str) -> Option<Message<'_>> {
    let (number, rest) = split_word(text);
    let (sender, rest) = split_word(rest);
    let (kind, fields) = split_word(rest);
    Some(Message {
        number,
        sender: party_of(sender)?,
        kind: Kind::of(kind)?,
        fields,
    })
}

/// What a line tells. One that is not known draws nothing.
pub fn scene_of(line: &str) -> Scene<'_> {
    let (word, rest) = split_word(line);
    if word == "sent" {
        return match sent_of(rest) {
            Some(message) => Scene::Sent(message),
            None => Scene::Nothing,
        };
    }
    let (party, rest) = split_word(rest);
    match party_of(party) {
        Some(party) => Scene::Happens(Happening {
            word,
            figure: figure_of(word),
            party,
            rest,
        }),
        None => Scene::Nothing,
    }
}

/// The client that a line names.
pub fn client_of(scene: Scene<'_>) -> Option<u64> {
    match scene {
        Scene::Sent(
            Message {
                sender: Party::Client(client),
                ..
            },
        ) => Some(client),
        Scene::Sent(
            Message {
                kind: Kind::Reply,
                fields,
                ..
            },
        ) => number_at(fields, 0),
        Scene::Happens(
            Happening {
                party: Party::Client(client),
                ..
            },
        ) => Some(client),
        _ => None,
    }
}

/// Whether a line tells of the script.
pub fn is_of_script(scene: Scene<'_>) -> bool {
    match scene {
        Scene::Sent(Message { sender, .. }) => sender == Party::Script,
        _ => false,
    }
}

/// The regency that a member takes part in from a line on.
pub fn regency_of(happening: Happening<'_>) -> Option<u64> {
    if happening.word == "place" {
        number_at(happening.rest, 2)
    } else if happening.word == "promised" || happening.word == "synced" {
        number_at(happening.rest, 1)
    } else {
        None
    }
}
