//! The status of a run.
ghost use Rattle.std.specs.Prelude.{◌≡◌};
ghost use Rattle.script_play.specs.Statuses.{code_of};

use world_rules::line::Kind;
use world_rules::message::Premise;

/// The reason for which a script line is refused.
#[derive(Clone, Copy, Debug, PartialEq, Eq)]
pub enum Refusal {
    Script(Kind),
    /// A premise of the promise does not hold in its play.
    Premise(Premise),
    /// The line would pass the greatest number of lines, 2^20, or send a message past the greatest
    /// number, 2^24.
    Limit,
}

/// What an event of a trail has and has no right to.
#[derive(Clone, Copy, Debug, PartialEq, Eq)]
pub enum DifferenceKind {
    /// A message was sent that is not the next one that leaves.
    Sent,
    /// A statement of a member came that the member has not sent.
    Stated,
}

/// The status of a run. Lines and the parts of trails are counted from 1.
#[derive(Clone, Copy, Debug, PartialEq, Eq)]
pub enum Status {
    /// The input was played to its end.
    Ok,
    /// The words are no command.
    Words,
    /// This line of the script has no meaning, or the input ended before it with no whole header. Of
    /// trails: this part is lacking or has no meaning.
    Script {
        line: u64,
        kind: Kind,
    },
    /// This entry of a node's store has no meaning there. Entries are counted from 1; 0 is the checkpoint.
    Store {
        entry: u64,
    },
    /// The input failed.
    ReadFault,
    /// The output failed.
    WriteFault,
    /// The trail of a node failed.
    TrailFault,
    /// A device of a node failed.
    DiskFault,
    /// A premise of the promise does not hold in the play of this line.
    Premise {
        line: u64,
        which: Premise,
    },
    /// This line would pass the greatest number of lines or of messages, or this part that of parts.
    Limit {
        line: u64,
    },
    /// The trails are not coherent: first at this event of the trail that this number has.
    Differs {
        kind: DifferenceKind,
        member: u16,
        event: u64,
    },
    /// A request of this client has no reply. So many polls since it was asked found nothing, and nothing
    /// is left to happen.
    GaveUp {
        client: u16,
        polls: u64,
    },
    /// Want of memory.
    NoMemory,
}

impl Status {
    /// The exit status of the program: 0 to 11.
    pub fn code(self) -> u8
        ensures { result ≡ code_of self }
    {
        match self {
            Status::Ok => 0,
            Status::Words => 2,
            Status::Script { .. } | Status::Store { .. } => 3,
            Status::ReadFault => 4,
            Status::WriteFault | Status::TrailFault => 5,
            Status::DiskFault => 6,
            Status::Premise { .. } => 7,
            Status::Limit { .. } => 8,
            Status::Differs { .. } => 9,
            Status::GaveUp { .. } => 10,
            Status::NoMemory => 11,
        }
    }
}
