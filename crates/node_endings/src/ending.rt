//! Why the loops of a node ended.
ghost use Rattle.std.specs.Prelude.{◌≡◌, ℕ, Bool, true, Some};
ghost use Rattle.node_ends.specs.Intakes.{is_early};
ghost use Rattle.node_endings.specs.Loops.{gave_up, loses};

use node_ends::intake::InputEnd;
use node_ends::outlet::OutputEnd;
use store_form::ends::LogFault;

/// Why a loop ended.
#[derive(Clone, Copy, Debug, PartialEq, Eq)]
pub enum LoopEnd {
    /// The input is at its end, and the loop has done all that was due.
    Done,
    /// Nothing more happens to the node.
    Over,
    /// A frame of the input is too long, or the input ended within it. `frame` is its number, counted
    /// from 1.
    Form { frame: u64 },
    /// The input, the output or a device has failed.
    Failed,
    /// Memory ran out.
    NoMemory,
}

/// Why each loop of a node ended.
#[derive(Clone, Copy, Debug, PartialEq, Eq)]
pub struct Ends {
    pub received: LoopEnd,
    pub delivered: LoopEnd,
    pub sent: LoopEnd,
    pub logged: LoopEnd,
    pub checked: LoopEnd,
}

/// Why the loop ended that reads the input. `None`: it was told to.
pub fn end_of_input(end: Option<InputEnd>) -> LoopEnd
    ensures done { result ≡ LoopEnd.Done → end ≡ Some InputEnd.Whole }
    ensures early { loses result ≡ is_early end }
    ensures form { (frame : ℕ) → result ≡ LoopEnd.Form frame → end ≡ Some (InputEnd.Form frame) }
    ensures failed { result ≡ LoopEnd.Failed → end ≡ Some InputEnd.Failed }
{
    match end {
        Some(InputEnd::Whole) => LoopEnd::Done,
        Some(InputEnd::Form { frame }) => LoopEnd::Form { frame },
        Some(InputEnd::Failed) => LoopEnd::Failed,
        Some(InputEnd::NoMemory) => LoopEnd::NoMemory,
        None => LoopEnd::Over,
    }
}

/// Why the loop ended that writes the output.
pub fn end_of_output(end: OutputEnd) -> LoopEnd
    ensures gave_up { gave_up result ≡ true }
    ensures failed { result ≡ LoopEnd.Failed → end ≡ OutputEnd.Failed }
{
    match end {
        OutputEnd::Failed => LoopEnd::Failed,
        OutputEnd::NoMemory => LoopEnd::NoMemory,
    }
}

/// Why a worker gave up.
pub fn end_of_work(fault: LogFault) -> LoopEnd
    ensures failed { result ≡ LoopEnd.Failed → (closed : Bool) × (fault ≡ LogFault.Disk closed) }
    ensures gave_up { gave_up result ≡ true }
{
    match fault {
        LogFault::Disk { closed: _ } => LoopEnd::Failed,
        LogFault::NoMemory => LoopEnd::NoMemory,
    }
}
