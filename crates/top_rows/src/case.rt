//! What a life or a run is played over: its words and its input, and what fails or is held.
use crate::fault::RowFault;
use crate::gates::{Rule, all_go_on};
use crate::steps::{Step, bytes_of, member_of, number_of, step_of};
use std::alloc::{AllocError, Global};

/// The words of a life that has none of its own.
const WORDS: &str = "node --id 1 --dir . --secret 776f726c64 --group 1,0";

/// The kept trails of the client and of so many members, in a directory.
#[derive(Drop)]
pub struct Trails {
    pub members: u16,
    pub dir: String,
}

/// A life or a run. Of calls that fail the number is stated, counted from 1; 0 is none.
#[derive(Drop)]
pub struct Case {
    pub words: Vec<String>,
    /// What the input does, the last step first.
    pub steps: Vec<Step>,
    /// The trails that the input gives first.
    pub kept: Option<Trails>,
    /// The read that fails.
    pub read: u64,
    /// The write of the output that fails.
    pub write: u64,
    /// Whether the output waits until the input waits for its failure.
    pub waits: bool,
    /// The call of the trail's sink that fails.
    pub trail: u64,
    /// How often the room of trails refuses.
    pub refusals: u64,
    /// The rule by which a gate holds workers.
    pub rule: Rule,
    /// Whether it holds the groups that decide a place.
    pub holds: bool,
    /// The place behind whose delivery it holds the member; 0 is none.
    pub stays: u64,
    /// The trails of others that are audited behind the member's own.
    pub others: Vec<u8>,
}

/// The words that a text has between spaces.
fn words_in(alloc: Global, text: &str) -> Result<Vec<String>, AllocError> {
    let mut words = Vec::new(alloc);
    for word in text.split(' ') {
        if !word.is_empty() {
            words.push(String::from_str(alloc, word)?)?;
        }
    }
    Ok(words)
}

/// The trails that a number of members and a directory state.
fn trails_of(alloc: Global, value: &str) -> Result<Trails, RowFault> {
    let (members, dir) = value.split_once(',').ok_or(RowFault::Word)?;
    Ok(Trails {
        members: member_of(members)?,
        dir: String::from_str(alloc, dir)?,
    })
}

impl Case {
    /// Whether a gate holds anything.
    pub fn is_held(&self) -> bool {
        self.holds || self.stays > 0 || self.rule != Rule::Steps
    }

    /// Takes a step in.
    fn add(&mut self, step: Step) -> Result<(), RowFault> {
        if let Step::Failure = &step {
            self.waits = true;
        }
        self.steps.push(step)?;
        Ok(())
    }

    /// Takes an option in: its name, or its name, an equals sign, and its value.
    fn set(&mut self, alloc: Global, option: &str) -> Result<(), RowFault> {
        let (name, value) = option.split_once('=').unwrap_or((option, ""));
        match name {
            "kept" => self.kept = Some(trails_of(alloc, value)?),
            "read" => self.read = number_of(value)?,
            "write" => self.write = number_of(value)?,
            "trail" => self.trail = number_of(value)?,
            "refusals" => self.refusals = number_of(value)?,
            "write-waits" => self.rule = Rule::WriteWaits,
            "all-go-on" => self.rule = all_go_on(value)?,
            "hold" => self.holds = true,
            "stay" => self.stays = number_of(value)?,
            "others" => self.others = bytes_of(alloc, value)?,
            _ => self.add(step_of(alloc, name, value)?)?,
        }
        Ok(())
    }
}

/// The life or the run that a row states: options, and behind a colon words of its own.
pub fn case_of(alloc: Global, row: &str) -> Result<Case, RowFault> {
    let (options, words) = row.split_once(':').unwrap_or((row, WORDS));
    let mut case = Case {
        words: words_in(alloc, words)?,
        steps: Vec::new(alloc),
        kept: None,
        read: 0,
        write: 0,
        waits: false,
        trail: 0,
        refusals: 0,
        rule: Rule::Steps,
        holds: false,
        stays: 0,
        others: Vec::new(alloc),
    };
    for option in options.split(' ') {
        if !option.is_empty() {
            case.set(alloc, option)?;
        }
    }
    case.steps.reverse();
    Ok(case)
}
