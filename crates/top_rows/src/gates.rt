//! The gate that holds the workers of members.
use crate::fault::RowFault;
use crate::signs::Signs;
use crate::steps::number_of;
use clock_gate::gate::{Gate, Point};
use smart_base::name::MemberId;
use std::sync::atomic::{AtomicU64, Ordering};
use std::thread;
use std::time::Duration;

/// How often a gate holds workers in a life. Then it gives up, and is open. A worker asks more often. It holds
/// longer than an input waits.
const PATIENCE: u64 = 500_000;

/// The last of four members.
const LAST: u16 = 4;

/// The bits of members 1 to 4.
const ALL: u64 = 0b11110;

/// What a gate holds.
#[derive(Clone, Copy, Debug, PartialEq, Eq)]
pub enum Rule {
    /// Each group that decides a place, and a member that has delivered a place, until it is opened for them.
    Steps,
    /// Each write of the last of four members until that has delivered a batch, and the others behind their
    /// deliveries until then. They decide without it.
    WriteWaits,
    /// Each of four members that has delivered the batch of this place, until all of them have, and until each was
    /// about to write a decision of the place `decided` or of a later one.
    AllGoOn { place: u64, decided: u64 },
}

/// The rule that holds four members until all go on: two numbers are its places.
pub fn all_go_on(numbers: &str) -> Result<Rule, RowFault> {
    let (place, decided) = numbers.split_once(',').ok_or(RowFault::Word)?;
    Ok(Rule::AllGoOn {
        place: number_of(place)?,
        decided: number_of(decided)?,
    })
}

/// The bit of a member.
fn bit_of(member: MemberId) -> u64 {
    1u64.checked_shl(u32::from(member.get())).unwrap_or(0)
}

/// Notes a member.
fn note(bits: &AtomicU64, member: MemberId) {
    bits.fetch_or(bit_of(member), Ordering::SeqCst);
}

/// Whether the last of four members is noted.
fn has_last(bits: &AtomicU64) -> bool {
    bits.load(Ordering::SeqCst) & bit_of(MemberId::new(LAST)) != 0
}

/// Whether all four members are noted.
fn has_all(bits: &AtomicU64) -> bool {
    bits.load(Ordering::SeqCst) == ALL
}

/// Whether the gate of a life has given up.
pub fn has_given_up(signs: &Signs) -> bool {
    signs.held.load(Ordering::SeqCst) >= PATIENCE
}

/// Whether each of four members was about to write a decision, if the rule waits for that.
pub fn have_all_written(rule: Rule, signs: &Signs) -> Option<bool> {
    match rule {
        Rule::AllGoOn { .. } => Some(has_all(&signs.writers)),
        _ => None,
    }
}

/// A gate that holds workers by a rule. It sleeps before it answers that one is held, so that the others go on long
/// before it gives up.
#[derive(Drop)]
pub struct TrialGate<'a> {
    pub rule: Rule,
    pub signs: &'a Signs,
    pub rt: &'a HostRuntime,
}

impl<'a> TrialGate<'a> {
    /// Whether a group that decides this place may be written; 0 if it decides none.
    fn is_open_for(&self, decided: u64) -> bool {
        if decided == 0 {
            return true;
        }
        self.signs.writing.store(true, Ordering::SeqCst);
        self.signs.open.load(Ordering::SeqCst)
    }

    /// Whether a member may write a group that decides this place, or none.
    fn may_write(&self, member: MemberId, decided: u64) -> bool {
        match self.rule {
            Rule::Steps => self.is_open_for(decided),
            Rule::WriteWaits => member.get() != LAST || has_last(&self.signs.deliverers),
            Rule::AllGoOn {
                place: _,
                decided: least,
            } => {
                if decided >= least {
                    note(&self.signs.writers, member);
                }
                true
            }
        }
    }

    /// Whether a member that has delivered this place may go on.
    fn may_go_on(&self, member: MemberId, place: u64) -> bool {
        self.signs.delivered.store(place, Ordering::SeqCst);
        match self.rule {
            Rule::Steps => self.signs.stays.load(Ordering::SeqCst) != place,
            Rule::WriteWaits => {
                note(&self.signs.deliverers, member);
                has_last(&self.signs.deliverers)
            }
            Rule::AllGoOn {
                place: awaited,
                decided: _,
            } => place != awaited || self.have_all_come(member),
        }
    }

    /// Whether all four members have delivered the batch that this one has, and each was about to write.
    fn have_all_come(&self, member: MemberId) -> bool {
        note(&self.signs.deliverers, member);
        has_all(&self.signs.deliverers) && has_all(&self.signs.writers)
    }
}

impl<'a> Gate for TrialGate<'a> {
    fn at(&self, member: MemberId, point: Point) -> bool {
        let goes_on = match point {
            Point::BeforeWrite { decided } => self.may_write(member, decided),
            Point::Delivered { place } => self.may_go_on(member, place),
        };
        if goes_on || has_given_up(self.signs) {
            return true;
        }
        self.signs.held.fetch_add(1, Ordering::SeqCst);
        thread::sleep(self.rt, Duration::from_micros(100));
        false
    }
}
