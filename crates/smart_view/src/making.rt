//! Views made of members in any order.
ghost use Rattle.std.specs.Prelude.{false, ◌≡◌, ◌≤◌, ◌==◌, ◌^◌};
ghost use Rattle.std.specs.List.{list_any};
ghost use Rattle.smart_base.specs.Lists.{Each};
ghost use Rattle.smart_view.specs.Making.{repeats, fault_of, sorted, made};

use crate::fault::ViewFault;
use smart_base::limits::{LAST_VIEW, MEMBERS};
use smart_base::name::MemberId;
use smart_base::view::View;

fn contains(members: &[MemberId], member: MemberId) -> bool
    ensures { result ≡ list_any (λ m. m == member) members.now }
{
    members.iter().any(|m| *m == member)
}

fn repeats(members: &[MemberId]) -> bool
    ensures { result ≡ repeats members.now }
{
    for (i, member) in members.iter().enumerate() {
        let (_, rest) = members.split_at(i + 1);
        if contains(rest, *member) {
            return true;
        }
    }
    false
}

fn has_zero(members: &[MemberId]) -> bool
    ensures value { result ≡ list_any (λ m. m == 0) members.now }
    ensures names { result ≡ false → Each (λ m. m ≤ 65535) members.now }
{
    for member in members {
        if member.get() == 0 {
            return true;
        }
    }
    false
}

#[tactic(auto, unfolding(crate::specs::Making::fault_of))]
fn fault_of(number: u32, members: &[MemberId], f: u8) -> Option<ViewFault>
    ensures value { result ≡ fault_of number members.now f }
    ensures names { result ≡ None → Each (λ m. m ≤ 65535) members.now }
{
    if members.len() < 3 * f as usize + 1 {
        Some(ViewFault::TooFew)
    } else if MEMBERS < members.len() {
        Some(ViewFault::TooMany)
    } else if repeats(members) {
        Some(ViewFault::Repeated)
    } else if has_zero(members) {
        Some(ViewFault::Zero)
    } else if LAST_VIEW < number {
        Some(ViewFault::Spent)
    } else {
        None
    }
}

fn sorted(mut members: Vec<MemberId>) -> Vec<MemberId>
    ensures { result.items ≡ sorted members.items }
{
    members.sort_unstable();
    members
}

/// The view that members in any order make, or their first fault. It needs no memory.
pub fn make(number: u32, start: u64, members: Vec<MemberId>, f: u8) -> Result<View, ViewFault>
    requires some { 1 ≤ start }
    requires small { start ≤ 2 ^ 63 }
    ensures { result ≡ made number start members.items f }
{
    match fault_of(number, members.as_slice(), f) {
        Some(fault) => Err(fault),
        None => Ok(View::checked(number, start, f, sorted(members)).unwrap()),
    }
}
