//! Views of a group.
ghost use Rattle.std.specs.Prelude.{◌≡◌, [], ◌∷◌, IfOk, Option, if◌then◌else◌, Some, None, true, length, ◌<◌, ◌≤◌};
ghost use Rattle.smart_base.specs.Views.{is_view, ascends, quorum, is_member, leader, present};

use crate::duplicate::Duplicate;
use crate::limits::{FAULTY, LAST_VIEW, MEMBERS};
use crate::name::MemberId;
use crate::number::{Regency, ViewNo};
use crate::sequence::Sequence;
use std::alloc::{AllocError, Global};
use std::marker::Model;

/// The members of a group from a place on, and how many of them may be faulty
/// (Mod-SMaRt, EDCC 2012; views that change: BFT-SMaRt, DSN 2014). There are at most 31 members,
/// at least 3f+1, ascending and each at least 1; f is at most 10, the number at most 1,023, and the
/// first place from 1 to 2^63.
pub struct View {
    number: ViewNo,
    start: u64,
    f: u8,
    members: Sequence<MemberId>,
}

/// Let go by one call, so that no function that lets one go carries the whole of it.
impl Drop for View {
    fn drop(self) {
        let View {
            number: _,
            start: _,
            f: _,
            members: _,
        } = self;
    }
}

impl Model for View {
    ghost use Rattle.std.specs.Prelude.{◌≡◌, true};
    ghost use Rattle.smart_base.specs.Views.{View, is_view};

    ghost Value = { View };

    ghost view = { λ v. record { number = v.number; start = v.start; f = v.f; members = v.members } };

    ghost invariant = { λ v. is_view (record { number = v.number; start = v.start; f = v.f; members = v.members }) ≡ true };
}

impl Duplicate for View {
    fn duplicate(&self, alloc: Global) -> Result<View, AllocError> {
        Ok(View {
            number: self.number,
            start: self.start,
            f: self.f,
            members: self.members.duplicate(alloc)?,
        })
    }
}

fn ascends(members: &[MemberId]) -> bool
    ensures { result ≡ ascends 0 members.now }
{
    let mut last = 0;
    for member in members {
        let number = member.get();
        if number <= last {
            return false;
        }
        last = number;
    }
    true
}

impl View {
    /// A view, exactly where these are the parts of one.
    #[tactic(auto, unfolding(crate::specs::Views::is_view))]
    pub fn checked(number: u32, start: u64, f: u8, members: Vec<MemberId>) -> Option<View>
        ensures { result ≡ (if is_view (record { number = number; start = start; f = f; members = members.items }) then Some (record { number = number; start = start; f = f; members = members.items }) else None) }
    {
        if number <= LAST_VIEW
            && 1 <= start
            && start <= 1 << 63
            && f <= FAULTY
            && 3 * f as usize + 1 <= members.len()
            && members.len() <= MEMBERS
            && ascends(members.as_slice())
        {
            Some(View {
                number: ViewNo::new(number),
                start,
                f,
                members: Sequence::from_vec(members),
            })
        } else {
            None
        }
    }

    /// A view of the parts of one.
    pub fn new(number: ViewNo, start: u64, f: u8, members: Sequence<MemberId>) -> View
        requires { is_view (record { number = number; start = start; f = f; members = members }) ≡ true }
        ensures { result ≡ record { number = number; start = start; f = f; members = members } }
    {
        View {
            number,
            start,
            f,
            members,
        }
    }

    /// Its number, from 0 on.
    pub fn number(&self) -> ViewNo
        ensures { result ≡ self.now.number }
    {
        self.number
    }

    /// The first place that is decided in this view.
    pub fn start(&self) -> u64
        ensures { result ≡ self.now.start }
    {
        self.start
    }

    /// How many members may be faulty.
    pub fn f(&self) -> u8
        ensures { result ≡ self.now.f }
    {
        self.f
    }

    /// The members, ascending.
    pub fn members(&self) -> &[MemberId]
        ensures value { result.now ≡ self.now.members }
        ensures view { is_view self.now ≡ true }
    {
        self.members.as_slice()
    }

    /// How many members make a Byzantine quorum: any two share a member that is not faulty.
    pub fn quorum(&self) -> usize
        ensures { result ≡ quorum self.now }
    {
        (self.members.len() + self.f as usize) / 2 + 1
    }

    pub fn is_member(&self, member: MemberId) -> bool
        ensures { result ≡ is_member self.now member }
    {
        self.members.as_slice().iter().any(|m| *m == member)
    }

    /// The leader of a regency: the members take turns (this project's own rule).
    pub fn leader(&self, regency: Regency) -> MemberId
        ensures { result ≡ leader self.now regency }
    {
        let members = self.members.as_slice();
        if members.is_empty() {
            return MemberId::new(0);
        }
        members[regency.get() as usize % members.len()]
    }
}

/// The views that a list of batches has been decided in, the present one last. There is one at
/// least.
pub struct Views {
    list: Vec<View>,
}

/// Let go by one call, so that no function that lets one go carries the whole of it.
impl Drop for Views {
    fn drop(self) {
        let Views { list: _ } = self;
    }
}

impl Model for Views {
    ghost use Rattle.std.specs.Prelude.{List, length, ◌<◌};
    ghost use Rattle.smart_base.specs.Views.{View};

    ghost Value = { List View };

    ghost view = { λ v. v.list.items };

    ghost invariant = { λ v. 0 < length v.list.items };
}

impl Views {
    pub fn new(alloc: Global, view: View) -> Result<Self, AllocError>
        ensures { IfOk result (λ views. views ≡ view ∷ []) }
    {
        let mut list = Vec::new(alloc);
        list.push(view)?;
        Ok(Views { list })
    }

    /// These views, in their order. It takes no memory.
    pub fn from_vec(list: Vec<View>) -> Self
        requires { 0 < length list.items }
        ensures { result ≡ list.items }
    {
        Views { list }
    }

    /// All of them, in their order.
    pub fn as_slice(&self) -> &[View]
        ensures value { result.now ≡ self.now }
        ensures some { 0 < length result.now }
    {
        self.list.as_slice()
    }

    /// The view that is in force.
    pub fn present(&self) -> &View
        ensures { result.now ≡ present self.now }
    {
        &self.list[self.list.len() - 1]
    }
}
