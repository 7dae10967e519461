//! Which group is to run, and for how long.
ghost use Rattle.std.specs.Prelude.{◌≡◌};
ghost use Rattle.group_opening.specs.Numbers.{numbers_to};

use smart_base::sequence::Bytes;
use smart_base::view::View;

/// Which group is to run, where its stores and trails are, and what its client is to do.
pub struct GroupSettings {
    /// How many members the group has; their numbers are those from 1 on.
    pub members: u16,
    /// How many of them may be faulty.
    pub faulty: u8,
    /// The directory of the stores and the trails.
    pub dir: Bytes,
    /// The secret of the group.
    pub secret: Bytes,
    /// The group's first view.
    pub view: View,
    /// The number of places in which each member takes one checkpoint.
    pub period: u32,
    /// How many amounts the client asks for, one after the other.
    pub asks: u32,
    /// How many polls since one request may find nothing.
    pub turns: u64,
    pub ghost numbered: { view.members ≡ numbers_to members },
    pub ghost fault: { view.f ≡ faulty },
}

/// Let go by one call, so that no function that lets one go carries the whole of it.
impl Drop for GroupSettings {
    fn drop(self) {
        let GroupSettings {
            members: _,
            faulty: _,
            dir: _,
            secret: _,
            view: _,
            period: _,
            asks: _,
            turns: _,
        } = self;
    }
}
