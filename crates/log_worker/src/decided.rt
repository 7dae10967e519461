//! The greatest place that is decided in a group of entries.
ghost use Rattle.std.specs.Prelude.{◌≡◌, ◌++◌, is_some};
ghost use Rattle.store_laws.specs.States.{some, group_of};

use smart_base::cursor::Cursor;
use smart_base::fault::Unread;
use smart_base::sequence::Bytes;
use store_plan::stops::Stops;

/// The first byte of an entry that decides a place.
pub const DECIDED: u8 = 6;

/// Reads a kind, the number of a view and a place.
fn read_place(cut: &mut Cursor<'_>) -> Result<u64, Unread> {
    let kind = cut.take_u8()?;
    let _view = cut.take_u32()?;
    let place = cut.take_u64()?;
    if kind == DECIDED { Ok(place) } else { Ok(0) }
}

/// The place that an entry decides, 0 if it decides none.
pub fn decided_at(text: &[u8]) -> u64 {
    match read_place(&mut Cursor::new(text)) {
        Ok(place) => place,
        Err(_) => 0,
    }
}

/// The greatest place that is decided in the group with which these entries begin, and whether an entry
/// ends the group before their end.
fn decided_in<E: Stops>(texts: &[Bytes]) -> (u64, bool) {
    let mut most = 0;
    for text in texts {
        if E::stops(text.as_slice()) {
            return (most, true);
        }
        most = most.max(decided_at(text.as_slice()));
    }
    (most, false)
}

/// Whether a group is made of entries that wait and of more: there is one, and the first ends no group.
#[tactic(auto, using(crate::proofs::Grouped::group_waits, crate::proofs::Grouped::group_comes, crate::proofs::Grouped::group_none))]
fn is_group<E: Stops>(waiting: &[Bytes], more: &[Bytes]) -> bool
    ensures { result ≡ some (group_of E.stops (waiting.now ++ more.now)) }
{
    match waiting.first() {
        Some(entry) => !E::stops(entry.as_slice()),
        None => match more.first() {
            Some(entry) => !E::stops(entry.as_slice()),
            None => false,
        },
    }
}

/// The greatest place that is decided in the group that is made of entries that wait and of more, 0 if
/// there is none. `None` if no group is made of them.
pub fn most_decided<E: Stops>(waiting: &[Bytes], more: &[Bytes]) -> Option<u64>
    ensures { is_some result ≡ some (group_of E.stops (waiting.now ++ more.now)) }
{
    if !is_group::<E>(waiting, more) {
        return None;
    }
    let (first, is_ended) = decided_in::<E>(waiting);
    if is_ended {
        return Some(first);
    }
    let (second, _) = decided_in::<E>(more);
    Some(first.max(second))
}
