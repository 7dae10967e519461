//! After which places members take their checkpoints.
ghost use Rattle.std.specs.Prelude.{◌<◌, ◌^◌};

use smart_base::cursor::Cursor;
use smart_base::number::Place;
use smart_base::view::View;
use smart_base::view_bytes::read_view;
use state_marks::place::{checkpoint_place, is_mark_place};

/// View 0 from place 1 on, of which 1 may be faulty: members 1 to 4.
const VIEW: [u8; 23] = *b"\0\0\0\0\0\0\0\0\0\0\0\x01\x01\0\x04\0\x01\0\x02\0\x03\0\x04";

/// Whether it is a member's turn after a place, in periods of 10.
fn is_turn(view: &View, index: usize, place: u64) -> bool
    requires { place < 2 ^ 63 }
{
    index < view.members().len() && checkpoint_place(view, 10, index, Place::new(place))
}

/// The first place above another after which it is a member's turn, 0 where the next ten are none.
fn next_turn(view: &View, index: usize, after: u64) -> u64
    requires { after < 1000 }
{
    for place in after + 1..after + 11 {
        if is_turn(view, index, place) {
            return place;
        }
    }
    0
}

/// How many of the places from 1 to 20 are marked.
fn count_marked(view: &View) -> u64 {
    let mut count = 0u64;
    for place in 1..21 {
        if is_mark_place(view, 10, Place::new(place)) {
            count = count.saturating_add(1);
        }
    }
    count
}

#[test]
fn members_take_their_turns_after_these_places(rt: HostRuntime) {
    let view = read_view(rt.alloc(), &mut Cursor::new(&VIEW))
        .ok()
        .expect(&rt, "a view");
    assert!(rt; next_turn(&view, 0, 0) == 10 && next_turn(&view, 0, 10) == 20);
    assert!(rt; next_turn(&view, 1, 0) == 2 && next_turn(&view, 1, 2) == 12);
    assert!(rt; next_turn(&view, 2, 0) == 4 && next_turn(&view, 2, 4) == 14);
    assert!(rt; next_turn(&view, 3, 0) == 6 && next_turn(&view, 3, 6) == 16);
    assert!(rt; count_marked(&view) == 8);
}
