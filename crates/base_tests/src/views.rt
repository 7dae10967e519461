//! The bytes of a view, what makes no view, and the sizes that a view gives.
use smart_base::cursor::Cursor;
use smart_base::name::MemberId;
use smart_base::view::View;
use smart_base::view_bytes::{put_view, read_view};
use smart_view::fault::ViewFault;
use smart_view::making::make;
use smart_view::size::{collect_size, quorum, stop_size};
use std::alloc::Global;
use std::process::Abort;

/// View 2 from place 5 on, of which 1 may be faulty: members 1, 3, 4 and 7.
const VIEW: [u8; 23] = *b"\0\0\0\x02\0\0\0\0\0\0\0\x05\x01\0\x04\0\x01\0\x03\0\x04\0\x07";

/// Whether the bytes of a view are these.
fn is_written(alloc: Global, view: &View, want: &[u8]) -> bool {
    let mut out = Vec::new(alloc);
    put_view(&mut out, view).is_ok() && out.as_slice() == want
}

#[test]
fn a_view_is_its_number_start_faults_and_members(rt: HostRuntime) {
    let read = read_view(rt.alloc(), &mut Cursor::new(&VIEW)).ok();
    let view = read.expect(&rt, "a view");
    assert!(rt; view.number().get() == 2 && view.start() == 5);
    assert!(rt; view.f() == 1 && view.members().len() == 4);
    assert!(rt; is_written(rt.alloc(), &view, &VIEW));
}

fn members(rt: &impl Abort, alloc: Global, numbers: &[u16]) -> Vec<MemberId> {
    let mut list = Vec::new(alloc);
    for number in numbers {
        list.push(MemberId::new(*number))
            .expect(rt, "there is memory");
    }
    list
}

/// The members 1, 2 and so on.
fn first_members(rt: &impl Abort, alloc: Global, count: u16) -> Vec<MemberId> {
    let mut list = Vec::new(alloc);
    for number in 0..count {
        list.push(MemberId::new(number.saturating_add(1)))
            .expect(rt, "there is memory");
    }
    list
}

/// Whether a quorum, a collect and a stop of so many members are of these sizes.
fn has_sizes(rt: &impl Abort, alloc: Global, n: u16, f: u8, sizes: [usize; 3]) -> bool {
    let view = make(0, 1, first_members(rt, alloc, n), f).ok();
    let view = view.expect(rt, "a view");
    let [quorums, collects, stops] = sizes;
    quorum(&view) == quorums && collect_size(&view) == collects && stop_size(&view) == stops
}

#[test]
fn sizes_are_those_of_the_published_protocol(rt: HostRuntime) {
    assert!(rt; has_sizes(&rt, rt.alloc(), 1, 0, [1, 1, 1]));
    assert!(rt; has_sizes(&rt, rt.alloc(), 4, 1, [3, 3, 3]));
    assert!(rt; has_sizes(&rt, rt.alloc(), 5, 1, [4, 4, 3]));
    assert!(rt; has_sizes(&rt, rt.alloc(), 7, 2, [5, 5, 5]));
    assert!(rt; has_sizes(&rt, rt.alloc(), 10, 2, [7, 8, 5]));
    assert!(rt; has_sizes(&rt, rt.alloc(), 31, 10, [21, 21, 21]));
}

/// The fault of a view of a number and these members.
fn fault(rt: &impl Abort, alloc: Global, number: u32, numbers: &[u16]) -> ViewFault {
    let made = make(number, 1, members(rt, alloc, numbers), 1);
    made.err().expect(rt, "a fault")
}

/// Whether a fault has this name and this number.
fn is_called(fault: ViewFault, name: &str, code: u8) -> bool {
    fault.name() == name && fault.code() == code
}

#[test]
fn each_fault_of_a_view_has_a_name_and_a_number(rt: HostRuntime) {
    let few = fault(&rt, rt.alloc(), 0, &[1, 2, 3]);
    assert!(rt; is_called(few, "TooFew", 1));
    let many = fault(&rt, rt.alloc(), 0, &[0; 34]);
    assert!(rt; is_called(many, "TooMany", 2));
    let repeated = fault(&rt, rt.alloc(), 0, &[1, 2, 2, 3]);
    assert!(rt; is_called(repeated, "Repeated", 3));
    let zero = fault(&rt, rt.alloc(), 0, &[0, 1, 2, 3]);
    assert!(rt; is_called(zero, "Zero", 4));
    let spent = fault(&rt, rt.alloc(), 1024, &[1, 2, 3, 4]);
    assert!(rt; is_called(spent, "Spent", 5));
}
