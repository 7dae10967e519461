//! How many members marked a digest, and what enough of them marked.
ghost use Rattle.std.specs.Prelude.{◌≡◌, ◌&&◌, filter, length};
ghost use Rattle.std.specs.List.{list_any};
ghost use Rattle.std.specs.Ordering.{is_lt};
ghost use Rattle.state_marks.specs.Tables.{is_of, is_at, count_of, lesser, least_of, repeats, byte_order, is_mark_of, has_marked, is_marked, leads, is_led_by, better, certified};

use smart_base::bytes::Digest32;
use smart_base::equality::same_bytes;
use smart_base::name::MemberId;
use smart_base::number::Place;
use smart_base::view::View;
use smart_statements::report::Mark;
use smart_statements::signed::Signed;

fn is_of(member: u16, mark: &Signed<Mark>) -> bool
    ensures { result ≡ is_of member mark.now }
{
    mark.signer() == member
}

/// Whether a mark is this member's of this place.
pub fn is_at(member: u16, place: Place, mark: &Signed<Mark>) -> bool
    ensures { result ≡ is_at member place mark.now }
{
    mark.signer() == member && mark.statement().place == place
}

/// Whether one of the marks is this one's signer's of the same place.
pub fn repeats(marks: &[Signed<Mark>], mark: &Signed<Mark>) -> bool
    ensures { result ≡ repeats marks.now mark.now }
{
    marks.iter().any(|other| is_at(mark.signer(), mark.statement().place, other))
}

/// How many of the marks are this member's.
pub fn count_of(marks: &[Signed<Mark>], member: u16) -> usize
    ensures { result ≡ count_of member marks.now }
{
    marks.iter().filter(|mark| is_of(member, mark)).count()
}

fn lesser(mark: &Signed<Mark>, member: u16, place: Place) -> Place
    ensures { result ≡ lesser member place mark.now }
{
    if is_of(member, mark) && mark.statement().place < place {
        mark.statement().place
    } else {
        place
    }
}

/// The least of a place and of those that a member marked.
pub fn least_of(marks: &[Signed<Mark>], member: u16, place: Place) -> Place
    ensures { result ≡ least_of member place marks.now }
{
    let mut least = place;
    for mark in marks {
        least = lesser(mark, member, least);
    }
    least
}

fn is_before<'a>(text: &'a [u8], other: &'a [u8]) -> bool
    ensures { result ≡ is_lt (byte_order text.now other.now) }
{
    text < other
}

/// Whether a mark is this member's, of the wanted place and digest.
pub fn is_mark_of(wanted: &Mark, member: MemberId, mark: &Signed<Mark>) -> bool
    ensures { result ≡ is_mark_of wanted.now member mark.now }
{
    mark.signer() == member.get()
        && mark.statement().place == wanted.place
        && same_bytes(mark.statement().digest.as_slice(), wanted.digest.as_slice())
}

fn has_marked(marks: &[Signed<Mark>], wanted: &Mark, member: MemberId) -> bool
    ensures { result ≡ has_marked marks.now wanted.now member }
{
    marks.iter().any(|mark| is_mark_of(wanted, member, mark))
}

/// How many members of a view marked the same as this one.
pub fn count_markers(view: &View, marks: &[Signed<Mark>], wanted: &Mark) -> usize
    ensures { result ≡ length (filter (has_marked marks.now wanted.now) view.now.members) }
{
    view.members()
        .iter()
        .filter(|member| has_marked(marks, wanted, **member))
        .count()
}

/// Whether more members of a view than may be faulty marked the same as this one.
fn is_marked(view: &View, marks: &[Signed<Mark>], wanted: &Mark) -> bool
    ensures { result ≡ is_marked view.now marks.now wanted.now }
{
    (view.f() as usize) < count_markers(view, marks, wanted)
}

/// Whether a mark goes before what was found: it is of a greater place, or of that place and a lower
/// digest.
fn leads(mark: &Mark, found: &Option<(Place, Digest32)>) -> bool
    ensures { result ≡ leads mark.now found.now }
{
    match found {
        None => true,
        Some((place, digest)) => {
            *place < mark.place
                || *place == mark.place && is_before(mark.digest.as_slice(), digest.as_slice())
        }
    }
}

/// Whether a mark is a better one than what was found, and a certified one.
fn is_led_by(
    view: &View,
    marks: &[Signed<Mark>],
    found: &Option<(Place, Digest32)>,
    mark: &Signed<Mark>,
) -> bool
    ensures { result ≡ is_led_by view.now marks.now found.now mark.now }
{
    leads(mark.statement(), found)
        && view.is_member(MemberId::new(mark.signer()))
        && is_marked(view, marks, mark.statement())
}

/// The better of what was found and of a mark.
fn better(
    view: &View,
    marks: &[Signed<Mark>],
    found: Option<(Place, Digest32)>,
    mark: &Signed<Mark>,
) -> Option<(Place, Digest32)>
    ensures { result ≡ better view.now marks.now found mark.now }
{
    if is_led_by(view, marks, &found, mark) {
        Some((mark.statement().place, mark.statement().digest))
    } else {
        found
    }
}

/// The greatest place that enough members marked alike, and of its digests the lowest.
#[tactic(auto, unfolding(crate::specs::Tables::certified))]
pub fn certified(view: &View, marks: &[Signed<Mark>]) -> Option<(Place, Digest32)>
    ensures { result ≡ certified view.now marks.now }
{
    let mut found = None;
    for mark in marks {
        found = better(view, marks, found, mark);
    }
    found
}
