//! Sizes of sets of members, and the index of a member.
ghost use Rattle.std.specs.Prelude.{◌≡◌};
ghost use Rattle.smart_base.specs.Views.{quorum, leader};
ghost use Rattle.smart_view.specs.Sizes.{collect_size, stop_size, index_of};

use smart_base::name::MemberId;
use smart_base::number::Regency;
use smart_base::view::View;

/// The size of a quorum: any two sets of this size share a member that is not faulty.
pub fn quorum(view: &View) -> usize
    ensures { result ≡ quorum view.now }
{
    view.quorum()
}

/// n-f: as many members as answer if f are silent.
pub fn collect_size(view: &View) -> usize
    ensures { result ≡ collect_size view.now }
{
    view.members().len() - view.f() as usize
}

/// 2f+1: as many members that more than f of them are not faulty.
pub fn stop_size(view: &View) -> usize
    ensures { result ≡ stop_size view.now }
{
    2 * view.f() as usize + 1
}

/// The index of a member among the members, which ascend; `None` if and only if it is no member.
pub fn index_of(view: &View, member: MemberId) -> Option<usize>
    ensures { result ≡ index_of view.now member }
{
    view.members().iter().position(|m| *m == member)
}

/// The member that leads a regency.
pub fn leader(view: &View, regency: Regency) -> MemberId
    ensures { result ≡ leader view.now regency }
{
    view.leader(regency)
}
