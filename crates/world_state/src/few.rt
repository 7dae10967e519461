//! Whether few members of each view are faulty.
ghost use Rattle.std.specs.Prelude.{◌≡◌, length, filter};
ghost use Rattle.world_rules.specs.Premises.{is_among, too_many, too_many_in};

use smart_base::name::MemberId;
use smart_base::view::View;
use world_hosts::host::is_among;

/// The number of a view's members that are faulty.
fn count_faulty(view: &View, faulty: &[MemberId]) -> usize
    ensures { result ≡ length (filter (is_among faulty.now) view.now.members) }
{
    view.members()
        .iter()
        .filter(|member| is_among(faulty, **member))
        .count()
}

/// Whether more than f of a view's members are faulty.
fn too_many(view: &View, faulty: &[MemberId]) -> bool
    ensures { result ≡ too_many view.now faulty.now }
{
    (view.f() as usize) < count_faulty(view, faulty)
}

/// Whether more than f of the members of one of some views are faulty.
pub fn too_many_in(views: &[View], faulty: &[MemberId]) -> bool
    ensures { result ≡ too_many_in views.now faulty.now }
{
    views.iter().any(|view| too_many(view, faulty))
}
