//! The view that a change begins.
ghost use Rattle.std.specs.Prelude.{◌≡◌, ◌≤◌, ◌^◌, IfErr};
ghost use Rattle.smart_base.specs.Views.{present};
ghost use Rattle.reconfig.specs.Applied.{applied, IsFirst};

use crate::change::Change;
use smart_base::view::{View, Views};
use smart_view::fault::ViewFault;
use smart_view::making::make;

fn next_view(view: &View, change: Change, start: u64) -> Result<View, ViewFault>
    requires some { 1 ≤ start }
    requires small { start ≤ 2 ^ 63 }
    ensures { result ≡ applied view.now start change }
{
    // That the number is small is known of the members.
    let _members = view.members();
    let number = view.number().get() + 1;
    let (f, members) = change.into_parts();
    make(number, start, members.into_vec(), f)
}

/// The view that a change makes of a view, from a place on. It has the next number, and the change's
/// members in order. Error: the first fault of its parts. It takes no memory.
pub fn applied(view: &View, change: Change, start: u64) -> Result<View, ViewFault>
    requires some { 1 ≤ start }
    requires small { start ≤ 2 ^ 63 }
    ensures value { result ≡ applied view.now start change }
    ensures cause { IfErr result (λ fault. IsFirst fault view.now change) }
{
    next_view(view, change, start)
}

/// The view that a change makes of the last of some views, from a place on. Error: the first fault of
/// its parts. It takes no memory.
pub fn apply(views: &Views, change: Change, start: u64) -> Result<View, ViewFault>
    requires some { 1 ≤ start }
    requires small { start ≤ 2 ^ 63 }
    ensures value { result ≡ applied (present views.now) start change }
    ensures cause { IfErr result (λ fault. IsFirst fault (present views.now) change) }
{
    applied(views.present(), change, start)
}
