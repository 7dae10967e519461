//! Views that begin.
ghost use Rattle.std.specs.Prelude.{◌≡◌, ◌++◌, OnOk};
ghost use Rattle.node_replica.specs.Begun.{number_begun, viewed};

use node_rules::node::Fired;
use smart_base::number::ViewNo;
use smart_base::sequence::Sequence;
use smart_service::replica::Replica;
use std::alloc::AllocError;

/// The number of the present view of a later replica, if an earlier one is in another view.
pub(crate) fn number_begun<S>(before: &Replica<S>, now: &Replica<S>) -> Option<ViewNo>
    ensures { result ≡ number_begun before.now.views now.now.views }
{
    let number = now.views.present().number();
    if before.views.present().number() == number {
        None
    } else {
        Some(number)
    }
}

/// Tells the number of a view that began, if one did. Error: want of memory.
pub(crate) fn tell_view(
    begun: Option<ViewNo>,
    fired: &mut Sequence<Fired>,
) -> Result<(), AllocError>
    ensures { OnOk result (fired.new ≡ fired.old ++ viewed begun) }
{
    match begun {
        None => Ok(()),
        Some(number) => fired.push(Fired::Viewed(number)),
    }
}
