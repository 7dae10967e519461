//! A list of views with one more.
ghost use Rattle.std.specs.Prelude.{◌≡◌, ◌++◌, ◌∷◌, [], IfOk};

use smart_base::duplicate::Duplicate;
use smart_base::view::{View, Views};
use std::alloc::{AllocError, Global};

/// Views, and one more behind them. Error: want of memory.
pub fn with_view(alloc: Global, views: &Views, view: View) -> Result<Views, AllocError>
    ensures { IfOk result (λ more. more ≡ views.now ++ view ∷ []) }
{
    let old = views.as_slice();
    let mut list = Vec::with_capacity(alloc, old.len())?;
    for view in old {
        list.push(view.duplicate(alloc)?)?;
    }
    list.push(view)?;
    Ok(Views::from_vec(list))
}
