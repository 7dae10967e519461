//! Lists of signed statements, checked one by one.
ghost use Rattle.std.specs.Prelude.{◌≡◌, ◌++◌, [], ◌∷◌, List, ℕ, Bool, ◌<◌, nat_le, length, OnOk, IfSome};
ghost use Rattle.smart_base.specs.declared.limits.TheConstants.{MEMBERS};
ghost use Rattle.smart_view.specs.Sizes.{index_of};
ghost use Rattle.certificates.specs.Certificates.{Marks, signer_fault, item_fault, first_fault, passed};

use crate::fault::CertFault;
use smart_base::limits::MEMBERS;
use smart_base::view::View;
use smart_keys::ring::Ring;
use smart_statements::signed::{Signed, Statement};

/// What each statement of a list has to be.
pub trait Wanted<S: Statement> {
    ghost is_wanted: { List ℕ → Self → S → Bool };

    /// Whether a statement is that, whoever signed it.
    fn is_met(&self, ring: &Ring, statement: &S) -> bool
        ensures { result ≡ is_wanted ring.now self.now statement.now };
}

/// The index of a signer among the members, if it is one.
fn index_of(view: &View, signer: u16) -> Option<usize>
    ensures index { result ≡ index_of view.now signer }
    ensures few { IfSome result (λ i. i < MEMBERS) }
{
    view.members().iter().position(|m| m.get() == signer)
}

/// Marks a signer, unless it is no member or was marked before.
fn mark(view: &View, signer: u16, marks: &mut [bool; MEMBERS]) -> Result<(), CertFault>
    ensures value { (earlier : List ℕ) → Marks view.now earlier marks.old → result ≡ passed (signer_fault view.now earlier signer) }
    ensures marks { (earlier : List ℕ) → Marks view.now earlier marks.old → OnOk result (Marks view.now (earlier ++ signer ∷ []) marks.new) }
{
    let Some(index) = index_of(view, signer) else {
        return Err(CertFault::Stranger);
    };
    if marks[index] {
        return Err(CertFault::Twice);
    }
    marks[index] = true;
    Ok(())
}

fn check_item<S: Statement, W: Wanted<S>>(
    ring: &Ring,
    wanted: &W,
    item: &Signed<S>,
) -> Result<(), CertFault>
    ensures { result ≡ passed (item_fault ring.now S.form (W.is_wanted ring.now wanted.now) item.now) }
{
    if !wanted.is_met(ring, item.statement()) {
        Err(CertFault::Unequal)
    } else if !item.verifies(ring) {
        Err(CertFault::BadTag)
    } else {
        Ok(())
    }
}

/// Whether at least `enough` distinct members of a view signed what is wanted, or else the first
/// fault. It needs no memory.
pub fn check_list<S: Statement, W: Wanted<S>>(
    ring: &Ring,
    view: &View,
    wanted: &W,
    enough: usize,
    items: &[Signed<S>],
) -> Result<(), CertFault>
    ensures { result ≡ passed (first_fault view.now (item_fault ring.now S.form (W.is_wanted ring.now wanted.now)) (nat_le enough (length items.now)) items.now) }
{
    let mut marks = [false; MEMBERS];
    for item in items {
        mark(view, item.signer(), &mut marks)?;
        check_item(ring, wanted, item)?;
    }
    if items.len() < enough {
        return Err(CertFault::TooFew);
    }
    Ok(())
}
