//! The marks that a node keeps.
ghost use Rattle.std.specs.Prelude.{◌≡◌, ◌++◌, ◌∷◌, [], filter, not, OnOk, OnErr};
ghost use Rattle.state_marks.specs.Tables.{is_at, repeats, noted, certified};

use crate::counting::{certified, count_of, is_at, least_of, repeats};
use smart_base::bytes::Digest32;
use smart_base::limits::MARKS;
use smart_base::number::Place;
use smart_base::view::View;
use smart_statements::report::Mark;
use smart_statements::signed::Signed;
use std::alloc::{AllocError, Global};
use std::marker::Model;

/// The marks that a node keeps: of each member one of each place, and of those the 64 greatest
/// places (this project's own rule). They stand in the order in which they came. Who calls it has
/// checked that the tags are the signers'.
pub struct MarkTable {
    marks: Vec<Signed<Mark>>,
}

/// Let go by one call, so that no function that lets one go carries the whole of it.
impl Drop for MarkTable {
    fn drop(self) {
        let MarkTable { marks: _ } = self;
    }
}

impl Model for MarkTable {
    ghost use Rattle.std.specs.Prelude.{List};
    ghost use Rattle.smart_statements.specs.Forms.{SignedBy};
    ghost use Rattle.smart_statements.specs.declared.report.Mark.{Mark};
    ghost use Rattle.state_marks.specs.Tables.{IsTable};

    ghost Value = { List (SignedBy Mark) };

    ghost view = { λ t. t.marks.items };

    ghost invariant = { λ t. IsTable t.marks.items };
}

/// Forgets a member's mark of a place.
fn forget(marks: &mut Vec<Signed<Mark>>, member: u16, place: Place)
    ensures { marks.new.items ≡ filter (λ mark. not (is_at member place mark)) marks.old.items }
{
    marks.retain(|mark| !is_at(member, place, mark));
}

/// Keeps a mark among others, of which none, or that of the least place, is forgotten.
#[tactic(auto, unfolding(crate::specs::Tables::noted))]
fn keep(marks: &mut Vec<Signed<Mark>>, mark: Signed<Mark>) -> Result<(), AllocError>
    ensures ok { OnOk result (marks.new.items ≡ noted mark marks.old.items) }
    ensures err { OnErr result (marks.new.items ≡ marks.old.items) }
{
    if repeats(marks.as_slice(), &mark) {
        return Ok(());
    }
    let member = mark.signer();
    let is_full = MARKS <= count_of(marks.as_slice(), member);
    let least = least_of(marks.as_slice(), member, mark.statement().place);
    marks.push(mark)?;
    if is_full {
        forget(marks, member, least);
    }
    Ok(())
}

impl MarkTable {
    /// A table without marks. It takes no memory.
    pub fn new(alloc: Global) -> Self
        ensures { result ≡ [] }
    {
        MarkTable {
            marks: Vec::new(alloc),
        }
    }

    /// The marks that are kept, in the order in which they came.
    pub fn marks(&self) -> &[Signed<Mark>]
        ensures { result.now ≡ self.now }
    {
        self.marks.as_slice()
    }

    /// Whether a mark of that member and place is kept, whatever its digest. It takes no memory.
    pub fn repeats(&self, mark: &Signed<Mark>) -> bool
        ensures { result ≡ repeats self.now mark.now }
    {
        repeats(self.marks.as_slice(), mark)
    }

    /// Keeps a member's mark. One of a place of which a mark of that member is kept changes nothing.
    /// Where 64 marks of the member are kept, its mark of the least place is forgotten, be it the new
    /// one. Without memory nothing changes.
    pub fn note(&mut self, mark: Signed<Mark>) -> Result<(), AllocError>
        ensures ok { OnOk result (self.new ≡ noted mark self.old) }
        ensures err { OnErr result (self.new ≡ self.old) }
    {
        keep(&mut self.marks, mark)?;
        Ok(())
    }

    /// The greatest place that more members of a view than may be faulty marked with one digest, and
    /// of two such digests the lower; `None` exactly where there is none. It takes no memory.
    pub fn certified(&self, view: &View) -> Option<(Place, Digest32)>
        ensures { result ≡ certified view.now self.now }
    {
        certified(view, self.marks.as_slice())
    }
}
