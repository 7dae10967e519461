//! What a client makes of a member's statement of a view.
ghost use Rattle.std.specs.Prelude.{◌≡◌, ◌==◌, ◌++◌, ◌∷◌, [], List, filter, not, IfOk, OnOk, OnErr};
ghost use Rattle.smart_statements.specs.Forms.{SignedBy};
ghost use Rattle.smart_messages.specs.declared.regency.ViewInfo.{ViewInfo};
ghost use Rattle.client_quorum.specs.ViewWords.{why_untold, with_info, count_told, told, after_told};

use crate::client::{Client, Heard, Ignored};
use crate::counting::{has_as_new, stating};
use reconfig::views::with_view;
use smart_base::duplicate::Duplicate;
use smart_base::name::MemberId;
use smart_base::sequence::Sequence;
use smart_base::view::Views;
use smart_keys::ring::Ring;
use smart_messages::regency::ViewInfo;
use smart_statements::signed::Signed;
use std::alloc::{AllocError, Global};

/// The first reason for which a client ignores a statement of a view.
#[tactic(auto, unfolding(crate::specs::ViewWords::why_untold))]
fn why_untold(ring: &Ring, client: &Client, info: &Signed<ViewInfo>) -> Option<Ignored>
    ensures { result ≡ why_untold ring.now client.now info.now }
{
    let (present, number) = (client.view(), info.statement().view.number());
    if !info.verifies(ring) {
        Some(Ignored::BadTag)
    } else if number <= present.number() {
        Some(Ignored::OldView)
    } else if !present.is_member(MemberId::new(info.signer())) {
        Some(Ignored::Stranger)
    } else if has_as_new(client.infos.as_slice(), info.signer(), number) {
        Some(Ignored::Repeated)
    } else {
        None
    }
}

fn is_of(member: u16, info: &Signed<ViewInfo>) -> bool
    ensures { result ≡ (info.now.signer == member) }
{
    info.signer() == member
}

/// Forgets what a member stated.
fn forget(infos: &mut Vec<Signed<ViewInfo>>, member: u16)
    ensures { infos.new.items ≡ filter (λ k. not (k.signer == member)) infos.old.items }
{
    infos.retain(|info| !is_of(member, info));
}

/// Statements of views with one more, in place of what its member stated before. Error: want of memory.
fn with_info(
    alloc: Global,
    infos: &Sequence<Signed<ViewInfo>>,
    info: &Signed<ViewInfo>,
) -> Result<Sequence<Signed<ViewInfo>>, AllocError>
    ensures { IfOk result (λ more. more ≡ with_info infos.now info.now) }
{
    let mut more = infos.duplicate(alloc)?.into_vec();
    forget(&mut more, info.signer());
    more.push(info.duplicate(alloc)?)?;
    Ok(Sequence::from_vec(more))
}

impl Client {
    /// The views that it knows with that of a statement, if it takes it over. Error: want of memory.
    fn more_views(&self, alloc: Global, info: &Signed<ViewInfo>) -> Result<Views, AllocError>
        ensures { IfOk result (λ views. views ≡ self.now.views ++ info.now.statement.view ∷ []) }
    {
        with_view(alloc, &self.views, info.statement().view.duplicate(alloc)?)
    }

    /// Counts a statement of a view, and takes the view over if enough members have stated it. Error:
    /// want of memory; nothing is counted then.
    fn count_view(&mut self, alloc: Global, info: &Signed<ViewInfo>) -> Result<Heard, AllocError>
        ensures heard { IfOk result (λ h. h ≡ count_told self.old info.now) }
        ensures client { OnOk result (self.new ≡ after_told self.old info.now (count_told self.old info.now)) }
        ensures unheard { OnErr result (self.new ≡ self.old) }
    {
        let view = &info.statement().view;
        let infos = with_info(alloc, &self.infos, info)?;
        let have = stating(self.view(), infos.as_slice(), view);
        let most = self.view().f() as usize;
        if most < have {
            self.views = self.more_views(alloc, info)?;
            self.infos = infos;
            Ok(Heard::Moved(view.number()))
        } else {
            self.infos = infos;
            Ok(Heard::Viewed {
                have: have as u64,
                need: most as u64 + 1,
            })
        }
    }

    /// Hears a member's statement of a view. Error: want of memory; the client has not heard it then.
    #[tactic(auto, unfolding(crate::specs::ViewWords::told))]
    pub fn hear_view(
        &mut self,
        alloc: Global,
        ring: &Ring,
        info: &Signed<ViewInfo>,
    ) -> Result<Heard, AllocError>
        ensures heard { IfOk result (λ h. h ≡ told ring.now self.old info.now) }
        ensures client { OnOk result (self.new ≡ after_told self.old info.now (told ring.now self.old info.now)) }
        ensures unheard { OnErr result (self.new ≡ self.old) }
    {
        if let Some(why) = why_untold(ring, self, info) {
            return Ok(Heard::Ignored(why));
        }
        self.count_view(alloc, info)
    }
}
