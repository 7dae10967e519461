//! The counting of members that gave a reply, or stated a view.
ghost use Rattle.std.specs.Prelude.{◌≡◌, ◌==◌, ◌&&◌};
ghost use Rattle.std.specs.List.{list_any};
ghost use Rattle.client_quorum.specs.Clients.{same_answer, has_answer, have};
ghost use Rattle.smart_base.specs.Lists.{same_bytes};
ghost use Rattle.client_quorum.specs.ViewWords.{same_view, is_as_new, has_stated, stating};

use smart_base::equality::same_bytes;
use smart_base::name::MemberId;
use smart_base::number::ViewNo;
use smart_base::view::View;
use smart_messages::regency::ViewInfo;
use smart_statements::signed::Signed;
use smart_statements::statement::Answer;

fn same_answer(a: &Answer, b: &Answer) -> bool
    ensures { result ≡ same_answer a.now b.now }
{
    a.view == b.view
        && a.place == b.place
        && a.index == b.index
        && same_bytes(a.reply.as_slice(), b.reply.as_slice())
}

fn is_answer_of(reply: &Signed<Answer>, answer: &Answer, member: MemberId) -> bool
    ensures { result ≡ (reply.now.signer == member) && same_answer reply.now.statement answer.now }
{
    reply.signer() == member.get() && same_answer(reply.statement(), answer)
}

fn has_answer(replies: &[Signed<Answer>], answer: &Answer, member: MemberId) -> bool
    ensures { result ≡ has_answer replies.now answer.now member }
{
    replies
        .iter()
        .any(|reply| is_answer_of(reply, answer, member))
}

/// The number of members of a view that gave this reply.
pub fn have(view: &View, replies: &[Signed<Answer>], answer: &Answer) -> usize
    ensures { result ≡ have view.now replies.now answer.now }
{
    view.members()
        .iter()
        .filter(|member| has_answer(replies, answer, **member))
        .count()
}

/// Whether a member gave any of the replies.
pub fn has_signer(replies: &[Signed<Answer>], signer: u16) -> bool
    ensures { result ≡ list_any (λ r. r.signer == signer) replies.now }
{
    replies.iter().any(|r| r.signer() == signer)
}

/// Whether two lists name the same members, in the same order.
fn same_members(a: &[MemberId], b: &[MemberId]) -> bool
    ensures { result ≡ same_bytes a.now b.now }
{
    if a.len() != b.len() {
        return false;
    }
    for (i, x) in a.iter().enumerate() {
        if *x != b[i] {
            return false;
        }
    }
    true
}

fn same_view(a: &View, b: &View) -> bool
    ensures { result ≡ same_view a.now b.now }
{
    a.number() == b.number()
        && a.start() == b.start()
        && a.f() == b.f()
        && same_members(a.members(), b.members())
}

fn is_statement_of(info: &Signed<ViewInfo>, view: &View, member: MemberId) -> bool
    ensures { result ≡ (info.now.signer == member) && same_view info.now.statement.view view.now }
{
    info.signer() == member.get() && same_view(&info.statement().view, view)
}

fn has_stated(infos: &[Signed<ViewInfo>], view: &View, member: MemberId) -> bool
    ensures { result ≡ has_stated infos.now view.now member }
{
    infos.iter().any(|info| is_statement_of(info, view, member))
}

/// The number of members of a view that stated another view.
pub fn stating(present: &View, infos: &[Signed<ViewInfo>], view: &View) -> usize
    ensures { result ≡ stating present.now infos.now view.now }
{
    present
        .members()
        .iter()
        .filter(|member| has_stated(infos, view, **member))
        .count()
}

fn is_as_new(member: u16, number: ViewNo, info: &Signed<ViewInfo>) -> bool
    ensures { result ≡ is_as_new member number info.now }
{
    info.signer() == member && number <= info.statement().view.number()
}

/// Whether a member stated a view of this number or a later one.
pub fn has_as_new(infos: &[Signed<ViewInfo>], member: u16, number: ViewNo) -> bool
    ensures { result ≡ list_any (is_as_new member number) infos.now }
{
    infos.iter().any(|info| is_as_new(member, number, info))
}
