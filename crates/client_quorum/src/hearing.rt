//! What a client makes of a reply, and of bytes.
ghost use Rattle.std.specs.Prelude.{◌≡◌, ◌++◌, ◌∷◌, [], List, Some, IfOk, OnOk, OnErr, option_copied, option_map};
ghost use Rattle.smart_base.specs.Views.{View, quorum};
ghost use Rattle.smart_statements.specs.Forms.{SignedBy};
ghost use Rattle.smart_messages.specs.Messages.{decoded};
ghost use Rattle.smart_statements.specs.declared.statement.Answer.{Answer};
ghost use Rattle.certificates.specs.Collects.{view_numbered};
ghost use Rattle.client_quorum.specs.Clients.{have, is_waited_for, known, why_uncounted, why_ignored, count_heard, heard, after_heard};
ghost use Rattle.client_quorum.specs.Readings.{word_read, heard_word, after_word, heard_bytes, after_bytes};

use crate::client::{Acceptance, Client, Heard, Ignored, Word};
use crate::counting::{has_signer, have};
use smart_base::bytes::Payload;
use smart_base::duplicate::Duplicate;
use smart_base::fault::ReadError;
use smart_base::name::MemberId;
use smart_base::number::ViewNo;
use smart_base::sequence::Sequence;
use smart_base::view::View;
use smart_keys::ring::Ring;
use smart_messages::codec::decode;
use smart_messages::message::Message;
use smart_statements::signed::Signed;
use smart_statements::statement::{Answer, Request};
use std::alloc::{AllocError, Global};

fn is_waited_for(waiting: &Option<Request>, answer: &Answer) -> bool
    ensures { result ≡ is_waited_for waiting.now answer.now }
{
    match waiting {
        None => false,
        Some(request) => request.client == answer.client && request.seq == answer.seq,
    }
}

/// The view of a number, if it is among these.
fn view_numbered(views: &[View], number: ViewNo) -> Option<&View>
    ensures { option_copied result ≡ view_numbered views.now number }
{
    for view in views {
        if view.number() == number {
            return Some(view);
        }
    }
    None
}

/// The first reason for which a client does not count a reply to its waiting request, in the view that
/// the reply states.
fn why_repeated(view: &View, client: &Client, reply: &Signed<Answer>) -> Option<Ignored>
    ensures { result ≡ why_uncounted (Some view.now) client.now reply.now }
{
    if !view.is_member(MemberId::new(reply.signer())) {
        Some(Ignored::Stranger)
    } else if has_signer(client.replies.as_slice(), reply.signer()) {
        Some(Ignored::Repeated)
    } else {
        None
    }
}

/// The same, by that view, if the client knows it.
fn why_uncounted(view: Option<&View>, client: &Client, reply: &Signed<Answer>) -> Option<Ignored>
    ensures { result ≡ why_uncounted (option_copied view.entry) client.now reply.now }
{
    match view {
        None => Some(Ignored::UnknownView),
        Some(view) => why_repeated(view, client, reply),
    }
}

/// The first reason for which a client ignores a reply.
#[tactic(auto, unfolding(crate::specs::Clients::why_ignored))]
fn why_ignored(ring: &Ring, client: &Client, reply: &Signed<Answer>) -> Option<Ignored>
    ensures { result ≡ why_ignored ring.now client.now reply.now }
{
    let answer = reply.statement();
    if !reply.verifies(ring) {
        Some(Ignored::BadTag)
    } else if !is_waited_for(&client.waiting, answer) {
        Some(Ignored::Settled)
    } else {
        let view = view_numbered(client.views.as_slice(), answer.view);
        why_uncounted(view, client, reply)
    }
}

/// The member's word that bytes are, if they are one. Error: want of memory.
pub fn read_word(alloc: Global, bytes: &[u8]) -> Result<Option<Word>, AllocError>
    ensures { IfOk result (λ word. word ≡ word_read (decoded bytes.now)) }
{
    match decode(alloc, bytes) {
        Ok(Message::Reply(reply)) => Ok(Some(Word::Reply(reply))),
        Ok(Message::ViewTold(info)) => Ok(Some(Word::View(info))),
        Ok(_) | Err(ReadError::Unread { .. }) => Ok(None),
        Err(ReadError::NoMemory) => Err(AllocError),
    }
}

/// How many members gave a reply, and how many are needed, in the view that it states; `None` if that is
/// none of these views.
fn votes(views: &[View], replies: &[Signed<Answer>], answer: &Answer) -> Option<(usize, usize)>
    ensures { result ≡ option_map (λ v. (have v replies.now answer.now, quorum v)) (view_numbered views.now answer.now.view) }
{
    match view_numbered(views, answer.view) {
        None => None,
        Some(view) => Some((have(view, replies, answer), view.quorum())),
    }
}

impl Client {
    /// Counts the last reply to the waiting request, and accepts it if a quorum has given it. The client
    /// knows the view that the reply states.
    fn count(
        &mut self,
        alloc: Global,
        reply: &Signed<Answer>,
        request: Request,
        payload: Payload,
    ) -> Heard
        requires { payload ≡ reply.now.statement.reply }
        ensures heard { (replies : List (SignedBy Answer)) → self.old.replies ≡ replies ++ reply.now ∷ [] → (v : View) → known self.old reply.now.statement.view ≡ Some v →
            result ≡ count_heard v (record self.old { replies = replies }) reply.now request }
        ensures client { (replies : List (SignedBy Answer)) → self.old.replies ≡ replies ++ reply.now ∷ [] → (v : View) → known self.old reply.now.statement.view ≡ Some v →
            self.new ≡ after_heard (record self.old { waiting = Some request; replies = replies }) reply.now result }
    {
        let answer = reply.statement();
        let Some((count, need)) = votes(self.views.as_slice(), self.replies.as_slice(), answer)
        else {
            return Heard::Ignored(Ignored::UnknownView);
        };
        if need <= count {
            self.told(answer.place);
            self.replies = Sequence::new(alloc);
            self.waiting = None;
            Heard::Accepted(Acceptance {
                request,
                view: answer.view,
                place: answer.place,
                index: answer.index,
                reply: payload,
            })
        } else {
            self.waiting = Some(request);
            Heard::Counted {
                have: count as u64,
                need: need as u64,
            }
        }
    }

    /// Hears a reply. Error: want of memory; the client has not heard it then.
    #[tactic(auto, unfolding(crate::specs::Clients::heard))]
    pub fn hear_reply(
        &mut self,
        alloc: Global,
        ring: &Ring,
        reply: &Signed<Answer>,
    ) -> Result<Heard, AllocError>
        ensures heard { IfOk result (λ h. h ≡ heard ring.now self.old reply.now) }
        ensures client { OnOk result (self.new ≡ after_heard self.old reply.now (heard ring.now self.old reply.now)) }
        ensures unheard { OnErr result (self.new ≡ self.old) }
    {
        if let Some(why) = why_ignored(ring, self, reply) {
            return Ok(Heard::Ignored(why));
        }
        let kept = reply.duplicate(alloc)?;
        let payload = reply.statement().reply.duplicate(alloc)?;
        match self.waiting.take() {
            None => Ok(Heard::Ignored(Ignored::Settled)),
            Some(request) => match self.replies.push(kept) {
                Err(error) => {
                    self.waiting = Some(request);
                    Err(error)
                }
                Ok(()) => Ok(self.count(alloc, reply, request, payload)),
            },
        }
    }

    /// Hears a member's word. Error: want of memory; the client has not heard it then.
    pub fn hear_word(
        &mut self,
        alloc: Global,
        ring: &Ring,
        word: &Word,
    ) -> Result<Heard, AllocError>
        ensures heard { IfOk result (λ h. h ≡ heard_word ring.now self.old word.now) }
        ensures client { OnOk result (self.new ≡ after_word self.old word.now (heard_word ring.now self.old word.now)) }
        ensures unheard { OnErr result (self.new ≡ self.old) }
    {
        match word {
            Word::Reply(reply) => self.hear_reply(alloc, ring, reply),
            Word::View(info) => self.hear_view(alloc, ring, info),
        }
    }

    /// Hears the bytes of a message; it ignores bytes that are no member's word. Error: want of memory;
    /// the client has not heard them then.
    pub fn hear(&mut self, alloc: Global, ring: &Ring, bytes: &[u8]) -> Result<Heard, AllocError>
        ensures heard { IfOk result (λ h. h ≡ heard_bytes ring.now self.old bytes.now) }
        ensures client { OnOk result (self.new ≡ after_bytes ring.now self.old bytes.now) }
        ensures unheard { OnErr result (self.new ≡ self.old) }
    {
        match read_word(alloc, bytes)? {
            None => Ok(Heard::Ignored(Ignored::Unread)),
            Some(word) => self.hear_word(alloc, ring, &word),
        }
    }
}
