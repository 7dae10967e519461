//! The client: what it keeps and hears.
ghost use Rattle.std.specs.Prelude.{◌≡◌, option_copied, IfOk};
ghost use Rattle.smart_base.specs.Views.{present};
ghost use Rattle.client_quorum.specs.Clients.{fresh, learning};

use smart_base::bytes::Payload;
use smart_base::name::ClientId;
use smart_base::number::{Place, ViewNo};
use smart_base::sequence::Sequence;
use smart_base::view::{View, Views};
use smart_messages::regency::ViewInfo;
use smart_statements::signed::Signed;
use smart_statements::statement::{Answer, Request};
use std::alloc::{AllocError, Global};

/// A client. It has the number of its last request, the request that waits for its reply, and the
/// greatest place that it knows. It has the replies to that request, at most one of each member. It has
/// the views that it knows, the present one last, and what members stated of views, of each member the
/// newest statement that counted.
pub struct Client {
    pub id: ClientId,
    pub last: u64,
    pub waiting: Option<Request>,
    pub seen: Place,
    pub replies: Sequence<Signed<Answer>>,
    pub views: Views,
    pub infos: Sequence<Signed<ViewInfo>>,
}

/// Let go by one call, so that no function that lets one go carries the whole of it.
impl Drop for Client {
    fn drop(self) {
        let Client {
            id: _,
            last: _,
            waiting: _,
            seen: _,
            replies: _,
            views: _,
            infos: _,
        } = self;
    }
}

/// The acceptance of a reply to a client's request. It has the request's place in the list, the view
/// in force there, and the service's answer.
pub struct Acceptance {
    pub request: Request,
    pub view: ViewNo,
    pub place: Place,
    /// The request's index in its batch, from 0.
    pub index: u16,
    pub reply: Payload,
}

/// Let go by one call, so that no function that lets one go carries the whole of it.
impl Drop for Acceptance {
    fn drop(self) {
        let Acceptance {
            request: _,
            view: _,
            place: _,
            index: _,
            reply: _,
        } = self;
    }
}

/// The first reason for which a client ignores a message.
#[derive(Clone, Copy, Debug, PartialEq, Eq)]
pub enum Ignored {
    /// The bytes are neither a reply nor a statement of a view.
    Unread,
    /// The tag is not the one that the signer makes.
    BadTag,
    /// The client does not wait for a reply to this request.
    Settled,
    /// The client knows no view of this number.
    UnknownView,
    /// The view that is stated is no later one than the client's present view.
    OldView,
    /// The signer is no member of that view; of a statement of a view, no member of the client's present
    /// view.
    Stranger,
    /// A reply of this member was counted already, or its statement of this view or of a later one.
    Repeated,
}

/// What a client makes of a message.
#[derive(Drop)]
pub enum Heard {
    /// `have` members gave this reply, and `need` are needed.
    Counted { have: u64, need: u64 },
    Accepted(Acceptance),
    /// `have` members of its present view stated this view, and `need` are needed.
    Viewed { have: u64, need: u64 },
    /// The client has taken over the view of this number.
    Moved(ViewNo),
    Ignored(Ignored),
}

/// A member's word to a client.
#[derive(Drop)]
pub enum Word {
    /// The answer to a request.
    Reply(Signed<Answer>),
    /// The view in force.
    View(Signed<ViewInfo>),
}

impl Client {
    /// A client that has not asked, and knows one view. Error: want of memory.
    pub fn new(alloc: Global, view: View, id: ClientId) -> Result<Self, AllocError>
        ensures { IfOk result (λ client. client ≡ fresh view id) }
    {
        Ok(Client {
            id,
            last: 0,
            waiting: None,
            seen: Place::zero(),
            replies: Sequence::new(alloc),
            views: Views::new(alloc, view)?,
            infos: Sequence::new(alloc),
        })
    }

    /// The number of its last request; 0 if it has not asked.
    pub fn last(&self) -> u64
        ensures { result ≡ self.now.last }
    {
        self.last
    }

    /// The request that waits for its reply, if there is one.
    pub fn waiting(&self) -> Option<&Request>
        ensures { option_copied result ≡ self.now.waiting }
    {
        self.waiting.as_ref()
    }

    /// The greatest place that it knows; 0 if it knows none.
    pub fn seen(&self) -> Place
        ensures { result ≡ self.now.seen }
    {
        self.seen
    }

    /// The newest view that it knows.
    pub fn view(&self) -> &View
        ensures { result.now ≡ present self.now.views }
    {
        self.views.present()
    }

    /// Tells the client of a place, which it knows from then on.
    pub fn told(&mut self, place: Place)
        ensures { self.new ≡ learning self.old place }
    {
        self.seen = self.seen.max(place);
    }
}
