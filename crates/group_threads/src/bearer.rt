//! Which member of a group a loop works for, as a name that a type bears.
ghost use Rattle.std.specs.Prelude.{◌≡◌};

use log_worker::home::Home;
use node_course::group_life::GroupLife;
use smart_base::name::MemberId;
use smart_service::service::Service;
use std::marker::{Brand, PhantomData};

/// Names one member of a group by its number.
pub trait Numbered {
    ghost use Rattle.std.specs.Prelude.{ℕ};

    ghost number: { ℕ };
}

impl Numbered for Brand {
    ghost number = { 0 };
}

/// The member that a name has.
#[derive(Drop)]
pub struct MemberOf<M: Numbered> {
    pub member: MemberId,
    of: PhantomData<M>,
    pub ghost named: { member ≡ M.number },
}

impl<M: Numbered> MemberOf<M> {
    ghost use Rattle.std.specs.Prelude.{◌≡◌};

    /// The member with this number.
    pub fn new(member: MemberId) -> MemberOf<M>
        requires { member ≡ M.number }
        ensures { result.member ≡ member }
    {
        MemberOf {
            member,
            of: PhantomData,
        }
    }

    /// Its number.
    pub fn number(&self) -> u16
        ensures { result ≡ M.number }
    {
        self.member.get()
    }
}

/// The home of a member's worker: what the group's name says of the member with this number.
pub struct HomeOf<S: Service, P: GroupLife<S>, M: Numbered> {
    service: PhantomData<S>,
    group: PhantomData<P>,
    member: PhantomData<M>,
}

impl<S: Service, P: GroupLife<S>, M: Numbered> Home for HomeOf<S, P, M> {
    ghost lane = { P.lane M.number };

    ghost restored = { P.restored M.number };
}
