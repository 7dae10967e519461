//! The secret of a group that a script plays.
ghost use Rattle.std.specs.Prelude.{◌≡◌, IfOk};
ghost use Rattle.world_rules.specs.Secrets.{group_secret};

use smart_base::name::MemberId;
use smart_base::party::Party;
use smart_base::sequence::Bytes;
use smart_keys::ring::Ring;
use std::alloc::{AllocError, Global};
use std::marker::Model;

/// The five bytes that all members and clients hold.
const SECRET: &[u8] = b"world";

/// The ring that holds the group's secret.
pub struct GroupRing {
    ring: Ring,
}

impl Drop for GroupRing {
    fn drop(self) {
        let GroupRing { ring: _ring } = self;
    }
}

impl Model for GroupRing {
    ghost use Rattle.std.specs.Prelude.{◌≡◌, List, ℕ};
    ghost use Rattle.world_rules.specs.Secrets.{group_secret};

    ghost Value = { List ℕ };

    ghost view = { λ r. r.ring };

    ghost invariant = { λ r. r.ring ≡ group_secret };
}

impl GroupRing {
    #[tactic(auto, unfolding(world_rules::specs::Secrets::group_secret))]
    pub fn new(alloc: Global) -> Result<Self, AllocError>
        ensures { IfOk result (λ ring. ring ≡ group_secret) }
    {
        let secret = Bytes::from_slice(alloc, SECRET)?;
        Ok(GroupRing {
            ring: Ring::from_secret(secret),
        })
    }

    /// Learns the key of a party, so that its tags cost less from then on. Error: want of memory.
    pub fn learn(&mut self, who: Party) -> Result<(), AllocError>
        ensures { self.new ≡ self.old }
    {
        self.ring.learn(who)
    }

    /// Learns the keys of members, so that their tags cost less from then on. Error: want of memory.
    pub fn learn_members(&mut self, members: &[MemberId]) -> Result<(), AllocError>
        ensures { self.new ≡ self.old }
    {
        self.ring.learn_members(members)
    }

    pub fn get(&self) -> &Ring
        ensures { result.now ≡ group_secret }
    {
        &self.ring
    }
}
