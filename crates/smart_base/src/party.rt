//! Who signs.
use crate::name::{ClientId, MemberId};

/// A member of a group or a client.
#[derive(Clone, Copy, Debug, PartialEq, Eq)]
pub enum Party {
    Member(MemberId),
    Client(ClientId),
}
