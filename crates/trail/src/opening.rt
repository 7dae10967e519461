//! What a trail begins with.
use smart_base::sequence::Bytes;
use smart_base::view::View;

/// The service that the group replicates.
#[derive(Clone, Copy, Debug, PartialEq, Eq)]
pub enum App {
    /// A sum.
    Count,
    /// Values by keys.
    Kv,
}

/// What a trail begins with. The entries that the node began with follow it.
pub struct TrailOpening {
    /// The member; 0 in the trail of a client.
    pub member: u16,
    /// The number of places in which each member takes one checkpoint.
    pub period: u32,
    /// The group's first view.
    pub view: View,
    pub app: App,
    /// The secret of the group.
    pub secret: Bytes,
    /// The replica that the node began with, in its bytes.
    pub snapshot: Bytes,
    /// The number of entries that follow.
    pub entries: u64,
}

/// Let go by one call, so that no function that lets one go carries the whole of it.
impl Drop for TrailOpening {
    fn drop(self) {
        let TrailOpening {
            member: _,
            period: _,
            view: _,
            app: _,
            secret: _,
            snapshot: _,
            entries: _,
        } = self;
    }
}
