//! Which member of which group a node is.
use smart_base::name::MemberId;
use smart_base::sequence::Bytes;
use smart_base::view::View;
use trail::opening::App;

/// Which member of which group a node is, and where its store and its trail are.
pub struct Settings {
    pub member: MemberId,
    /// The directory of the store and the trail.
    pub dir: Bytes,
    /// The secret of the group.
    pub secret: Bytes,
    /// The group's first view.
    pub view: View,
    /// The number of places in which each member takes one checkpoint.
    pub period: u32,
    /// The service that the group replicates.
    pub app: App,
}

/// Let go by one call, so that no function that lets one go carries the whole of it.
impl Drop for Settings {
    fn drop(self) {
        let Settings {
            member: _,
            dir: _,
            secret: _,
            view: _,
            period: _,
            app: _,
        } = self;
    }
}
