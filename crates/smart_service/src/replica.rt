//! A member's replica.
use crate::table::ClientTable;
use smart_base::number::Place;
use smart_base::view::Views;

/// A member's replica: the service, the table of clients, the views so far, and the number of
/// delivered batches.
pub struct Replica<S> {
    pub service: S,
    pub table: ClientTable,
    pub views: Views,
    pub place: Place,
}

/// The drop of a replica, in one call. Without it each function that drops one has the whole drop
/// written out.
impl<S: Drop> Drop for Replica<S> {
    fn drop(self) {
        let Replica {
            service: _,
            table: _,
            views: _,
            place: _,
        } = self;
    }
}
