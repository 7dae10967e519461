//! A clock that is lent to the members of a group.
use clock_gate::clock::Clock;

/// A clock that another owns.
pub struct LentClock<'a, K: Clock> {
    pub clock: &'a mut K,
}

impl<K: Clock> Drop for LentClock<'_, K> {
    fn drop(self) {
        let LentClock { clock: _ } = self;
    }
}

impl<'a, K: Clock> Clock for LentClock<'a, K> {
    fn now(&mut self) -> u64 {
        self.clock.now()
    }
}
