//! Which entries end a group. A store sees bytes only, so this is told to it.
ghost use Rattle.std.specs.Prelude.{◌≡◌, ℕ, Bool, List, false};
ghost use Rattle.store_laws.specs.Stops.{is_installed};

/// A test of entries.
pub trait Stops {
    /// Whether a group ends before this entry. The entry then waits for a switch.
    ghost stops: { List ℕ → Bool };

    fn stops(entry: &[u8]) -> bool
        ensures { result ≡ stops entry.now };
}

/// The first byte of an entry that installs a replica.
const INSTALLED: u8 = 7;

/// An entry that installs a replica ends a group: it waits for the switch to that replica's snapshot.
pub struct InstallsStop {}

impl Stops for InstallsStop {
    ghost stops = { is_installed };

    #[tactic(auto, unfolding(store_laws::specs::Stops::is_installed))]
    fn stops(entry: &[u8]) -> bool {
        match entry.first() {
            None => false,
            Some(kind) => *kind == INSTALLED,
        }
    }
}

/// No entry ends a group.
pub struct NeverStops {}

impl Stops for NeverStops {
    ghost stops = { λ entry. false };

    fn stops(entry: &[u8]) -> bool {
        let _ = entry;
        false
    }
}
