//! A snapshot that is handed over between workers of a member.
ghost use Rattle.std.specs.Prelude.{◌≡◌, ◌<◌, ◌^◌, length, Some, IfOk};
ghost use Rattle.node_played.specs.Lives.{IsWantedOf};
ghost use Rattle.node_seat.specs.Seats.{place_in};

use node_course::group_life::GroupLife;
use smart_base::sequence::Bytes;
use smart_service::fault::RestoreError;
use smart_service::service::Service;
use snapshot_form::reading::from_bytes;
use std::alloc::{AllocError, Global};
use std::marker::PhantomData;

/// The greatest length of a snapshot in bytes.
const SNAPSHOT_BYTES: usize = 0xffff_ffff;

/// The bytes of a replica, with the replica's place. The member of this number wanted its store to switch
/// to them.
pub struct Snapshot<S: Service, P: GroupLife<S>> {
    pub number: u16,
    pub place: u64,
    pub bytes: Bytes,
    service: PhantomData<S>,
    life: PhantomData<P>,
    pub ghost fits: { length bytes < 2 ^ 32 },
    pub ghost whole: { place_in S.meaning bytes ≡ Some place },
    pub ghost wanted: { IsWantedOf S.meaning (P.opening number) place bytes },
}

/// Let go by one call, so that no function that lets one go carries the whole of it.
impl<S: Service, P: GroupLife<S>> Drop for Snapshot<S, P> {
    fn drop(self) {
        let Snapshot {
            number: _,
            place: _,
            bytes: _,
            service: _,
            life: _,
        } = self;
    }
}

/// The place of the replica whose bytes these are, if they are a replica's. Error: want of memory.
fn place_in<S: Service>(alloc: Global, bytes: &[u8]) -> Result<Option<u64>, AllocError>
    ensures { IfOk result (λ place. place ≡ place_in S.meaning bytes.now) }
{
    match from_bytes::<S>(alloc, bytes) {
        Ok(replica) => Ok(Some(replica.place.get())),
        Err(RestoreError::BadSnapshot) => Ok(None),
        Err(RestoreError::NoMemory) => Err(AllocError),
    }
}

impl<S: Service, P: GroupLife<S>> Snapshot<S, P> {
    ghost use Rattle.std.specs.Prelude.{◌≡◌, ◌≤◌, ◌<◌, ◌^◌, length, Some, None, IfOk, IfSome};
    ghost use Rattle.node_played.specs.Lives.{IsWantedOf};
    ghost use Rattle.node_seat.specs.Seats.{place_in};

    /// Bytes as those of a replica of this place, to which the member wanted its store to switch. It takes
    /// no memory.
    pub fn of(number: u16, place: u64, bytes: Bytes) -> Snapshot<S, P>
        requires fits { length bytes < 2 ^ 32 }
        requires whole { place_in S.meaning bytes ≡ Some place }
        requires wanted { IsWantedOf S.meaning (P.opening number) place bytes }
        ensures { (result.number ≡ number) × ((result.place ≡ place) × (result.bytes ≡ bytes)) }
    {
        Snapshot {
            number,
            place,
            bytes,
            service: PhantomData,
            life: PhantomData,
        }
    }

    /// Bytes that the member wanted as those of a replica of this place. `None` only where they are none,
    /// or have 2^32 bytes or more. Error: want of memory.
    pub fn checked(
        alloc: Global,
        number: u16,
        place: u64,
        bytes: Bytes,
    ) -> Result<Option<Snapshot<S, P>>, AllocError>
        requires { IsWantedOf S.meaning (P.opening number) place bytes }
        ensures same { IfOk result (λ found. IfSome found (λ s. (s.number ≡ number) × ((s.place ≡ place) × (s.bytes ≡ bytes)))) }
        ensures none { IfOk result (λ found. found ≡ None → place_in S.meaning bytes ≡ Some place → 2 ^ 32 ≤ length bytes) }
    {
        if bytes.len() > SNAPSHOT_BYTES {
            return Ok(None);
        }
        match place_in::<S>(alloc, bytes.as_slice())? {
            Some(found) => {
                if found == place {
                    Ok(Some(Snapshot::of(number, place, bytes)))
                } else {
                    Ok(None)
                }
            }
            None => Ok(None),
        }
    }

    /// Its place and its bytes.
    pub fn into_pair(self) -> (u64, Bytes)
        ensures same { (result.0 ≡ self.place) × (result.1 ≡ self.bytes) }
        ensures fits { length result.1 < 2 ^ 32 }
        ensures whole { place_in S.meaning result.1 ≡ Some result.0 }
        ensures wanted { IsWantedOf S.meaning (P.opening self.number) result.0 result.1 }
    {
        let Snapshot {
            number: _,
            place,
            bytes,
            service: _,
            life: _,
        } = self;
        (place, bytes)
    }
}
