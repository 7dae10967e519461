//! Keys of parties that are kept, begun, beside the secret which they are made from.
ghost use Rattle.std.specs.Prelude.{◌≡◌, ◌++◌, [], ◌∷◌, ℕ, List, IfSome, OnOk, OnErr};
ghost use Rattle.smart_keys.specs.Keys.{hmac};
ghost use Rattle.smart_keys.specs.Known.{known_key, AreKeysOf};

use crate::keyed::KeyedHash;
use smart_base::duplicate::Duplicate;
use smart_base::equality::same_bytes;
use smart_base::sequence::Sequence;
use std::alloc::{AllocError, Global};
use std::collections::HashMap;
use std::marker::Model;

/// The key of a party, begun, beside the party's bytes.
pub struct KnownKey {
    name: [u8; 3],
    hash: KeyedHash,
}

/// Let go by one call, so that no function that lets one go carries the whole of it.
impl Drop for KnownKey {
    fn drop(self) {
        let KnownKey { name: _, hash: _ } = self;
    }
}

impl KnownKey {
    /// The key, if it is that of the party of these bytes.
    fn hash_of(&self, name: &[u8; 3]) -> Option<&KeyedHash>
        ensures { IfSome result (λ hash. (hash.now ≡ self.now.hash) × (self.now.name ≡ name.now)) }
    {
        if same_bytes(&self.name, name) {
            Some(&self.hash)
        } else {
            None
        }
    }
}

impl Duplicate for KnownKey {
    fn duplicate(&self, _alloc: Global) -> Result<KnownKey, AllocError> {
        Ok(KnownKey {
            name: self.name,
            hash: self.hash.again(),
        })
    }
}

/// Where the key of a party stands among others, by the party's bytes. It is a hint: what stands
/// there is looked at before it is taken.
type Places = HashMap<[u8; 3], usize>;

/// Keys in the order in which they were learnt. One is found without a walk over the others.
pub struct KnownKeys {
    keys: Sequence<KnownKey>,
    places: Places,
}

/// Let go by one call, so that no function that lets one go carries the whole of it.
impl Drop for KnownKeys {
    fn drop(self) {
        let KnownKeys { keys: _, places: _ } = self;
    }
}

impl Model for KnownKeys {
    ghost use Rattle.std.specs.Prelude.{List};
    ghost use Rattle.smart_keys.specs.declared.known.KnownKey.{KnownKey};

    ghost Value = { List KnownKey };

    ghost view = { λ k. k.keys };
}

/// The key at a place, if it is that of the party of these bytes.
fn at_place<'a>(keys: &'a [KnownKey], place: usize, name: &[u8; 3]) -> Option<&'a KeyedHash>
    ensures { IfSome result (λ hash. (secret : List ℕ) → AreKeysOf secret keys.now → hash.now ≡ hmac secret name.now) }
{
    match keys.get(place) {
        None => None,
        Some(key) => key.hash_of(name),
    }
}

/// The places of keys. Error: want of memory.
fn places_of(alloc: Global, keys: &[KnownKey]) -> Result<Places, AllocError> {
    let mut places = HashMap::new(alloc);
    for (i, key) in keys.iter().enumerate() {
        places.insert(key.name, i)?;
    }
    Ok(places)
}

impl KnownKeys {
    /// No keys. It takes no memory.
    pub fn new(alloc: Global) -> Self
        ensures { result ≡ [] }
    {
        KnownKeys {
            keys: Sequence::new(alloc),
            places: HashMap::new(alloc),
        }
    }

    /// The key of the party of these bytes, if it was put.
    pub fn find(&self, name: &[u8; 3]) -> Option<&KeyedHash>
        ensures { IfSome result (λ hash. (secret : List ℕ) → AreKeysOf secret self.now → hash.now ≡ hmac secret name.now) }
    {
        match self.places.get(name) {
            None => None,
            Some(place) => at_place(self.keys.as_slice(), *place, name),
        }
    }

    /// Puts the key of the party of these bytes. Without memory the keys stay.
    pub fn put(&mut self, name: [u8; 3], hash: KeyedHash) -> Result<(), AllocError>
        ensures ok { OnOk result (self.new ≡ self.old ++ known_key name hash ∷ []) }
        ensures err { OnErr result (self.new ≡ self.old) }
    {
        let place = self.keys.len();
        self.places.insert(name, place)?;
        self.keys.push(KnownKey { name, hash })?;
        Ok(())
    }
}

impl Duplicate for KnownKeys {
    fn duplicate(&self, alloc: Global) -> Result<KnownKeys, AllocError> {
        let keys = self.keys.duplicate(alloc)?;
        let places = places_of(alloc, keys.as_slice())?;
        Ok(KnownKeys { keys, places })
    }
}
