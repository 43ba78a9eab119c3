ghost use Rattle.std.specs.Prelude.{◌≡◌, position, IfOk};
ghost use Rattle.indexmap.specs.IndexMap.{get};
ghost use Rattle.std.specs.Map.{lookup};

use indexmap::IndexMap;
use std::alloc::{AllocError, Global};
use std::hash::{BuildHasherDefault, DefaultHasher, Hash};

/// Numbers by key. Under the fast hasher that maps have by default a document could hold any number of names of one hash,
/// and each look-up would walk over all of them. Under this one such names are hard to find.
#[derive(Drop)]
pub struct Places<K: Copy + Eq + Hash> {
    numbers: IndexMap<K, usize, BuildHasherDefault<DefaultHasher>>,
}

impl<K: Copy + Eq + Hash> Places<K> {
    /// The number of a key. Where there are none, the key isn't hashed.
    #[tactic(auto, using(crate::proofs::Firsts::none_among))]
    pub fn get(&self, key: &K) -> Option<usize>
        ensures { result ≡ get K.eq self.now.numbers key.now }
    {
        if self.numbers.is_empty() {
            return None;
        }
        self.numbers.get(key).copied()
    }
}

/// The number of each key, the first one where it stands more than once.
pub fn first_places<K: Copy + Eq + Hash>(alloc: Global, keys: &[K]) -> Result<Places<K>, AllocError>
    ensures { IfOk result (λ places. (key : K) → get K.eq places.numbers key ≡ position (K.eq key) keys.now) }
{
    let mut numbers = IndexMap::with_capacity_and_hasher(
        alloc,
        keys.len(),
        BuildHasherDefault::new(),
    )?;
    // What is put later replaces what was there.
    let mut left = keys.len();
    while left > 0 {
        left -= 1;
        numbers.insert(keys[left], left)?;
    }
    Ok(Places { numbers })
}

/// The number beside each key, the first one where the key stands more than once.
pub fn first_numbers<K: Copy + Eq + Hash>(
    alloc: Global,
    pairs: &[(K, usize)],
) -> Result<Places<K>, AllocError>
    ensures { IfOk result (λ places. (key : K) → get K.eq places.numbers key ≡ lookup (K.eq key) pairs.now) }
{
    let mut numbers = IndexMap::with_capacity_and_hasher(
        alloc,
        pairs.len(),
        BuildHasherDefault::new(),
    )?;
    // What is put later replaces what was there.
    let mut left = pairs.len();
    while left > 0 {
        left -= 1;
        let pair = pairs[left];
        numbers.insert(pair.0, pair.1)?;
    }
    Ok(Places { numbers })
}
