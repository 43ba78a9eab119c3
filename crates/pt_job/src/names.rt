ghost use Rattle.std.specs.Prelude.{◌≡◌, position, bytes_eq, IfOk};
ghost use Rattle.indexmap.specs.IndexMap.{get};
ghost use Rattle.pt_job.specs.Names.{Name, name_eq, texts};

use indexmap::IndexMap;
use std::alloc::{AllocError, Global};
use std::hash::{BuildHasherDefault, DefaultHasher, Hash};

/// Numbers by key, under a hasher for which keys of one hash are hard to find.
pub type Places<K> = IndexMap<K, usize, BuildHasherDefault<DefaultHasher>>;

/// The number of each key, the first one where it stands more than once.
fn first_places<K: Copy + Eq + Hash>(alloc: Global, keys: &[K]) -> Result<Places<K>, AllocError>
    ensures { IfOk result (λ places. (key : K) → get K.eq places key ≡ position (K.eq key) keys.now) }
{
    let mut places = IndexMap::with_hasher(alloc, BuildHasherDefault::new());
    for (number, key) in keys.iter().enumerate() {
        if !places.contains_key(key) {
            places.insert(*key, number)?;
        }
    }
    Ok(places)
}

/// The first place of each name.
pub fn name_places<'k>(alloc: Global, names: &[&'k str]) -> Result<Places<&'k str>, AllocError>
    ensures { IfOk result (λ places. (name : Name) → get name_eq places name ≡ position (bytes_eq name.now) (texts names.now)) }
{
    first_places(alloc, names)
}
