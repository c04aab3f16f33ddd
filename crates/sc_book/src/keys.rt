ghost use Rattle.std.specs.Prelude.{◌≡◌, OnOk};
ghost use Rattle.std.specs.Map.{keys_of};
ghost use Rattle.sc_book.specs.Gathering.{with_all};

use sc_value::NoMemory;
use std::collections::{BTreeMap, BTreeSet};

/// Adds the keys of a map to a set.
pub fn add_keys<V>(map: &BTreeMap<u64, V>, keys: &mut BTreeSet<u64>) -> Result<(), NoMemory>
    ensures { OnOk result (keys.new.keys ≡ with_all keys.old.keys (keys_of map.now.entries)) }
{
    for key in map.keys() {
        keys.insert(*key)?;
    }
    Ok(())
}
