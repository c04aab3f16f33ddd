//! The places to which something is left, in a list.

ghost use Rattle.std.specs.Prelude.{◌≡◌, ◌≤◌, ◌++◌, [], drop, length, position, Some, None, OnOk, OnErr};
ghost use Rattle.sc_outs.specs.Owing.{Distinct, IsKept, bytes_of, is_at};

use crate::held::Held;
use sc_value::{List, NoMemory, Place, same_place};

/// The entry of a place.
pub fn place_of(outs: &[Held], place: Place) -> Option<usize>
    ensures { result ≡ position (is_at place) outs.now }
{
    outs.iter().position(|held| same_place(place, held.place()))
}

/// Puts a text behind what is left of a place, all of it or, for want of memory, nothing.
pub fn owe_text(outs: &mut List<Held>, place: Place, text: Vec<u8>) -> Result<(), NoMemory>
    requires distinct { Distinct outs.old }
    ensures distinct { Distinct outs.new }
    ensures ok { OnOk result
        (IsKept (bytes_of outs.old) place (bytes_of outs.old place ++ text.items)
        (bytes_of outs.new)) }
    ensures err { OnErr result (outs.new ≡ outs.old) }
{
    match place_of(outs.as_slice(), place) {
        Some(at) => owe_more(&mut outs.items, place, at, text.as_slice()),
        None => owe_first(outs, place, text),
    }
}

fn owe_more(outs: &mut [Held], place: Place, at: usize, text: &[u8]) -> Result<(), NoMemory>
    requires distinct { Distinct outs.old }
    requires at { position (is_at place) outs.old ≡ Some at }
    ensures distinct { Distinct outs.new }
    ensures ok { OnOk result
        (IsKept (bytes_of outs.old) place (bytes_of outs.old place ++ text.now)
        (bytes_of outs.new)) }
    ensures err { OnErr result (outs.new ≡ outs.old) }
{
    outs[at].append(text)
}

fn owe_first(outs: &mut List<Held>, place: Place, text: Vec<u8>) -> Result<(), NoMemory>
    requires distinct { Distinct outs.old }
    requires none { position (is_at place) outs.old ≡ None }
    ensures distinct { Distinct outs.new }
    ensures ok { OnOk result
        (IsKept (bytes_of outs.old) place (bytes_of outs.old place ++ text.items)
        (bytes_of outs.new)) }
    ensures err { OnErr result (outs.new ≡ outs.old) }
{
    let held = Held::new(place, text);
    outs.push(held)?;
    Ok(())
}

/// Drops what is left of a place.
pub fn drop_left(outs: &mut List<Held>, place: Place)
    requires distinct { Distinct outs.old }
    ensures distinct { Distinct outs.new }
    ensures left { IsKept (bytes_of outs.old) place [] (bytes_of outs.new) }
{
    match place_of(outs.as_slice(), place) {
        Some(at) => {
            outs.items.remove(at);
        }
        None => {}
    }
}

/// Lets go of so many bytes from the front of a place's entry, and of the entry with the last byte.
pub fn take_at(outs: &mut List<Held>, place: Place, at: usize, count: usize)
    requires distinct { Distinct outs.old }
    requires at { position (is_at place) outs.old ≡ Some at }
    requires within { count ≤ length (bytes_of outs.old place) }
    ensures distinct { Distinct outs.new }
    ensures left { IsKept (bytes_of outs.old) place (drop count (bytes_of outs.old place))
        (bytes_of outs.new) }
{
    if count == outs.as_slice()[at].left().len() {
        outs.items.remove(at);
    } else {
        take_some(&mut outs.items, place, at, count);
    }
}

fn take_some(outs: &mut [Held], place: Place, at: usize, count: usize)
    requires distinct { Distinct outs.old }
    requires at { position (is_at place) outs.old ≡ Some at }
    requires within { count ≤ length (bytes_of outs.old place) }
    ensures distinct { Distinct outs.new }
    ensures left { IsKept (bytes_of outs.old) place (drop count (bytes_of outs.old place))
        (bytes_of outs.new) }
{
    outs[at].take(count);
}
