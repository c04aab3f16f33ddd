ghost use Rattle.std.specs.Prelude.{◌≡◌, ◌==◌, ◌+◌, ◌<◌, ◌≤◌, ◌++◌, ◌∷◌, [], List, length, IsNone, is_some, IsSome, IfSome, IfNone, OnOk, OnErr};
ghost use Rattle.std.specs.List.{All, slice_get};
ghost use Rattle.std.specs.Option.{option_map};
ghost use Rattle.std.specs.Map.{keys_of};
ghost use Rattle.std.specs.BTreeMap.Range.{IsLtBy};
ghost use Rattle.sc_model.specs.Timers.{DueEntry, DueEvent, due_order, due_by};
ghost use Rattle.sc_model.specs.Timers.DueEvent.{Made, Ended};
ghost use Rattle.sc_due.specs.Held.{held_at, with_entry, without_entry, IsHeldAfter};

use crate::DueKey;
use sc_value::NoMemory;
use std::alloc::Global;
use std::collections::BTreeMap;
use std::marker::Model;

/// Entries that wait for their moment, each with what is to be done then. A contract sees them as a
/// list by the keys' order.
#[derive(Drop)]
pub struct Due<T> {
    kept: BTreeMap<DueKey, T>,
}

impl<T> Model for Due<T> {
    ghost use Rattle.sc_due.specs.Held.{Held};

    ghost Value = { Held T };

    ghost view = { λ d. d.kept.entries };
}

impl<T> Due<T> {
    /// No entries. It takes no memory.
    pub fn new(alloc: Global) -> Due<T>
        ensures empty { result ≡ [] }
        ensures begins { IsHeldAfter [] result }
    {
        Due {
            kept: BTreeMap::new(alloc),
        }
    }

    /// How many entries wait.
    pub fn len(&self) -> usize
        ensures { result ≡ length self.now }
    {
        self.kept.len()
    }

    /// Whether no entry waits.
    pub fn is_empty(&self) -> bool
        ensures { result ≡ (length self.now == 0) }
    {
        self.kept.len() == 0
    }

    /// Whether an entry of this key waits. The cost is logarithmic.
    pub fn contains(&self, key: DueKey) -> bool
        ensures { result ≡ is_some (held_at self.now key) }
    {
        self.kept.contains_key(&key)
    }

    /// Makes an entry of a key that isn't there. For want of memory all is as before. The cost is
    /// logarithmic in the number of entries.
    pub fn add(&mut self, key: DueKey, what: T) -> Result<(), NoMemory>
    where
        T: Drop,
        requires { IsNone (held_at self.old key) }
        ensures ok { OnOk result (self.new ≡ with_entry self.old key what) }
        ensures err { OnErr result (self.new ≡ self.old) }
        ensures made { OnOk result
            ((events : List DueEvent) → IsHeldAfter events self.old
            → IsHeldAfter (events ++ Made key ∷ []) self.new) }
    {
        self.kept.insert(key, what)?;
        Ok(())
    }

    /// Ends the entry of a key and hands back what was to be done; None exactly where there is no
    /// entry of the key. It takes no memory, and its cost is logarithmic.
    pub fn cancel(&mut self, key: DueKey) -> Option<T>
        ensures what { result ≡ held_at self.old key }
        ensures held { self.new ≡ without_entry self.old key }
        ensures ended { (events : List DueEvent) → IsHeldAfter events self.old
            → IsHeldAfter (events ++ Ended key ∷ []) self.new }
    {
        self.kept.remove(&key)
    }

    /// Ends the first entry that is due at a moment, and hands it out; None exactly where none is
    /// due. It takes no memory, and its cost is logarithmic.
    pub fn take_due(&mut self, now: u64) -> Option<(DueKey, T)>
        ensures due { IfSome result (λ r. r.0.due ≤ now) }
        ensures held { IfSome result (λ r. self.old ≡ r ∷ self.new) }
        ensures least { IfSome result (λ r. All (IsLtBy due_order r.0) (keys_of self.new)) }
        ensures none { IfNone result
            ((key : DueEntry) → IsSome (held_at self.old key) → now < key.due) }
        ensures kept { IfNone result (self.new ≡ self.old) }
        ensures first { (events : List DueEvent) → IsHeldAfter events self.old
            → option_map (λ r. r.0) result ≡ slice_get (due_by events now) 0 }
        ensures ended { IfSome result
            (λ r.
            (events : List DueEvent) → IsHeldAfter events self.old
            → IsHeldAfter (events ++ Ended r.0 ∷ []) self.new) }
    {
        let due = match self.kept.first_key_value() {
            Some((key, _)) => key.due,
            None => return None,
        };
        if due > now {
            return None;
        }
        self.kept.pop_first()
    }
}
