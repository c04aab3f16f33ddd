ghost use Rattle.std.specs.Prelude.{◌≡◌, ◌==◌, IfOk};
ghost use Rattle.sc_book.specs.Words.{belongs, is_before};
ghost use Rattle.sc_book.specs.Found.{numbers_of};
ghost use Rattle.sc_book.specs.Gathering.{is_wanted};

use crate::Item;
use crate::numbers::Numbers;
use crate::wanted::Wanted;
use sc_value::{CloneIn, NoMemory, Shared};
use std::alloc::Global;
use std::marker::Model;

/// An item with what it tells, which is asked once. A contract sees the item.
#[derive(Drop)]
pub struct Entry<T: Item> {
    item: Shared<T>,
    weight: u64,
    numbers: Numbers,
}

impl<T: Item> Model for Entry<T> {
    ghost use Rattle.std.specs.Prelude.{◌≡◌};
    ghost use Rattle.sc_book.specs.Found.{numbers_of};

    ghost Value = { T };

    ghost view = { λ e. e.item };

    ghost invariant = { λ e.
        (e.weight ≡ T.weight e.item) × (e.numbers ≡ numbers_of T.due T.first T.groups e.item) };
}

impl<T: Item> Entry<T> {
    /// Asks the item. `NoMemory` where what it tells is past the greatest number.
    pub fn new(item: Shared<T>) -> Result<Entry<T>, NoMemory>
        ensures { IfOk result (λ e. e ≡ item) }
    {
        let due = item.get().due()?;
        let numbers = Numbers {
            due,
            first: item.get().first(),
            groups: item.get().groups(),
        };
        let weight = item.get().weight();
        Ok(Entry {
            item,
            weight,
            numbers,
        })
    }

    /// The item.
    pub fn item(&self) -> &Shared<T>
        ensures { result.now ≡ self.now }
    {
        &self.item
    }

    /// Its weight.
    pub fn weight(&self) -> u64
        ensures { result ≡ T.weight self.now }
    {
        self.weight
    }

    /// The numbers by which it is found.
    pub fn numbers(&self) -> Numbers
        ensures { result ≡ numbers_of T.due T.first T.groups self.now }
    {
        self.numbers
    }

    /// Whether it is wanted.
    pub fn is_wanted(&self, wanted: Wanted) -> bool
        ensures { result ≡ is_wanted T.due T.groups wanted self.now }
    {
        match wanted {
            Wanted::All => true,
            Wanted::Of(group) => self.belongs(group),
            Wanted::Before(moment) => self.is_before(moment),
        }
    }

    fn belongs(&self, group: u64) -> bool
        ensures { result ≡ belongs T.groups group self.now }
    {
        let groups = self.numbers.groups;
        groups.0 == group || groups.1 == group
    }

    fn is_before(&self, moment: u64) -> bool
        ensures { result ≡ is_before moment (T.due self.now) }
    {
        match self.numbers.due {
            Some(due) => due < moment,
            None => false,
        }
    }
}

impl<T: Item> CloneIn for Entry<T> {
    fn clone_in(&self, alloc: Global) -> Result<Entry<T>, NoMemory> {
        let item = self.item.clone_in(alloc)?;
        Ok(Entry {
            item,
            weight: self.weight,
            numbers: self.numbers,
        })
    }
}
