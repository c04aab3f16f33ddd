ghost use Rattle.std.specs.Prelude.{◌≡◌, ◌≤◌, ◌+◌, IfOk};
ghost use Rattle.sc_book.specs.Counts.{one_at, weight_at};

use sc_value::{NoMemory, sum};

/// How many items there are, and what their weights come to.
#[derive(Clone, Copy)]
pub struct Counts {
    pub items: usize,
    pub total: u64,
}

impl Counts {
    /// No items.
    pub fn new() -> Counts
        ensures { result ≡ record { items = 0; total = 0 } }
    {
        Counts { items: 0, total: 0 }
    }

    /// With an item of this weight in place of a former one of that weight, where there was one.
    /// `NoMemory` past the greatest number.
    pub fn with(self, former: Option<u64>, weight: u64) -> Result<Counts, NoMemory>
        requires items { one_at former ≤ self.items }
        requires total { weight_at former ≤ self.total }
        ensures items { IfOk result (λ counts. counts.items + one_at former ≡ self.items + 1) }
        ensures total { IfOk result
            (λ counts. counts.total + weight_at former ≡ self.total + weight) }
    {
        let left = self.without(former);
        let items = one_more(left.items)?;
        let total = sum(left.total, weight)?;
        Ok(Counts { items, total })
    }

    /// Without a former item of this weight, where there was one.
    pub fn without(self, former: Option<u64>) -> Counts
        requires items { one_at former ≤ self.items }
        requires total { weight_at former ≤ self.total }
        ensures items { result.items + one_at former ≡ self.items }
        ensures total { result.total + weight_at former ≡ self.total }
    {
        match former {
            Some(weight) => Counts {
                items: self.items - 1,
                total: self.total - weight,
            },
            None => self,
        }
    }
}

fn one_more(items: usize) -> Result<usize, NoMemory>
    ensures { IfOk result (λ n. n ≡ items + 1) }
{
    match items.checked_add(1) {
        Some(n) => Ok(n),
        None => Err(NoMemory),
    }
}
