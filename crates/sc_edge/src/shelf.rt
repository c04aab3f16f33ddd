ghost use Rattle.std.specs.Prelude.{◌≡◌, ◌≤◌, ℕ, List, Option};
ghost use Rattle.sc_edge.specs.Faults.{Rose};
ghost use Rattle.sc_edge.specs.Shelving.{Gives};

use sc_value::Text;

/// What reading an item gave.
#[derive(Drop)]
pub enum Shelved {
    /// All bytes of the item, in order, at most as many as were asked for.
    Got(Text),
    /// The item has more bytes than were asked for.
    Long,
    /// The shelf could not read the item, and counted a fault.
    Failed,
    /// No memory for the item's bytes.
    NoMemory,
}

/// Where texts are read by their names.
pub trait Shelf {
    // what it holds under a name; `None` where it isn't told, or where there is nothing
    ghost holds: { Self → List ℕ → Option (List ℕ) };

    // how many faults it counted
    ghost faults: { Self → ℕ };

    /// Reads the item of this name, of at most `max` bytes. Reading changes nothing that the shelf
    /// holds.
    fn read(&mut self, name: &Text, max: usize) -> Shelved
        ensures same { (n : List ℕ) → holds self.new n ≡ holds self.old n }
        ensures later { faults self.old ≤ faults self.new }
        ensures gives { Gives result (holds self.old name.now) max (Rose (faults self.old) (faults self.new)) };
}
