ghost use Rattle.std.specs.Prelude.{◌≡◌, ◌≤◌, ◌<◌, ℕ, List, Option, take, length, IfOk, OnErr};
ghost use Rattle.sc_edge.specs.Faults.{Rose};
ghost use Rattle.sc_edge.specs.Taking.{Takes};

/// A sink took nothing of a piece, and counted a fault.
#[derive(Clone, Copy, Debug, PartialEq, Eq)]
pub struct Failed;

/// Where bytes are put.
pub trait Sink {
    // all bytes that it took, in order; `None` where it isn't told
    ghost took: { Self → Option (List ℕ) };

    // how many faults it counted
    ghost faults: { Self → ℕ };

    /// Takes bytes from the front of a piece and answers their number: at least one of a piece that
    /// isn't empty, and at most all. A put that fails takes none.
    fn put(&mut self, bytes: &[u8]) -> Result<usize, Failed>
        ensures later { faults self.old ≤ faults self.new }
        ensures bound { IfOk result (λ n. (n ≤ length bytes.now) × (0 < length bytes.now → 0 < n)) }
        ensures taken { IfOk result
            (λ n. Takes (took self.old) (took self.new) (take n bytes.now)) }
        ensures failed { OnErr result ((took self.new ≡ took self.old) × Rose (faults self.old) (faults self.new)) };
}
