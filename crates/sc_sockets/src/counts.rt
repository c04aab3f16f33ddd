//! Counts that stay at their greatest value.

ghost use Rattle.std.specs.Prelude.{◌≡◌, ◌≤◌};
ghost use Rattle.sc_edge.specs.Faults.{Rose, one_more};

// The count after one more.
pub(crate) fn counted(count: u64) -> u64
    ensures exact { result ≡ one_more count }
    ensures later { count ≤ result }
    ensures rose { Rose count result }
{
    count.saturating_add(1)
}
