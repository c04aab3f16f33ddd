ghost use Rattle.std.specs.Prelude.{◌≡◌, ◌≤◌};
ghost use Rattle.sc_edge.specs.Faults.{Rose, is_listed, one_more};

// Whether the call of this number is to fail.
pub(crate) fn is_planned(failing: &[u64], number: u64) -> bool
    ensures { result ≡ is_listed failing.now number }
{
    failing.contains(&number)
}

// The count after one more. It stays at its greatest value.
pub(crate) fn counted(count: u64) -> u64
    ensures exact { result ≡ one_more count }
    ensures later { count ≤ result }
    ensures rose { Rose count result }
{
    count.saturating_add(1)
}
