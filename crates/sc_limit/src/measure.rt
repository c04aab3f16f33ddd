ghost use Rattle.std.specs.Prelude.{◌≡◌, ◌≤◌};
ghost use Rattle.sc_edge.specs.Faults.{Rose, one_more};
ghost use Rattle.sc_limit.specs.Limits.{fitting, is_full, room_after};

/// The bytes from the front of a piece for which there is room: all of them where `room` is `None`.
pub fn fitting(room: Option<u64>, bytes: &[u8]) -> &[u8]
    ensures { result.now ≡ fitting room bytes.now }
{
    match room {
        Some(room) if room < bytes.len() as u64 => &bytes[..room as usize],
        _ => bytes,
    }
}

// Whether there is something to put, and no room for its first byte.
pub(crate) fn is_full(room: Option<u64>, bytes: &[u8]) -> bool
    ensures { result ≡ is_full room bytes.now }
{
    match room {
        Some(0) => !bytes.is_empty(),
        _ => false,
    }
}

// The room that is left after so many bytes.
pub(crate) fn room_after(room: Option<u64>, count: usize) -> Option<u64>
    ensures { result ≡ room_after room count }
{
    match room {
        Some(room) => Some(room.saturating_sub(count as u64)),
        None => None,
    }
}

// The count of faults after one more. It stays at its greatest value.
pub(crate) fn counted(count: u64) -> u64
    ensures exact { result ≡ one_more count }
    ensures later { count ≤ result }
    ensures rose { Rose count result }
{
    count.saturating_add(1)
}
