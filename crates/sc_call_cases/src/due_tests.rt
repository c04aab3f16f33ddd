use sc_due::{Due, DueKey};
use sc_parts::TimerName;
use sc_value::AppId;

fn key(due: u64, host: u32, serial: u64, timer: TimerName) -> DueKey {
    DueKey {
        due,
        app: AppId { host, serial },
        timer,
    }
}

// Adds an entry under a key that isn't there.
fn put(due: &mut Due<u8>, key: DueKey, what: u8) -> bool {
    !due.contains(key) && due.add(key, what).is_ok()
}

// Each entry differs from the one before it in an earlier place of the order.
#[test]
fn gives_entries_in_order(rt: HostRuntime) {
    let mut due: Due<u8> = Due::new(rt.alloc());
    assert!(rt; put(&mut due, key(2, 0, 0, TimerName::Expiry), b'e'));
    assert!(rt; put(&mut due, key(1, 1, 0, TimerName::Expiry), b'd'));
    assert!(rt; put(&mut due, key(1, 0, 2, TimerName::Expiry), b'c'));
    assert!(rt; put(&mut due, key(1, 0, 1, TimerName::Client(1)), b'b'));
    assert!(rt; put(&mut due, key(1, 0, 1, TimerName::Branch(1)), b'a'));
    assert!(rt; due.take_due(0).is_none());
    assert!(rt; due.cancel(key(1, 0, 2, TimerName::Expiry)) == Some(b'c'));
    assert!(rt; due.cancel(key(1, 0, 2, TimerName::Expiry)).is_none());
    assert!(rt; due.take_due(1) == Some((key(1, 0, 1, TimerName::Branch(1)), b'a')));
    assert!(rt; due.take_due(1) == Some((key(1, 0, 1, TimerName::Client(1)), b'b')));
    assert!(rt; due.take_due(1) == Some((key(1, 1, 0, TimerName::Expiry), b'd')));
    assert!(rt; due.take_due(1).is_none());
    assert_eq!(rt; due.len(), 1);
    assert!(rt; due.take_due(2) == Some((key(2, 0, 0, TimerName::Expiry), b'e')));
    assert!(rt; due.is_empty());
}
