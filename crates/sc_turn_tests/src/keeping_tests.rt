//! Timers, attributes, flags, the expiry, and sessions that are ended.

use crate::playing::play;

#[test]
fn starts_64_timers(rt: HostRuntime) {
    play(
        &rt,
        rt.alloc(),
        "
        start_timer Rate 0 = BadText(1)
        start_timer Delay 0 = BadText(1)
        start_timer = 63 times  # one is there
        start_timer Rate 1 = Limit(64)
        cancel_timer 1
        start_timer Delay 1 = 65",
    );
}

#[test]
fn cancels_an_active_timer(rt: HostRuntime) {
    play(
        &rt,
        rt.alloc(),
        "
        cancel_timer 2 = NotYours
        cancel_timer 1
        cancel_timer 1 = NotYours",
    );
}

#[test]
fn keeps_4096_bytes_of_attributes(rt: HostRuntime) {
    play(
        &rt,
        rt.alloc(),
        "
        set_attribute a 4096 = Limit(4096)
        set_attribute a 4095
        set_attribute b 0 = Limit(4096)
        set_attribute a 4094  # it is set again
        set_attribute b 0",
    );
}

#[test]
fn removes_an_attribute(rt: HostRuntime) {
    play(
        &rt,
        rt.alloc(),
        "
        remove_attribute a = NotYours
        set_attribute a 1
        remove_attribute A = NotYours
        remove_attribute a
        remove_attribute a = NotYours",
    );
}

#[test]
fn sets_flags(rt: HostRuntime) {
    play(
        &rt,
        rt.alloc(),
        "
        set_ready_flag 99 off = NotYours
        set_ready_flag 3 off = Invalidated
        set_ready_flag 1 off
        is_flagged 1 = 0
        is_flagged 2 = 1
        is_flagged own = 1
        set_ready_flag 1 on
        is_flagged 1 = 1
        set_ready_flag own off
        is_flagged 1 = 1
        is_flagged own = 0",
    );
}

#[test]
fn sets_the_expiry(rt: HostRuntime) {
    play(
        &rt,
        rt.alloc(),
        "
        set_expires 2
        expiry = 120000
        set_expires 0
        expiry = 0
        set_expires 2
        set_expires -1
        expiry = 0",
    );
}

#[test]
fn ends_a_session_once(rt: HostRuntime) {
    play(
        &rt,
        rt.alloc(),
        "
        invalidate_session 99 = NotYours
        invalidate_session 3 = Invalidated
        invalidate_session 10
        is_there 10 = 0
        invalidate_session 10 = Invalidated
        respond 1 200 OK  # that of another",
    );
}

// A request that began its SipSession can be named as long as that is there.
#[test]
fn first_request_of_an_ended_session_is_gone(rt: HostRuntime) {
    play(
        &rt,
        rt.alloc(),
        "
        invalidate_session 1
        respond 1 200 OK = NotYours",
    );
}

// Its end answered it, so it can't be named any more.
#[test]
fn later_request_of_an_ended_session_is_gone(rt: HostRuntime) {
    play(
        &rt,
        rt.alloc(),
        "
        invalidate_session 7
        respond 8 200 OK = NotYours",
    );
}
