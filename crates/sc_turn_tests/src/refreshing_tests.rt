//! Session timers, as calls.

use crate::playing::play;

#[test]
fn grants_an_interval(rt: HostRuntime) {
    play(
        &rt,
        rt.alloc(),
        "
        granted = Off
        granted % x:60 = Off
        granted % x:60 Supported:timer = TooSmall
        granted % x:89 Require:path,_TIMER = TooSmall
        granted % x:90 Supported:timer = On(90, false)
        granted % x:120 Session-Expires:240 = On(120, true)
        granted % Session-Expires:4000000 = On(4000000, true)
        granted % Session-Expires:4000001 = Off
        granted % Session-Expires:soon Supported:timer = Off",
    );
}

#[test]
fn grants_who_refreshes(rt: HostRuntime) {
    play(
        &rt,
        rt.alloc(),
        "
        granted % Session-Expires:120 = On(120, true)
        granted % Session-Expires:120;refresher!uac = On(120, true)
        granted % Session-Expires:120 Supported:timer = On(120, false)
        granted % Session-Expires:120;refresher!uac Supported:timer = On(120, false)
        granted % Session-Expires:120;refresher!uas Supported:timer = On(120, true)",
    );
}

#[test]
fn grants_by_headers(rt: HostRuntime) {
    play(
        &rt,
        rt.alloc(),
        "
        header 0 % Session-Expires:120 = Session-Expires: 120;refresher=uas
        header 1 % Session-Expires:120 =
        header 0 % Session-Expires:120 Supported:timer = Session-Expires: 120;refresher=uac
        header 1 % Session-Expires:120 Supported:timer = Require: timer
        header 2 % Session-Expires:120 Supported:timer =
        header 0 % x:60 Supported:timer =  # too small
        header 0 =",
    );
}

#[test]
fn refreshes_a_session(rt: HostRuntime) {
    play(
        &rt,
        rt.alloc(),
        "
        begin 2 % Session-Expires:120;refresher!uas
        attribute st2 = 120 me 2
        due 2 = 60000
        fire 1 = NotMine
        answered 2 200 = None  # no refresh waits
        fire 2 = Refresh(ReqId(15))
        attribute st2 = 120 me 0
        answered 2 180 = None
        answered 2 200 = None
        attribute st2 = 120 me 3
        due 3 = 60000
        stop 2
        attribute st2 =
        due 3 =",
    );
}

#[test]
fn begins_anew(rt: HostRuntime) {
    play(
        &rt,
        rt.alloc(),
        "
        begin 2 % Session-Expires:120;refresher!uas
        begin 2 % Session-Expires:240 Supported:timer
        attribute st2 = 240 peer 3
        due 2 =
        due 3 = 208000
        begin 2 % x:60 Supported:timer  # too small
        attribute st2 =
        due 3 =",
    );
}

#[test]
fn is_due_before_the_end(rt: HostRuntime) {
    play(
        &rt,
        rt.alloc(),
        "
        begin 2 % Session-Expires:90;refresher!uas
        due 2 = 45000
        begin 2 % Session-Expires:90 Supported:timer
        due 3 = 60000
        begin 2 % Session-Expires:95 Supported:timer
        due 4 = 64000
        begin 2 % Session-Expires:99 Supported:timer
        due 5 = 67000",
    );
}

#[test]
fn ends_a_session_that_nobody_refreshed(rt: HostRuntime) {
    play(
        &rt,
        rt.alloc(),
        "
        begin 2 % Session-Expires:120;refresher!uac Supported:timer
        attribute st2 = 120 peer 2
        due 2 = 88000
        fire 2 = Bye(ReqId(15))
        attribute st2 =
        fire 2 = NotMine",
    );
}

#[test]
fn ends_a_session_whose_refresh_failed(rt: HostRuntime) {
    play(
        &rt,
        rt.alloc(),
        "
        begin 2 % Session-Expires:120
        fire 2 = Refresh(ReqId(15))
        answered 2 481 = Some(ReqId(16))
        attribute st2 =
        answered 2 481 = None
        begin 2
        stop 2",
    );
}

#[test]
fn begins_no_timer_where_a_call_is_refused(rt: HostRuntime) {
    play(
        &rt,
        rt.alloc(),
        "
        set_attribute a 4090
        begin 2 % Session-Expires:120 = Stopped { refusal: Limit(4096), made: 1 }
        start_timer = 62 times  # two are there
        begin 2 % Session-Expires:120 = Stopped { refusal: Limit(64), made: 0 }
        attribute st2 =",
    );
}

#[test]
fn stops_no_timer_where_a_call_is_refused(rt: HostRuntime) {
    play(
        &rt,
        rt.alloc(),
        "
        begin 2 % Session-Expires:120
        set_expires 1 = 253 times
        stop 2 = Stopped { refusal: Limit(256), made: 1 }
        attribute st2 = 120 me 2",
    );
}

#[test]
fn refreshes_no_session_that_is_gone(rt: HostRuntime) {
    play(
        &rt,
        rt.alloc(),
        "
        begin 2 % Session-Expires:120
        invalidate_session 2
        fire 2 = Stopped { refusal: Invalidated, made: 0 }
        attribute st2 = 120 me 2
        note st2 120_me_0
        answered 2 481 = Stopped { refusal: Invalidated, made: 0 }
        attribute st2 = 120 me 0",
    );
}

#[test]
fn begins_nothing_after_the_application_session_ended(rt: HostRuntime) {
    play(
        &rt,
        rt.alloc(),
        "
        invalidate_application
        begin 2 % Session-Expires:120 = Stopped { refusal: Invalidated, made: 0 }",
    );
}
