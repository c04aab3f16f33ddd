//! Event notification, as calls.

use crate::playing::play;

#[test]
fn judges_a_subscribe(rt: HostRuntime) {
    play(
        &rt,
        rt.alloc(),
        "
        asked = BadEvent
        asked % Event:dialog = BadEvent
        asked % Event:dialog o:presence = BadEvent  # the first one counts
        asked % o:presence;id!1 Expires:30 = Brief
        asked % Event:presence Expires:59 = Brief
        asked % Event:presence Expires:60 = For(60)
        asked % Event:presence Expires:0 = For(0)
        asked % Event:presence = For(3600)
        asked % Event:presence Expires:4000 = For(3600)",
    );
}

#[test]
fn makes_a_rule_of_its_ranges(rt: HostRuntime) {
    play(
        &rt,
        rt.alloc(),
        "
        rule 1 1 = 1
        rule 3600 4000000 = 4000000
        rule 0 60 = Least
        rule 3601 4000000 = Least
        rule 60 59 = Longest
        rule 60 4000001 = Longest
        rule 0 4000001 = Least  # the first one counts",
    );
}

#[test]
fn refuses_a_subscribe(rt: HostRuntime) {
    play(
        &rt,
        rt.alloc(),
        "
        accept 8 2 pending % Event:dialog = BadEvent
        accept 1 2 active % Event:presence Expires:30 = Brief
        attribute sub2 =
        respond 1 200 OK = AlreadyAnswered",
    );
}

#[test]
fn keeps_a_pending_subscription(rt: HostRuntime) {
    play(
        &rt,
        rt.alloc(),
        "
        accept 1 2 pending % Event:presence Expires:600 = For(600)
        attribute sub2 = P 600000 2
        attribute ev2 = presence
        due 2 = 600000
        change 2 = 16
        accept 8 2 active % Event:presence;id!7 Expires:60 = For(60)
        attribute sub2 = P 60000 3
        attribute ev2 = presence;id=7
        due 2 =
        due 3 = 60000",
    );
}

#[test]
fn renews_a_pending_subscription_as_pending(rt: HostRuntime) {
    play(
        &rt,
        rt.alloc(),
        "
        accept 1 2 pending % Event:presence Expires:600 = For(600)
        accept 8 2 active % Event:presence Expires:60 = For(60)
        attribute sub2 = P 60000 3
        accept 7 2 pending % Event:presence Expires:120 = For(120)
        attribute sub2 = P 120000 4
        activate 2 = 18
        attribute sub2 = A 120000 4
        activate 2 = NotPending",
    );
}

#[test]
fn keeps_an_active_subscription(rt: HostRuntime) {
    play(
        &rt,
        rt.alloc(),
        "
        accept 1 2 active % Event:presence Expires:600 = For(600)
        attribute sub2 = A 600000 2
        accept 8 2 pending % Event:presence Expires:60 = For(60)
        attribute sub2 = A 60000 3",
    );
}

#[test]
fn makes_a_subscription_active_once(rt: HostRuntime) {
    play(
        &rt,
        rt.alloc(),
        "
        accept 1 2 pending % Event:presence Expires:600 = For(600)
        activate 2 = 16
        attribute sub2 = A 600000 2
        activate 2 = NotPending
        end 2 = 17
        attribute sub2 =
        attribute ev2 =
        due 2 =
        end 2 = NotSubscribed",
    );
}

#[test]
fn knows_subscriptions_alone(rt: HostRuntime) {
    play(
        &rt,
        rt.alloc(),
        "
        change 2 = NotSubscribed
        activate 2 = NotSubscribed
        end 2 = NotSubscribed
        failed 2 = NotSubscribed
        time_out 1 = None",
    );
}

#[test]
fn ends_a_subscription_for_0_seconds(rt: HostRuntime) {
    play(
        &rt,
        rt.alloc(),
        "
        accept 1 2 active % Event:presence Expires:600 = For(600)
        accept 8 2 active % Event:presence Expires:0 = For(0)
        attribute sub2 =
        attribute ev2 =
        due 2 =
        accept 7 2 pending % Event:presence Expires:0 = For(0)
        change 2 = NotSubscribed
        accept 13 2 active % Event:presence = For(3600)
        change 2 = 19  # behind four of accept",
    );
}

#[test]
fn ends_a_subscription_with_its_time(rt: HostRuntime) {
    play(
        &rt,
        rt.alloc(),
        "
        accept 1 2 active % Event:presence Expires:600 = For(600)
        time_out 2 = Some(ReqId(16))
        attribute sub2 =
        attribute ev2 =
        time_out 2 = None",
    );
}

#[test]
fn ends_a_subscription_whose_notify_failed(rt: HostRuntime) {
    play(
        &rt,
        rt.alloc(),
        "
        accept 1 2 active % Event:presence = For(3600)
        failed 2
        is_there 2 = 0
        attribute sub2 =
        attribute ev2 =
        due 2 =",
    );
}

#[test]
fn accepts_nothing_where_a_call_is_refused(rt: HostRuntime) {
    play(
        &rt,
        rt.alloc(),
        "
        accept 99 2 active % Event:presence = Turn { refusal: NotYours, made: 0 }
        start_timer = 63 times  # one is there
        accept 1 2 active % Event:presence = Turn { refusal: Limit(64), made: 1 }
        attribute sub2 =
        respond 1 200 OK = AlreadyAnswered",
    );
}

#[test]
fn tells_nothing_in_a_session_that_is_gone(rt: HostRuntime) {
    play(
        &rt,
        rt.alloc(),
        "
        accept 1 2 pending % Event:presence Expires:600 = For(600)
        invalidate_session 2
        change 2 = Turn { refusal: Invalidated, made: 0 }
        activate 2 = Turn { refusal: Invalidated, made: 1 }
        attribute sub2 = A 600000 2
        end 2 = Turn { refusal: Invalidated, made: 3 }
        attribute sub2 =",
    );
}

#[test]
fn ends_nothing_in_a_session_that_is_gone(rt: HostRuntime) {
    play(
        &rt,
        rt.alloc(),
        "
        accept 1 2 active % Event:presence Expires:600 = For(600)
        invalidate_session 2
        time_out 2 = Turn { refusal: Invalidated, made: 3 }
        time_out 2 = None
        note sub2 A_1_9
        failed 2 = Turn { refusal: Invalidated, made: 1 }
        failed 2 = NotSubscribed",
    );
}

#[test]
fn accepts_nothing_after_the_application_session_ended(rt: HostRuntime) {
    play(
        &rt,
        rt.alloc(),
        "
        invalidate_application
        accept 1 2 active % Event:presence = Turn { refusal: Invalidated, made: 0 }",
    );
}
