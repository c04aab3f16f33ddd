//! Second legs.

use crate::playing::play;

#[test]
fn second_leg_of_an_initial_request(rt: HostRuntime) {
    play(
        &rt,
        rt.alloc(),
        "
        b2b_create 99 = NotYours
        b2b_create 2 = NotYours  # it was sent
        b2b_create 3 = Invalidated
        b2b_create 8 = NotInitial
        b2b_create 1 = 1
        partner 1 = 12
        partner 12 = 1",
    );
}

#[test]
fn second_leg_of_what_waits(rt: HostRuntime) {
    play(
        &rt,
        rt.alloc(),
        "
        b2b_create 5 = AlreadyProxy
        b2b_create 4 = AlreadyAnswered
        b2b_create 7 = AlreadyLinked(SessId(6))
        b2b_create 9 = NoHops",
    );
}

#[test]
fn second_leg_is_one_of_64_sessions(rt: HostRuntime) {
    play(
        &rt,
        rt.alloc(),
        "
        create_request New - OPTIONS = 54 times  # ten are there
        b2b_create 1 = Limit(64)
        b2b_create 9 = NoHops  # that is judged before",
    );
}

#[test]
fn answers_for_the_other_leg(rt: HostRuntime) {
    play(
        &rt,
        rt.alloc(),
        "
        b2b_respond 99 200 OK = NotYours
        b2b_respond 3 200 OK = Invalidated
        b2b_respond 1 200 OK = NotLinked
        b2b_respond 6 200 OK = NotYours  # nothing came there
        b2b_respond 7 200 OK
        b2b_respond 7 200 OK = AlreadyAnswered",
    );
}

#[test]
fn answers_for_the_other_leg_in_form(rt: HostRuntime) {
    play(
        &rt,
        rt.alloc(),
        "
        b2b_respond 7 200 OK @ = SystemHeader
        b2b_respond 7 99 OK = BadText(0)
        link 5 1
        b2b_respond 5 200 OK = AlreadyProxy",
    );
}
