//! Drafts, and what is done with a request that was sent.

use crate::playing::play;

#[test]
fn directs_a_draft(rt: HostRuntime) {
    play(
        &rt,
        rt.alloc(),
        "
        set_directive 1 New - = NotYours  # no draft
        create_request New - OPTIONS = 1
        set_directive 1 Continue 99 = NotYours
        set_directive 1 Continue 3 = Invalidated
        set_directive 1 Continue - = NotInitial
        set_directive 1 Reverse 8 = NotInitial
        set_directive 1 Reverse 1",
    );
}

#[test]
fn directs_no_draft_of_a_dialog(rt: HostRuntime) {
    play(
        &rt,
        rt.alloc(),
        "
        create_in_dialog 2 INFO = 1
        set_directive 1 New - = NotInitial
        invalidate_session 2
        set_directive 1 New - = Invalidated",
    );
}

#[test]
fn sends_a_draft_once(rt: HostRuntime) {
    play(
        &rt,
        rt.alloc(),
        "
        create_request New - OPTIONS = 1
        create_in_dialog 2 INFO = 2
        send 3 = NotYours
        send 2 = 15
        send 2 = NotYours
        send 1 = 16",
    );
}

#[test]
fn sends_no_draft_of_an_ended_dialog(rt: HostRuntime) {
    play(
        &rt,
        rt.alloc(),
        "
        create_in_dialog 10 INFO = 1
        create_in_dialog 2 INFO = 2
        respond 13 486 Busy_Here
        send 1 = WrongState(Terminated)
        invalidate_session 2
        send 2 = Invalidated",
    );
}

#[test]
fn discards_a_draft_with_its_session(rt: HostRuntime) {
    play(
        &rt,
        rt.alloc(),
        "
        create_request New - OPTIONS = 1
        is_there 12 = 1
        discard 1
        is_there 12 = 0
        discard 1 = NotYours
        send 1 = NotYours
        create_request New - OPTIONS = 2",
    );
}

#[test]
fn discards_a_draft_of_a_dialog(rt: HostRuntime) {
    play(
        &rt,
        rt.alloc(),
        "
        create_in_dialog 2 INFO = 1
        discard 1
        is_there 2 = 1
        create_in_dialog 2 INFO = 2
        invalidate_session 2
        discard 2 = Invalidated",
    );
}

#[test]
fn acknowledges_what_was_accepted(rt: HostRuntime) {
    play(
        &rt,
        rt.alloc(),
        "
        ack 99 = NotYours
        ack 3 = Invalidated
        ack 6 = NotSent
        ack 2
        ack 2 = NotSent",
    );
}

#[test]
fn cancels_what_was_sent(rt: HostRuntime) {
    play(
        &rt,
        rt.alloc(),
        "
        cancel 99 = NotYours
        cancel 3 = Invalidated
        cancel 1 = NotSent  # it came
        cancel 11 = NotSent  # it is no INVITE
        cancel 2 = WrongState(Confirmed)
        cancel 14 = WrongState(Initial)
        cancel 6",
    );
}
