use crate::playing::play;

#[test]
fn answers_what_came_alone(rt: HostRuntime) {
    play(
        &rt,
        rt.alloc(),
        "
        respond 99 200 OK = NotYours
        respond 2 200 OK = NotYours  # it was sent
        respond 10 200 OK = NotYours  # it is an ACK
        respond 3 200 OK = Invalidated
        respond 8 200 OK",
    );
}

#[test]
fn answers_finally_once(rt: HostRuntime) {
    play(
        &rt,
        rt.alloc(),
        "
        respond 5 200 OK = AlreadyProxy
        respond 12 200 OK = AlreadyProxy
        respond 4 200 OK = AlreadyAnswered
        respond 1 180 Ringing
        respond 1 200 OK
        respond 1 200 OK = AlreadyAnswered",
    );
}

#[test]
fn leaves_system_headers_alone(rt: HostRuntime) {
    play(
        &rt,
        rt.alloc(),
        "
        respond 1 200 OK vIA x = SystemHeader
        respond 1 200 OK l 0 = SystemHeader
        respond 1 200 OK @ = SystemHeader
        respond 1 100 Trying vIA x = SystemHeader  # before the code
        respond 1 302 Moved @
        respond 7 485 Ambiguous @",
    );
}

#[test]
fn answers_in_form(rt: HostRuntime) {
    play(
        &rt,
        rt.alloc(),
        "
        respond 1 100 Trying = BadText(0)
        respond 1 700 O|K = BadText(0)
        respond 1 200 O|K = BadText(1)
        respond 1 200 OK a_b x = BadText(3)
        respond 1 200 OK a x_ = BadText(3)
        respond 1 101 OK
        respond 1 699 OK",
    );
}
