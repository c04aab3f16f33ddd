use crate::playing::play;

#[test]
fn makes_64_sessions(rt: HostRuntime) {
    play(
        &rt,
        rt.alloc(),
        "
        create_request New - OPTIONS = 54 times  # ten are there
        create_request New - OPTIONS = Limit(64)
        discard 1
        create_request New - OPTIONS = 55",
    );
}

#[test]
fn goes_on_from_what_came(rt: HostRuntime) {
    play(
        &rt,
        rt.alloc(),
        "
        create_request New 99 OPTIONS = NotYours
        create_request New 3 OPTIONS = Invalidated
        create_request Continue 2 OPTIONS = NotYours  # it was sent
        create_request Continue - OPTIONS = NotInitial
        create_request Reverse 8 OPTIONS = NotInitial
        create_request New 8 OPTIONS = 1
        create_request Reverse 1 OPTIONS = 2",
    );
}

#[test]
fn creates_without_system_headers(rt: HostRuntime) {
    play(
        &rt,
        rt.alloc(),
        "
        create_request New - OPTIONS Route <sip:h> = SystemHeader
        create_request New - OPTIONS i c = SystemHeader
        create_request New - OPTIONS @ = SystemHeader
        create_request New - REGISTER @ = 1",
    );
}

#[test]
fn creates_in_form(rt: HostRuntime) {
    play(
        &rt,
        rt.alloc(),
        "
        create_request New - ~ = BadText(0)
        create_request New - A_B = BadText(0)
        create_request New - ACK = BadText(0)
        create_request New - CANCEL = BadText(0)
        create_request New - OPTIONS ~ x = BadText(3)
        create_request New - OPTIONS a x^|y = BadText(3)",
    );
}

#[test]
fn creates_in_open_dialogs(rt: HostRuntime) {
    play(
        &rt,
        rt.alloc(),
        "
        create_in_dialog 99 INFO = NotYours
        create_in_dialog 3 INFO = Invalidated
        create_in_dialog 1 INFO = WrongState(Initial)
        create_in_dialog 4 INFO = WrongState(Terminated)
        create_in_dialog 9 INFO = WrongState(Confirmed)  # it is a proxy's
        create_in_dialog 2 INFO = 1
        create_in_dialog 10 INFO = 2",
    );
}

#[test]
fn creates_in_dialogs_in_form(rt: HostRuntime) {
    play(
        &rt,
        rt.alloc(),
        "
        create_in_dialog 2 INFO m <sip:h> = SystemHeader
        create_in_dialog 2 ACK = BadText(0)
        create_in_dialog 2 INFO a: x = BadText(3)",
    );
}
