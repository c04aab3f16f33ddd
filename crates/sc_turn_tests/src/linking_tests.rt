use crate::playing::play;

#[test]
fn links_two_sessions(rt: HostRuntime) {
    play(
        &rt,
        rt.alloc(),
        "
        link 99 1 = NotYours
        link 3 99 = NotYours  # before the one that is gone
        link 1 3 = Invalidated
        link 1 8
        partner 1 = 8
        partner 8 = 1",
    );
}

#[test]
fn links_what_is_not_linked(rt: HostRuntime) {
    play(
        &rt,
        rt.alloc(),
        "
        link 4 4 = AlreadyLinked(SessId(4))
        link 4 1 = WrongState(Terminated)
        link 7 4 = WrongState(Terminated)
        link 6 1 = AlreadyLinked(SessId(7))
        link 1 6 = AlreadyLinked(SessId(7))
        link 6 7 = AlreadyLinked(SessId(7))",
    );
}

#[test]
fn unlinks_both_sides(rt: HostRuntime) {
    play(
        &rt,
        rt.alloc(),
        "
        unlink 99 = NotYours
        unlink 3 = Invalidated
        unlink 1 = NotLinked
        unlink 7
        partner 6 = 0
        partner 7 = 0
        unlink 6 = NotLinked
        link 7 1",
    );
}

#[test]
fn session_that_goes_takes_its_link_away(rt: HostRuntime) {
    play(
        &rt,
        rt.alloc(),
        "
        invalidate_session 6
        partner 7 = 0
        unlink 7 = NotLinked",
    );
}
