use crate::playing::play;

#[test]
fn proxies_an_initial_request(rt: HostRuntime) {
    play(
        &rt,
        rt.alloc(),
        "
        proxy_to 99 1 180 = NotYours
        proxy_to 2 1 180 = NotYours  # it was sent
        proxy_to 3 1 180 = Invalidated
        proxy_to 8 1 180 = NotInitial
        proxy_to 1 1 180
        proxy_to 1 1 180  # a further target",
    );
}

#[test]
fn proxies_what_has_no_answer(rt: HostRuntime) {
    play(
        &rt,
        rt.alloc(),
        "
        proxy_to 4 1 180 = AlreadyAnswered
        proxy_to 12 1 180 = AlreadyProxy
        proxy_to 13 1 180 = WrongState(Early)
        proxy_to 9 1 180 = NoHops
        proxy_to 9 0 0 = NoHops  # before the targets",
    );
}

#[test]
fn proxies_to_targets_for_a_time(rt: HostRuntime) {
    play(
        &rt,
        rt.alloc(),
        "
        proxy_to 1 0 0 = BadText(0)
        proxy_to 1 1 0 = BadText(1)
        proxy_to 1 1 3601 = BadText(1)
        proxy_to 1 1 3600",
    );
}

// Three branches are there.
#[test]
fn proxies_to_32_targets(rt: HostRuntime) {
    play(
        &rt,
        rt.alloc(),
        "
        proxy_to 1 30 180 = Limit(32)
        proxy_to 1 29 180
        proxy_to 5 1 180 = Limit(32)",
    );
}

#[test]
fn cancels_the_branches_of_a_proxy(rt: HostRuntime) {
    play(
        &rt,
        rt.alloc(),
        "
        proxy_cancel 99 = NotYours
        proxy_cancel 3 = Invalidated
        proxy_cancel 4 = NotSent  # it isn't proxied
        proxy_cancel 12 = AlreadyAnswered
        proxy_cancel 5
        proxy_to 5 1 180  # it is proxied still",
    );
}
