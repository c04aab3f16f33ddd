//! Reliable provisional responses, as calls.

use crate::playing::play;

#[test]
fn finds_the_invite_of_a_session(rt: HostRuntime) {
    play(
        &rt,
        rt.alloc(),
        "
        invite_of 1 = 1
        invite_of 7 = 7
        invite_of 2 =  # it was sent
        invite_of 99 =",
    );
}

#[test]
fn offers_one_until_its_prack(rt: HostRuntime) {
    play(
        &rt,
        rt.alloc(),
        "
        offer 1 = Unsupported
        offer 1 % Supported:100rel = 1
        attribute rel1 = P 1 1 2
        due 2 = 32000
        offer 1 % Supported:100rel = Pending(1)
        take_prack 1 8 % RAck:1_1_INVITE = Acknowledged(1)
        attribute rel1 = A 1 1
        due 2 =
        offer 1 % Require:path,_100REL = 2
        attribute rel1 = P 2 1 3
        take_prack 1 7 % RAck:2__1__INVITE = Acknowledged(2)",
    );
}

#[test]
fn numbers_offers_behind_the_last(rt: HostRuntime) {
    play(
        &rt,
        rt.alloc(),
        "
        note rel1 A_2147483647_1
        offer 1 % Supported:100rel = Exhausted
        note rel1 F_7_1
        offer 1 % Supported:100rel = 8
        note rel7 A_7
        offer 7 % Supported:100rel = 1",
    );
}

#[test]
fn takes_no_other_prack(rt: HostRuntime) {
    play(
        &rt,
        rt.alloc(),
        "
        take_prack 1 9 % RAck:1_1_INVITE = NoMatch  # nothing was offered
        offer 1 % Supported:100rel = 1
        take_prack 1 8 % RAck:2_1_INVITE = NoMatch
        take_prack 1 7 % RAck:1_2_INVITE = NoMatch
        take_prack 1 13 % RAck:1_1_UPDATE = NoMatch
        attribute rel1 = P 1 1 2
        take_prack 1 10 % RAck:1_1_INVITE = Turn { refusal: NotYours, made: 0 }",
    );
}

#[test]
fn takes_no_prack_without_rack(rt: HostRuntime) {
    play(
        &rt,
        rt.alloc(),
        "
        offer 1 % Supported:100rel = 1
        take_prack 1 8 = NoMatch
        attribute rel1 = P 1 1 2",
    );
}

#[test]
fn stops_an_offer_where_a_call_is_refused(rt: HostRuntime) {
    play(
        &rt,
        rt.alloc(),
        "
        offer 99 % Supported:100rel = Turn { refusal: NotYours, made: 0 }
        start_timer = 63 times  # one is there
        offer 1 % Supported:100rel = Turn { refusal: Limit(64), made: 2 }
        attribute rel1 = P 1 1 0
        set_attribute a 4080
        offer 7 % Supported:100rel = Turn { refusal: Limit(4096), made: 1 }
        attribute rel7 =",
    );
}

#[test]
fn stops_a_prack_where_a_call_is_refused(rt: HostRuntime) {
    play(
        &rt,
        rt.alloc(),
        "
        offer 1 % Supported:100rel = 1
        set_expires 1 = 250 times
        take_prack 1 8 % RAck:1_1_INVITE = Turn { refusal: Limit(256), made: 2 }
        attribute rel1 = A 1 1",
    );
}

#[test]
fn gives_up_an_offer(rt: HostRuntime) {
    play(
        &rt,
        rt.alloc(),
        "
        offer 1 % Supported:100rel = 1
        late 1 9 = false
        late 1 2 = true
        attribute rel1 = F 1 1
        late 1 2 = false
        respond 1 200 OK = AlreadyAnswered",
    );
}

#[test]
fn keeps_an_offer_whose_invite_was_answered(rt: HostRuntime) {
    play(
        &rt,
        rt.alloc(),
        "
        offer 1 % Supported:100rel = 1
        respond 1 200 OK
        late 1 2 = false
        attribute rel1 = P 1 1 2",
    );
}

#[test]
fn gives_up_no_offer_where_a_call_is_refused(rt: HostRuntime) {
    play(
        &rt,
        rt.alloc(),
        "
        note rel5 P_1_1_9
        late 5 9 = Turn { refusal: AlreadyProxy, made: 0 }
        attribute rel5 = P 1 1 9
        note rel1 P_1_1_9
        set_expires 1 = 252 times
        late 1 9 = Turn { refusal: Limit(256), made: 1 }
        attribute rel1 = P 1 1 9",
    );
}

#[test]
fn offers_nothing_after_the_application_session_ended(rt: HostRuntime) {
    play(
        &rt,
        rt.alloc(),
        "
        invalidate_application
        offer 1 % Supported:100rel = Turn { refusal: Invalidated, made: 0 }
        take_prack 1 8 % RAck:1_1_INVITE = Turn { refusal: Invalidated, made: 0 }",
    );
}
