//! What helpers say to the other side.

use crate::telling::tell;

fn subscription() -> &'static str {
    "
        accept 1 2 pending % Event:presence Expires:600 = For(600)
        change 2 = 16
        activate 2 = 17
        change 2 = 18
        accept 8 2 pending % Event:presence;id!7 Expires:60 = For(60)
        end 2 = 20"
}

#[test]
fn tells_each_state_of_a_subscription(rt: HostRuntime) {
    let rows = subscription();
    assert!(rt;
        tell(
            rt.alloc(),
            rows,
            "Subscription-State",
            "pending;expires=600, pending;expires=600, active;expires=600, active;expires=600, active;expires=60, terminated;reason=noresource"
        )
    );
    assert!(rt;
        tell(
            rt.alloc(),
            rows,
            "Event",
            "presence, presence, presence, presence, presence;id=7, presence;id=7"
        )
    );
    assert!(rt; tell(rt.alloc(), rows, "body", "-, -, open, closed, open, -"));
    assert!(rt; tell(rt.alloc(), rows, "Expires", "600, 60"));
}

fn renewed() -> &'static str {
    "
        accept 1 2 pending % Event:presence Expires:600 = For(600)
        accept 8 2 active % Event:presence Expires:60 = For(60)
        change 2 = 17
        accept 7 2 pending % Event:presence Expires:120 = For(120)
        change 2 = 19"
}

#[test]
fn tells_a_renewed_subscription_as_pending(rt: HostRuntime) {
    let rows = renewed();
    assert!(rt;
        tell(
            rt.alloc(),
            rows,
            "Subscription-State",
            "pending;expires=600, pending;expires=60, pending;expires=60, pending;expires=120, pending;expires=120"
        )
    );
    assert!(rt; tell(rt.alloc(), rows, "body", "-, -, -, -, -"));
}

fn ended() -> &'static str {
    "
        accept 1 2 active % Event:presence Expires:600 = For(600)
        time_out 2 = Some(ReqId(16))
        accept 8 2 active % Event:presence Expires:0 = For(0)"
}

#[test]
fn tells_that_time_is_over(rt: HostRuntime) {
    let rows = ended();
    assert!(rt;
        tell(
            rt.alloc(),
            rows,
            "Subscription-State",
            "active;expires=600, terminated;reason=timeout, terminated;reason=timeout"
        )
    );
    assert!(rt; tell(rt.alloc(), rows, "body", "open, -, -"));
}

fn refused() -> &'static str {
    "
        accept 8 2 active % Event:dialog = BadEvent
        accept 1 2 active % Event:presence Expires:30 = Brief"
}

#[test]
fn tells_why_a_subscribe_is_refused(rt: HostRuntime) {
    let rows = refused();
    assert!(rt; tell(rt.alloc(), rows, "reason", "Bad Event, Interval Too Brief"));
    assert!(rt; tell(rt.alloc(), rows, "Allow-Events", "presence"));
    assert!(rt; tell(rt.alloc(), rows, "Min-Expires", "60"));
}

fn refresh() -> &'static str {
    "
        begin 2 % Session-Expires:120
        fire 2 = Refresh(ReqId(15))"
}

#[test]
fn tells_the_interval_of_a_refresh(rt: HostRuntime) {
    let rows = refresh();
    assert!(rt; tell(rt.alloc(), rows, "Session-Expires", "120;refresher=uac"));
    assert!(rt; tell(rt.alloc(), rows, "Supported", "timer"));
}

fn offers() -> &'static str {
    "
        offer 1 % Supported:100rel = 1
        take_prack 1 8 % RAck:1_1_INVITE = Acknowledged(1)
        offer 1 % Supported:100rel = 2
        take_prack 1 7 = NoMatch
        late 1 3 = true"
}

#[test]
fn tells_the_number_of_an_offer(rt: HostRuntime) {
    let rows = offers();
    assert!(rt; tell(rt.alloc(), rows, "RSeq", "1, 2"));
    assert!(rt; tell(rt.alloc(), rows, "Require", "100rel, 100rel"));
    assert!(rt;
        tell(
            rt.alloc(),
            rows,
            "reason",
            "Session Progress, OK, Session Progress, Call/Transaction Does Not Exist, Server Internal Error"
        )
    );
}
