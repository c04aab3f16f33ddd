//! Proxies that try one target after another, or both at once.

use crate::letters::Letter::{
    AcceptedByFirst, AcceptedBySecond, BusyOfFirst, Cancel, DeclinedByFirst, EndedByFirst, Invite,
    RingingOfFirst, RingingOfSecond,
};
use crate::orders::Order::{Count, In, Lost, Tick, Turn};
use crate::plans::Plan;
use crate::trying::{MANY, Row, hold};
use std::test::Fail;

const ROWS: [Row; 11] = [
    Row {
        name: "the second target is tried after the first",
        plan: Plan::Proxies,
        script: &[
            In(Invite),
            Turn,
            In(BusyOfFirst),
            Turn,
            In(AcceptedBySecond),
            Turn,
        ],
        told: b"c1 100 -\n\
              Taken\n\
              5071 INVITE z9hG4bKs1-0-1-2\n\
              5071 ACK z9hG4bKs1-0-1-2\n\
              Taken\n\
              5072 INVITE z9hG4bKs1-0-1-3\n\
              Taken\n\
              c1 200 t2\n",
    },
    Row {
        name: "the first target that accepts is the last",
        plan: Plan::Proxies,
        script: &[In(Invite), Turn, In(AcceptedByFirst), Turn],
        told: b"c1 100 -\n\
              Taken\n\
              5071 INVITE z9hG4bKs1-0-1-2\n\
              Taken\n\
              c1 200 t1\n",
    },
    Row {
        name: "a target that declines is the last",
        plan: Plan::Proxies,
        script: &[In(Invite), Turn, In(DeclinedByFirst), Turn],
        told: b"c1 100 -\n\
              Taken\n\
              5071 INVITE z9hG4bKs1-0-1-2\n\
              5071 ACK z9hG4bKs1-0-1-2\n\
              Taken\n\
              c1 603 t1\n",
    },
    Row {
        name: "no target is tried after a CANCEL",
        plan: Plan::Proxies,
        script: &[
            In(Invite),
            Turn,
            In(RingingOfFirst),
            Turn,
            In(Cancel),
            Turn,
            In(EndedByFirst),
            Turn,
        ],
        told: b"c1 100 -\n\
              Taken\n\
              5071 INVITE z9hG4bKs1-0-1-2\n\
              Taken\n\
              c1 180 t1\n\
              c1 200 s1-0-1-1\n\
              Taken\n\
              5071 CANCEL z9hG4bKs1-0-1-2\n\
              5071 ACK z9hG4bKs1-0-1-2\n\
              Taken\n\
              c1 487 t1\n",
    },
    Row {
        name: "the second target is tried after silence",
        plan: Plan::Proxies,
        script: &[In(Invite), Turn, Tick(32_000), Turn],
        told: b"c1 100 -\n\
              Taken\n\
              5071 INVITE z9hG4bKs1-0-1-2\n\
              Taken\n\
              5072 INVITE z9hG4bKs1-0-1-3\n",
    },
    Row {
        name: "the second target is tried after a loss",
        plan: Plan::Proxies,
        script: &[In(Invite), Turn, Lost(5071), Turn],
        told: b"c1 100 -\n\
              Taken\n\
              5071 INVITE z9hG4bKs1-0-1-2\n\
              Taken\n\
              5072 INVITE z9hG4bKs1-0-1-3\n",
    },
    Row {
        name: "a success cancels the other branch",
        plan: Plan::Forks,
        script: &[
            In(Invite),
            Turn,
            Tick(1000),
            In(RingingOfSecond),
            Turn,
            In(AcceptedByFirst),
            Turn,
        ],
        told: b"c1 100 -\n\
              Taken\n\
              5071 INVITE z9hG4bKs1-0-1-2\n\
              5072 INVITE z9hG4bKs1-0-1-3\n\
              Taken\n\
              c1 180 t2\n\
              Taken\n\
              c1 200 t1\n\
              5072 CANCEL z9hG4bKs1-0-1-3\n",
    },
    Row {
        name: "a late success cancels the other branch",
        plan: Plan::Forks,
        script: &[
            In(Invite),
            Turn,
            Tick(1000),
            In(RingingOfSecond),
            Turn,
            Tick(2000),
            Turn,
            In(AcceptedByFirst),
            Turn,
        ],
        told: b"c1 100 -\n\
              Taken\n\
              5071 INVITE z9hG4bKs1-0-1-2\n\
              5072 INVITE z9hG4bKs1-0-1-3\n\
              Taken\n\
              c1 180 t2\n\
              Taken\n\
              Taken\n\
              c1 200 t1\n\
              5072 CANCEL z9hG4bKs1-0-1-3\n",
    },
    Row {
        name: "a cancelled proxy tries no further target",
        plan: Plan::CancelsAtResponse,
        script: &[
            In(Invite),
            Turn,
            In(RingingOfFirst),
            Turn,
            In(EndedByFirst),
            Turn,
        ],
        told: b"c1 100 -\n\
              Taken\n\
              5071 INVITE z9hG4bKs1-0-1-2\n\
              Taken\n\
              c1 180 t1\n\
              5071 CANCEL z9hG4bKs1-0-1-2\n\
              5071 ACK z9hG4bKs1-0-1-2\n\
              Taken\n\
              c1 487 t1\n",
    },
    Row {
        name: "targets behind a cancel are tried",
        plan: Plan::CancelsAndAdds,
        script: &[In(Invite), Turn, Count],
        told: b"c1 100 -\n\
              Taken\n\
              5072 INVITE z9hG4bKs1-0-1-2\n\
              steps 2 live 1 waiting 0 leases 0\n",
    },
    Row {
        name: "a target is added at the last response, which is not forwarded",
        plan: Plan::AddsTarget,
        script: &[
            In(Invite),
            Turn,
            In(BusyOfFirst),
            Turn,
            In(AcceptedBySecond),
            Turn,
        ],
        told: b"c1 100 -\n\
              Taken\n\
              5071 INVITE z9hG4bKs1-0-1-2\n\
              5071 ACK z9hG4bKs1-0-1-2\n\
              Taken\n\
              5072 INVITE z9hG4bKs1-0-1-3\n\
              Taken\n\
              c1 200 t2\n",
    },
];

#[test]
fn proxied_requests(rt: HostRuntime) -> Result<(), Fail> {
    hold(&rt, rt.alloc(), MANY, &ROWS)
}
