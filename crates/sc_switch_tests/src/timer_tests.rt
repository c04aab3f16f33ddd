//! Servlet timers that fire again.

use crate::letters::Letter::Invite;
use crate::orders::Order::{Bring, Count, In, Lend, Show, Tick, Turn};
use crate::plans::Plan;
use crate::trying::{MANY, Row, hold};
use std::test::Fail;

const ROWS: [Row; 4] = [
    Row {
        name: "a timer of a fixed rate",
        plan: Plan::TimesByRate,
        script: &[
            In(Invite),
            Turn,
            Tick(999),
            Count,
            Tick(1600),
            Lend,
            Show,
            Bring,
            Tick(1600),
            Lend,
            Show,
            Bring,
            Tick(1999),
            Count,
        ],
        told: b"c1 100 -\n\
              Taken\n\
              steps 3 live 1 waiting 0 leases 0\n\
              lease 2 event 2 of 0-1 Timer 1, session 1, timer 1 due 1500\n\
              Taken\n\
              lease 3 event 3 of 0-1 Timer 1, session 1, timer 1 due 2000\n\
              Taken\n\
              steps 8 live 1 waiting 0 leases 0\n",
    },
    Row {
        name: "a timer of a fixed delay",
        plan: Plan::TimesByDelay,
        script: &[
            In(Invite),
            Turn,
            Tick(1600),
            Lend,
            Show,
            Bring,
            Tick(2099),
            Count,
            Tick(2200),
            Lend,
            Show,
            Bring,
        ],
        told: b"c1 100 -\n\
              Taken\n\
              lease 2 event 2 of 0-1 Timer 1, session 1, timer 1 due 2100\n\
              Taken\n\
              steps 5 live 1 waiting 0 leases 0\n\
              lease 3 event 3 of 0-1 Timer 1, session 1, timer 1 due 2700\n\
              Taken\n",
    },
    Row {
        name: "a timer that fires once",
        plan: Plan::TimesOnce,
        script: &[
            In(Invite),
            Turn,
            Tick(1000),
            Lend,
            Show,
            Bring,
            Tick(9000),
            Count,
        ],
        told: b"c1 100 -\n\
              Taken\n\
              lease 2 event 2 of 0-1 Timer 1, session 1\n\
              Taken\n\
              steps 5 live 1 waiting 0 leases 0\n",
    },
    Row {
        name: "a timer that is late fires one by one",
        plan: Plan::TimesByRate,
        script: &[
            In(Invite),
            Turn,
            Tick(2100),
            Lend,
            Show,
            Bring,
            Tick(2100),
            Lend,
            Show,
            Bring,
            Tick(2100),
            Lend,
            Show,
            Bring,
            Tick(2499),
            Count,
        ],
        told: b"c1 100 -\n\
              Taken\n\
              lease 2 event 2 of 0-1 Timer 1, session 1, timer 1 due 1500\n\
              Taken\n\
              lease 3 event 3 of 0-1 Timer 1, session 1, timer 1 due 2000\n\
              Taken\n\
              lease 4 event 4 of 0-1 Timer 1, session 1, timer 1 due 2500\n\
              Taken\n\
              steps 9 live 1 waiting 0 leases 0\n",
    },
];

#[test]
fn servlet_timers(rt: HostRuntime) -> Result<(), Fail> {
    hold(&rt, rt.alloc(), MANY, &ROWS)
}
