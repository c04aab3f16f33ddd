//! Turns that end as failed or for want of memory.

use crate::letters::Letter::Invite;
use crate::orders::Order::{Count, In, Info, Turn};
use crate::plans::Plan;
use crate::trying::{MANY, Row, hold};
use std::test::Fail;

const ROWS: [Row; 5] = [
    Row {
        name: "a failed turn is answered 500",
        plan: Plan::Faults,
        script: &[In(Invite), Turn],
        told: b"c1 100 -\n\
              Taken\n\
              c1 500 s1-0-1-1\n",
    },
    Row {
        name: "a failed turn keeps its own answer",
        plan: Plan::AnswersAndFaults,
        script: &[In(Invite), Turn],
        told: b"c1 100 -\n\
              Taken\n\
              c1 200 s1-0-1-1\n",
    },
    Row {
        name: "a failed turn keeps its branch",
        plan: Plan::ProxiesAndFaults,
        script: &[In(Invite), Turn],
        told: b"c1 100 -\n\
              Taken\n\
              5071 INVITE z9hG4bKs1-0-1-2\n",
    },
    Row {
        name: "a failed later turn is answered 500",
        plan: Plan::FaultsLater,
        script: &[In(Invite), Turn, Info(2), Turn],
        told: b"c1 100 -\n\
              Taken\n\
              c1 180 s1-0-1-1\n\
              Taken\n\
              c1 500 s1-0-1-1\n",
    },
    Row {
        name: "a starved turn is no step, and its lease stays",
        plan: Plan::Starves,
        script: &[In(Invite), Turn, Count],
        told: b"c1 100 -\n\
              NoMemory\n\
              steps 1 live 1 waiting 1 leases 1\n",
    },
];

#[test]
fn failing_turns(rt: HostRuntime) -> Result<(), Fail> {
    hold(&rt, rt.alloc(), MANY, &ROWS)
}
