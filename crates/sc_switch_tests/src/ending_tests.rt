//! Sessions that a servlet ends.

use crate::letters::Letter::Invite;
use crate::orders::FIRST;
use crate::orders::Order::{Count, In, Info, Turn, Withdraw};
use crate::plans::Plan;
use crate::trying::{MANY, Row, hold};
use std::test::Fail;

const ROWS: [Row; 4] = [
    Row {
        name: "an ended application session answers 500",
        plan: Plan::Ends,
        script: &[In(Invite), Turn, Count],
        told: b"c1 100 -\n\
              Taken\n\
              c1 500 s1-0-1-1\n\
              steps 2 live 0 waiting 0 leases 0\n",
    },
    Row {
        name: "an ended application session keeps its answer",
        plan: Plan::AnswersAndEnds,
        script: &[In(Invite), Turn, Count],
        told: b"c1 100 -\n\
              Taken\n\
              c1 200 s1-0-1-1\n\
              steps 2 live 0 waiting 0 leases 0\n",
    },
    Row {
        name: "an ended application session sends its request, which no CANCEL follows",
        plan: Plan::SendsAndEnds,
        script: &[In(Invite), Turn, Count],
        told: b"c1 100 -\n\
              Taken\n\
              5071 INVITE z9hG4bKs1-0-1-4\n\
              c1 500 s1-0-1-1\n\
              steps 2 live 0 waiting 0 leases 0\n",
    },
    Row {
        name: "an ended SipSession answers each request once",
        plan: Plan::EndsSessionAndFaults,
        script: &[In(Invite), Turn, Info(2), Turn, Withdraw(FIRST)],
        told: b"c1 100 -\n\
              Taken\n\
              c1 180 s1-0-1-1\n\
              Taken\n\
              c1 500 s1-0-1-1\n\
              c1 500 s1-0-1-1\n\
              Withdrawn\n",
    },
];

#[test]
fn ended_sessions(rt: HostRuntime) -> Result<(), Fail> {
    hold(&rt, rt.alloc(), MANY, &ROWS)
}
