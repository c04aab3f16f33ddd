//! Sessions that are withdrawn while their turns are lent out.

use crate::letters::Letter::{Bye, Invite, OtherInvite};
use crate::orders::Order::{Bring, Count, In, Lend, Steps, Tick, Turn, Withdraw};
use crate::orders::{FIRST, SECOND};
use crate::plans::Plan;
use crate::trying::{MANY, Row, hold};
use std::test::Fail;

const ROWS: [Row; 3] = [
    Row {
        name: "the lease of a withdrawn session is gone",
        plan: Plan::Rings,
        script: &[
            In(Invite),
            Turn,
            Tick(1000),
            Lend,
            In(Bye),
            Withdraw(FIRST),
            Count,
            Bring,
            Steps,
        ],
        told: b"c1 100 -\n\
              Taken\n\
              c1 180 s1-0-1-1\n\
              Withdrawn\n\
              c1 500 s1-0-1-1\n\
              c1 481 s1-0-1-1\n\
              steps 5 live 0 waiting 0 leases 0\n\
              Gone 2\n\
              In c1 INVITE z9hG4bKa1\n\
              Turn 0-1 event 1 at 0 call call Fine\n\
              Tick 1000\n\
              In c1 BYE z9hG4bKb2\n\
              Withdraw 0-1\n",
    },
    Row {
        name: "a session is withdrawn once",
        plan: Plan::Silent,
        script: &[
            In(Invite),
            Withdraw(SECOND),
            Withdraw(FIRST),
            Withdraw(FIRST),
            Count,
        ],
        told: b"c1 100 -\n\
              Not live\n\
              Withdrawn\n\
              c1 481 s1-0-1-1\n\
              Not live\n\
              steps 2 live 0 waiting 0 leases 0\n",
    },
    Row {
        name: "the lease of another session stays",
        plan: Plan::Notes,
        script: &[
            In(Invite),
            In(OtherInvite),
            Lend,
            Lend,
            Withdraw(FIRST),
            Bring,
            Bring,
            Count,
        ],
        told: b"c1 100 -\n\
              c1 100 -\n\
              Withdrawn\n\
              c1 481 s1-0-1-1\n\
              Gone 1\n\
              Taken\n\
              steps 4 live 1 waiting 0 leases 0\n",
    },
];

#[test]
fn withdrawn_sessions(rt: HostRuntime) -> Result<(), Fail> {
    hold(&rt, rt.alloc(), MANY, &ROWS)
}
