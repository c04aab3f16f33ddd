//! Turns that are brought for leases that aren't live, or are others.

use crate::letters::Letter::{Invite, OtherInvite};
use crate::orders::FIRST;
use crate::orders::Order::{
    Bring, BringOther, Count, Double, Forge, In, Info, Lend, LendOf, Number, Show, Steps, Tick,
};
use crate::plans::Plan;
use crate::trying::{MANY, Row, hold};
use std::test::Fail;

const ROWS: [Row; 7] = [
    Row {
        name: "the second turn of a lease is gone",
        plan: Plan::Notes,
        script: &[In(Invite), Lend, Double, Bring, Bring, Count],
        told: b"c1 100 -\n\
              Taken\n\
              Gone 1\n\
              steps 2 live 1 waiting 0 leases 0\n",
    },
    Row {
        name: "a changed lease is another",
        plan: Plan::Notes,
        script: &[In(Invite), Lend, Forge, Bring, Count],
        told: b"c1 100 -\n\
              Other 1\n\
              steps 1 live 1 waiting 1 leases 0\n",
    },
    Row {
        name: "the event of another lease is lent again",
        plan: Plan::Notes,
        script: &[
            In(Invite),
            Lend,
            Forge,
            Bring,
            LendOf(FIRST),
            Show,
            Bring,
            Steps,
        ],
        told: b"c1 100 -\n\
              Other 1\n\
              lease 2 event 1 of 0-1 Initial, session 1\n\
              Taken\n\
              In c1 INVITE z9hG4bKa1\n\
              Turn 0-1 event 1 at 0 param=given Fine\n",
    },
    Row {
        name: "a lease that was never given is gone",
        plan: Plan::Notes,
        script: &[
            In(Invite),
            In(OtherInvite),
            Lend,
            Lend,
            Number(3),
            Bring,
            Count,
        ],
        told: b"c1 100 -\n\
              c1 100 -\n\
              Gone 3\n\
              steps 2 live 2 waiting 2 leases 2\n",
    },
    Row {
        name: "a lease under the number of another ends that",
        plan: Plan::Notes,
        script: &[
            In(Invite),
            In(OtherInvite),
            Lend,
            Lend,
            Number(2),
            Bring,
            Count,
        ],
        told: b"c1 100 -\n\
              c1 100 -\n\
              Other 2\n\
              steps 2 live 2 waiting 2 leases 1\n",
    },
    Row {
        name: "another charter is another",
        plan: Plan::Notes,
        script: &[In(Invite), Lend, BringOther, Count],
        told: b"c1 100 -\n\
              Other 1\n\
              steps 1 live 1 waiting 1 leases 0\n",
    },
    Row {
        name: "a lease stays that time and a request pass",
        plan: Plan::Notes,
        script: &[In(Invite), Lend, Tick(500), Info(2), Bring, Count, Steps],
        told: b"c1 100 -\n\
              Taken\n\
              steps 4 live 1 waiting 1 leases 0\n\
              In c1 INVITE z9hG4bKa1\n\
              Tick 500\n\
              In c1 INFO z9hG4bKi2\n\
              Turn 0-1 event 1 at 0 param=given Fine\n",
    },
];

#[test]
fn brought_turns(rt: HostRuntime) -> Result<(), Fail> {
    hold(&rt, rt.alloc(), MANY, &ROWS)
}
