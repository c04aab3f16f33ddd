//! What lives.

use crate::letters::Letter::{Invite, OtherInvite, Publish};
use crate::orders::FIRST;
use crate::orders::Order::{In, List, Turn, Withdraw};
use crate::plans::Plan;
use crate::trying::{MANY, Row, hold};
use std::test::Fail;

const ROWS: [Row; 1] = [Row {
    name: "sessions are listed by host and serial",
    plan: Plan::Silent,
    script: &[
        List,
        In(Publish),
        In(OtherInvite),
        In(Invite),
        List,
        Turn,
        List,
        Withdraw(FIRST),
        List,
    ],
    told: b"listing of epoch 0 steps 0 waiting 0 live\n\
              c1 100 -\n\
              c1 100 -\n\
              listing of epoch 0 steps 3 waiting 3 live 0-1 0-2 1-1\n\
              Taken\n\
              listing of epoch 0 steps 4 waiting 2 live 0-1 0-2 1-1\n\
              Withdrawn\n\
              c1 481 s1-0-1-1\n\
              listing of epoch 0 steps 5 waiting 1 live 0-2 1-1\n",
}];

#[test]
fn listings(rt: HostRuntime) -> Result<(), Fail> {
    hold(&rt, rt.alloc(), MANY, &ROWS)
}
