//! Epochs: when one ends, and what the next one begins with.

use crate::letters::Letter::{ByeOfEpoch0, ByeOfEpoch1, Invite, OtherInvite};
use crate::orders::FIRST;
use crate::orders::Order::{
    Bring, Count, EndEpoch, HandOn, In, Leave, Lend, List, Options, Show, Steps, Take, Tick, Turn,
    Withdraw,
};
use crate::plans::Plan;
use crate::trying::{MANY, Row, hold};
use std::test::Fail;

const ROWS: [Row; 10] = [
    Row {
        name: "the next epoch marks its names",
        plan: Plan::Answers,
        script: &[Options(1), Turn, Turn, EndEpoch, Options(2), Turn],
        told: b"Taken\n\
              c1 200 s1-0-1-1\n\
              Taken\n\
              epoch 0 from 0 steps 3, then 1 from 0\n\
              Taken\n\
              c1 200 s1.1-0-1-1\n",
    },
    Row {
        name: "a transaction keeps an epoch",
        plan: Plan::Rejects,
        script: &[
            In(Invite),
            Turn,
            Turn,
            EndEpoch,
            Tick(31_999),
            EndEpoch,
            Tick(32_000),
            EndEpoch,
        ],
        told: b"c1 100 -\n\
              Taken\n\
              c1 486 s1-0-1-1\n\
              Taken\n\
              Busy 1\n\
              Busy 1\n\
              epoch 0 from 0 steps 5, then 1 from 32000\n",
    },
    Row {
        name: "the session of an ended epoch is not there",
        plan: Plan::Silent,
        script: &[
            EndEpoch,
            In(Invite),
            List,
            In(ByeOfEpoch0),
            Count,
            In(ByeOfEpoch1),
            Count,
        ],
        told: b"epoch 0 from 0 steps 0, then 1 from 0\n\
              c1 100 -\n\
              listing of epoch 1 steps 1 waiting 1 live 0-1\n\
              c1 481 s1.1-0-1-1\n\
              steps 2 live 1 waiting 1 leases 0\n\
              steps 3 live 1 waiting 2 leases 0\n",
    },
    Row {
        name: "sessions keep an epoch",
        plan: Plan::Silent,
        script: &[In(Invite), EndEpoch, In(OtherInvite), EndEpoch, Count],
        told: b"c1 100 -\n\
              Live 1\n\
              c1 100 -\n\
              Live 2\n\
              steps 2 live 2 waiting 2 leases 0\n",
    },
    Row {
        name: "messages that were not taken keep an epoch",
        plan: Plan::Answers,
        script: &[Leave, Options(1), Turn, Turn, EndEpoch, Take, EndEpoch],
        told: b"Taken\n\
              Taken\n\
              Unsent 1\n\
              c1 200 s1-0-1-1\n\
              epoch 0 from 0 steps 3, then 1 from 0\n",
    },
    Row {
        name: "sessions are told before transactions, and these before messages",
        plan: Plan::Rejects,
        script: &[
            Leave,
            In(Invite),
            Turn,
            EndEpoch,
            Turn,
            EndEpoch,
            Tick(32_000),
            EndEpoch,
            Take,
            EndEpoch,
        ],
        told: b"Taken\n\
              Live 1\n\
              Taken\n\
              Busy 1\n\
              Unsent 2\n\
              c1 100 -\n\
              c1 486 s1-0-1-1\n\
              epoch 0 from 0 steps 4, then 1 from 32000\n",
    },
    Row {
        name: "a lease of an ended epoch is gone, and numbers begin again",
        plan: Plan::Answers,
        script: &[
            Options(1),
            Lend,
            Withdraw(FIRST),
            EndEpoch,
            Options(2),
            Lend,
            Show,
            Bring,
            Bring,
            Steps,
        ],
        told: b"Withdrawn\n\
              c1 481 s1-0-1-1\n\
              epoch 0 from 0 steps 2, then 1 from 0\n\
              lease 2 event 1 of 0-1 Initial, session 1\n\
              Gone 1\n\
              Taken\n\
              c1 200 s1.1-0-1-1\n\
              In c1 OPTIONS z9hG4bKa2\n\
              Turn 0-1 event 1 at 0 call Fine\n",
    },
    Row {
        name: "a lease of an INVITE of an ended epoch is gone",
        plan: Plan::Silent,
        script: &[
            In(Invite),
            Lend,
            Withdraw(FIRST),
            EndEpoch,
            Tick(32_000),
            EndEpoch,
            Bring,
            Count,
        ],
        told: b"c1 100 -\n\
              Withdrawn\n\
              c1 481 s1-0-1-1\n\
              Busy 1\n\
              epoch 0 from 0 steps 3, then 1 from 32000\n\
              Gone 1\n\
              steps 0 live 0 waiting 0 leases 0\n",
    },
    Row {
        name: "an epoch begins at the last moment",
        plan: Plan::Silent,
        script: &[Tick(700), EndEpoch, EndEpoch, Tick(900), EndEpoch, Count],
        told: b"epoch 0 from 0 steps 1, then 1 from 700\n\
              epoch 1 from 700 steps 0, then 2 from 700\n\
              epoch 2 from 700 steps 1, then 3 from 900\n\
              steps 0 live 0 waiting 0 leases 0\n",
    },
    Row {
        name: "an ended epoch has what was not handed on",
        plan: Plan::Answers,
        script: &[Options(1), Turn, HandOn, Turn, List, EndEpoch, List],
        told: b"Taken\n\
              c1 200 s1-0-1-1\n\
              Taken\n\
              listing of epoch 0 steps 3 waiting 0 live\n\
              epoch 0 from 0 steps 1, then 1 from 0\n\
              listing of epoch 1 steps 0 waiting 0 live\n",
    },
];

#[test]
fn epochs(rt: HostRuntime) -> Result<(), Fail> {
    hold(&rt, rt.alloc(), MANY, &ROWS)
}
