//! Journals that are handed on in parts.

use crate::letters::Letter::{Ack, Bye, Invite};
use crate::orders::Order::{Bring, Count, HandOn, In, Info, Lend, List, Steps, Tick, Turn};
use crate::plans::Plan;
use crate::trying::{MANY, Row, hold};
use std::test::Fail;

const PARTS: [Row; 3] = [
    Row {
        name: "a call in one journal",
        plan: Plan::Rings,
        script: &[
            In(Invite),
            Turn,
            Tick(1000),
            Turn,
            In(Ack),
            Turn,
            List,
            In(Bye),
            Turn,
            Turn,
            List,
            Steps,
        ],
        told: b"c1 100 -\n\
              Taken\n\
              c1 180 s1-0-1-1\n\
              Taken\n\
              c1 200 s1-0-1-1\n\
              Taken\n\
              listing of epoch 0 steps 6 waiting 0 live 0-1\n\
              Taken\n\
              c1 200 s1-0-1-1\n\
              Taken\n\
              listing of epoch 0 steps 9 waiting 0 live\n\
              In c1 INVITE z9hG4bKa1\n\
              Turn 0-1 event 1 at 0 call call Fine\n\
              Tick 1000\n\
              Turn 0-1 event 2 at 1000 call Fine\n\
              In c1 ACK z9hG4bKk9\n\
              Turn 0-1 event 3 at 1000 Fine\n\
              In c1 BYE z9hG4bKb2\n\
              Turn 0-1 event 4 at 1000 call Fine\n\
              Turn 0-1 event 5 at 1000 Fine\n",
    },
    Row {
        name: "a call in four parts",
        plan: Plan::Rings,
        script: &[
            In(Invite),
            Turn,
            HandOn,
            Tick(1000),
            Turn,
            HandOn,
            In(Ack),
            Turn,
            List,
            In(Bye),
            Turn,
            HandOn,
            Turn,
            List,
            Steps,
        ],
        told: b"c1 100 -\n\
              Taken\n\
              c1 180 s1-0-1-1\n\
              Taken\n\
              c1 200 s1-0-1-1\n\
              Taken\n\
              listing of epoch 0 steps 6 waiting 0 live 0-1\n\
              Taken\n\
              c1 200 s1-0-1-1\n\
              Taken\n\
              listing of epoch 0 steps 9 waiting 0 live\n\
              In c1 INVITE z9hG4bKa1\n\
              Turn 0-1 event 1 at 0 call call Fine\n\
              Tick 1000\n\
              Turn 0-1 event 2 at 1000 call Fine\n\
              In c1 ACK z9hG4bKk9\n\
              Turn 0-1 event 3 at 1000 Fine\n\
              In c1 BYE z9hG4bKb2\n\
              Turn 0-1 event 4 at 1000 call Fine\n\
              Turn 0-1 event 5 at 1000 Fine\n",
    },
    Row {
        name: "a lease that is out stays",
        plan: Plan::Notes,
        script: &[In(Invite), Lend, HandOn, Count, Bring, Count, List],
        told: b"c1 100 -\n\
              steps 0 live 1 waiting 1 leases 1\n\
              Taken\n\
              steps 1 live 1 waiting 0 leases 0\n\
              listing of epoch 0 steps 2 waiting 0 live 0-1\n",
    },
];

#[test]
fn journals_in_parts(rt: HostRuntime) -> Result<(), Fail> {
    hold(&rt, rt.alloc(), MANY, &PARTS)
}

const SMALL_PARTS: [Row; 3] = [
    Row {
        name: "a full journal takes a message again",
        plan: Plan::Rings,
        script: &[
            In(Invite),
            Turn,
            Info(2),
            HandOn,
            Info(2),
            Count,
            Turn,
            List,
        ],
        told: b"c1 100 -\n\
              Taken\n\
              c1 180 s1-0-1-1\n\
              JournalFull 2 67108864\n\
              steps 1 live 1 waiting 1 leases 0\n\
              Taken\n\
              c1 200 s1-0-1-1\n\
              listing of epoch 0 steps 4 waiting 0 live 0-1\n",
    },
    Row {
        name: "a full journal takes a turn again",
        plan: Plan::Rings,
        script: &[In(Invite), Tick(5), Turn, Count, HandOn, Bring, Count],
        told: b"c1 100 -\n\
              JournalFull 2 67108864\n\
              steps 2 live 1 waiting 1 leases 1\n\
              Taken\n\
              c1 180 s1-0-1-1\n\
              steps 1 live 1 waiting 0 leases 0\n",
    },
    Row {
        name: "each part takes as many steps",
        plan: Plan::Silent,
        script: &[
            Tick(1),
            Tick(2),
            Tick(3),
            HandOn,
            Tick(3),
            Tick(4),
            Tick(5),
            HandOn,
            HandOn,
            Tick(5),
            Steps,
            List,
        ],
        told: b"JournalFull 2 67108864\n\
              JournalFull 2 67108864\n\
              Tick 1\n\
              Tick 2\n\
              Tick 3\n\
              Tick 4\n\
              Tick 5\n\
              listing of epoch 0 steps 5 waiting 0 live\n",
    },
];

#[test]
fn small_journals_in_parts(rt: HostRuntime) -> Result<(), Fail> {
    hold(&rt, rt.alloc(), 2, &SMALL_PARTS)
}
