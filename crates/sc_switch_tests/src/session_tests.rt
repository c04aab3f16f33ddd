//! Flags, links, drafts, cancelled requests and expiry.

use crate::letters::Letter::{AcceptedOfOwn, Cancel, Invite, RingingOfOwn};
use crate::orders::Order::{Bring, Count, In, Info, Lend, Options, Show, Tick, Turn};
use crate::plans::Plan;
use crate::trying::{MANY, Row, hold};
use std::test::Fail;

const ROWS: [Row; 10] = [
    Row {
        name: "an application session without its flag stays",
        plan: Plan::StaysUnready,
        script: &[Options(1), Turn, Count],
        told: b"Taken\n\
              c1 200 s1-0-1-1\n\
              steps 2 live 1 waiting 0 leases 0\n",
    },
    Row {
        name: "a SipSession without its flag stays",
        plan: Plan::KeepsSession,
        script: &[Options(1), Turn, Count, Lend, Show, Bring, Count],
        told: b"Taken\n\
              c1 200 s1-0-1-1\n\
              steps 2 live 1 waiting 1 leases 0\n\
              lease 2 event 2 of 0-1 Ready, session 1\n\
              Taken\n\
              steps 3 live 0 waiting 0 leases 0\n",
    },
    Row {
        name: "a discarded draft is never sent",
        plan: Plan::Discards,
        script: &[In(Invite), Turn, Count, Info(2), Lend, Show, Bring],
        told: b"c1 100 -\n\
              Taken\n\
              steps 2 live 1 waiting 0 leases 0\n\
              lease 2 event 2 of 0-1 Mute, session 1, session 2 gone\n\
              Taken\n\
              c1 481 s1-0-1-1\n",
    },
    Row {
        name: "a forgotten draft is never sent",
        plan: Plan::Forgets,
        script: &[In(Invite), Turn, Count, Info(2), Lend, Show, Bring],
        told: b"c1 100 -\n\
              Taken\n\
              steps 2 live 1 waiting 0 leases 0\n\
              lease 2 event 2 of 0-1 Mute, session 1, session 2 gone\n\
              Taken\n\
              c1 481 s1-0-1-1\n",
    },
    Row {
        name: "a link holds until it is taken away",
        plan: Plan::Links,
        script: &[
            In(Invite),
            Turn,
            Count,
            In(AcceptedOfOwn),
            Lend,
            Show,
            Bring,
            Info(2),
            Lend,
            Show,
            Bring,
        ],
        told: b"c1 100 -\n\
              Taken\n\
              5071 MESSAGE z9hG4bKs1-0-1-4\n\
              steps 2 live 1 waiting 0 leases 0\n\
              lease 2 event 2 of 0-1 Response, session 1 linked to 2, session 2 linked to 1\n\
              Taken\n\
              lease 3 event 3 of 0-1 Mute, session 1, session 2 gone\n\
              Taken\n\
              c1 481 s1-0-1-1\n",
    },
    Row {
        name: "a cancelled INVITE that nobody answered",
        plan: Plan::Silent,
        script: &[In(Invite), Turn, In(Cancel), Turn],
        told: b"c1 100 -\n\
              Taken\n\
              c1 200 s1-0-1-1\n\
              Taken\n\
              c1 487 s1-0-1-1\n",
    },
    Row {
        name: "a CANCEL waits for a provisional response",
        plan: Plan::SendsAndCancels,
        script: &[In(Invite), Turn, Count, In(RingingOfOwn)],
        told: b"c1 100 -\n\
              Taken\n\
              5071 INVITE z9hG4bKs1-0-1-4\n\
              steps 2 live 1 waiting 0 leases 0\n\
              5071 CANCEL z9hG4bKs1-0-1-4\n",
    },
    Row {
        name: "the event of an ended timer is mute, and it never fires again",
        plan: Plan::EndsTimer,
        script: &[
            In(Invite),
            Turn,
            Info(2),
            Tick(1000),
            Turn,
            Lend,
            Show,
            Bring,
            Tick(9000),
            Count,
        ],
        told: b"c1 100 -\n\
              Taken\n\
              c1 180 s1-0-1-1\n\
              Taken\n\
              lease 3 event 3 of 0-1 Mute, session 1\n\
              Taken\n\
              steps 7 live 1 waiting 0 leases 0\n",
    },
    Row {
        name: "an expiry that was moved is mute",
        plan: Plan::MovesExpiry,
        script: &[
            In(Invite),
            Turn,
            Info(2),
            Tick(180_000),
            Turn,
            Lend,
            Show,
            Bring,
            Count,
            Tick(779_999),
            Count,
            Tick(780_000),
            Count,
        ],
        told: b"c1 100 -\n\
              Taken\n\
              c1 180 s1-0-1-1\n\
              Taken\n\
              lease 3 event 3 of 0-1 Mute, session 1\n\
              Taken\n\
              steps 6 live 1 waiting 0 leases 0\n\
              steps 7 live 1 waiting 0 leases 0\n\
              steps 8 live 1 waiting 1 leases 0\n",
    },
    Row {
        name: "an expiry without a listener ends the application session",
        plan: Plan::Silent,
        script: &[
            In(Invite),
            Turn,
            Tick(179_999),
            Count,
            Tick(180_000),
            Turn,
            Count,
        ],
        told: b"c1 100 -\n\
              Taken\n\
              steps 3 live 1 waiting 0 leases 0\n\
              Taken\n\
              c1 500 s1-0-1-1\n\
              steps 5 live 0 waiting 0 leases 0\n",
    },
];

#[test]
fn sessions(rt: HostRuntime) -> Result<(), Fail> {
    hold(&rt, rt.alloc(), MANY, &ROWS)
}
