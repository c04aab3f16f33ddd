//! Queues that are full.

use crate::letters::Letter::{Ack, BusyOfFirst, Cancel, Invite, RingingOfFirst};
use crate::orders::Order::{Count, In, Info, Infos, Turn};
use crate::plans::Plan;
use crate::trying::{MANY, Row, hold};
use std::test::Fail;

const ROWS: [Row; 3] = [
    Row {
        name: "a queue takes 64 events, and drops an ACK",
        plan: Plan::Silent,
        script: &[In(Invite), Infos(2, 65), Info(65), Count, In(Ack), Count],
        told: b"c1 100 -\n\
              c1 503 s1-0-1-1\n\
              steps 65 live 1 waiting 64 leases 0\n\
              steps 66 live 1 waiting 64 leases 0\n",
    },
    Row {
        name: "a queue has room after a turn",
        plan: Plan::Silent,
        script: &[In(Invite), Infos(2, 65), Turn, Info(66), Count],
        told: b"c1 100 -\n\
              Taken\n\
              steps 66 live 1 waiting 64 leases 0\n",
    },
    Row {
        name: "a full queue takes a final response and a CANCEL",
        plan: Plan::Proxies,
        script: &[
            In(Invite),
            Turn,
            Infos(2, 66),
            In(RingingOfFirst),
            Count,
            In(BusyOfFirst),
            Count,
            In(Cancel),
            Count,
        ],
        told: b"c1 100 -\n\
              Taken\n\
              5071 INVITE z9hG4bKs1-0-1-2\n\
              steps 67 live 1 waiting 64 leases 0\n\
              5071 ACK z9hG4bKs1-0-1-2\n\
              steps 68 live 1 waiting 65 leases 0\n\
              c1 200 s1-0-1-1\n\
              steps 69 live 1 waiting 66 leases 0\n",
    },
];

#[test]
fn full_queues(rt: HostRuntime) -> Result<(), Fail> {
    hold(&rt, rt.alloc(), MANY, &ROWS)
}
