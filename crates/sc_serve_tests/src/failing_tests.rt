//! Connections, listeners and puts that fail, and texts that are no messages.

use sc_edge::Share;
use sc_serve_rows::Come::{All, Back, Both, Failed, Fault, Front, NotYet};
use sc_serve_rows::Letter::{First, Nameless, Odd, Second};
use sc_serve_rows::{EMPTY, Row, hold};
use std::test::Fail;

const BAD_ROWS: [Row; 5] = [
    Row {
        name: "a request out of form is answered, and its connection closed",
        coming: &[All(1, Odd), All(2, Second)],
        told: b"Done epoch 0 from 0 steps 5\n\
              polls 3\n\
              c1 400 of c1;\n\
              c2 200 of c2 by 0-1;\n\
              closed c1 after poll 1\n\
              step 1\n\
              step 2\n\
              list of epoch 0 steps 2 live 0 waiting 0\n\
              step 3\n\
              step 4\n\
              step 5\n\
              list of epoch 0 steps 5 live 0 waiting 0\n",
        ..EMPTY
    },
    Row {
        name: "what stands behind it isn't heard",
        coming: &[Both(1, Odd, First)],
        told: b"Done epoch 0 from 0 steps 2\n\
              polls 2\n\
              c1 400 of c1;\n\
              closed c1 after poll 1\n\
              step 1\n\
              step 2\n\
              list of epoch 0 steps 2 live 0 waiting 0\n",
        ..EMPTY
    },
    Row {
        name: "one that can't be answered",
        coming: &[All(1, Nameless)],
        told: b"Done epoch 0 from 0 steps 2\n\
              polls 2\n\
              closed c1 after poll 1\n\
              step 1\n\
              step 2\n\
              list of epoch 0 steps 2 live 0 waiting 0\n",
        ..EMPTY
    },
    Row {
        name: "the connection is closed behind the answer",
        coming: &[All(1, Odd)],
        share: Share::AtMost(100),
        shares: 2,
        told: b"Done epoch 0 from 0 steps 2\n\
              polls 3\n\
              c1 400 of c1;\n\
              closed c1 after poll 2\n\
              step 1\n\
              step 2\n\
              list of epoch 0 steps 2 live 0 waiting 0\n",
        ..EMPTY
    },
    Row {
        name: "the put of the answer fails",
        coming: &[All(1, Odd), All(2, Second)],
        failing: 1,
        told: b"Done epoch 0 from 0 steps 6\n\
              polls 3\n\
              c2 200 of c2 by 0-1;\n\
              closed c1 after poll 1\n\
              step 1\n\
              step 2\n\
              step 3\n\
              list of epoch 0 steps 3 live 0 waiting 0\n\
              step 4\n\
              step 5\n\
              step 6\n\
              list of epoch 0 steps 6 live 0 waiting 0\n",
        ..EMPTY
    },
];

const POLL_ROWS: [Row; 5] = [
    Row {
        name: "poll 1 fails",
        coming: &[
            Failed(1),
            Front(2, Second, 100),
            Back(1, First, 100),
            Back(2, Second, 100),
        ],
        told: b"Done epoch 0 from 0 steps 4\n\
              polls 4\n\
              c2 200 of c2 by 0-1;\n\
              step 1\n\
              list of epoch 0 steps 1 live 0 waiting 0\n\
              step 2\n\
              step 3\n\
              step 4\n\
              list of epoch 0 steps 4 live 0 waiting 0\n",
        ..EMPTY
    },
    Row {
        name: "poll 2 fails",
        coming: &[
            Front(1, First, 100),
            Failed(2),
            Back(1, First, 100),
            Back(2, Second, 100),
        ],
        told: b"Done epoch 0 from 0 steps 4\n\
              polls 4\n\
              c1 200 of c1 by 0-1;\n\
              step 1\n\
              list of epoch 0 steps 1 live 0 waiting 0\n\
              step 2\n\
              step 3\n\
              step 4\n\
              list of epoch 0 steps 4 live 0 waiting 0\n",
        ..EMPTY
    },
    Row {
        name: "poll 3 fails",
        coming: &[
            Front(1, First, 100),
            Front(2, Second, 100),
            Failed(1),
            Back(2, Second, 100),
        ],
        told: b"Done epoch 0 from 0 steps 4\n\
              polls 5\n\
              c2 200 of c2 by 0-1;\n\
              step 1\n\
              list of epoch 0 steps 1 live 0 waiting 0\n\
              step 2\n\
              step 3\n\
              step 4\n\
              list of epoch 0 steps 4 live 0 waiting 0\n",
        ..EMPTY
    },
    Row {
        name: "poll 4 fails",
        coming: &[
            Front(1, First, 100),
            Front(2, Second, 100),
            Back(1, First, 100),
            Failed(2),
        ],
        told: b"Done epoch 0 from 0 steps 4\n\
              polls 5\n\
              c1 200 of c1 by 0-1;\n\
              step 1\n\
              step 2\n\
              step 3\n\
              list of epoch 0 steps 3 live 0 waiting 0\n\
              step 4\n\
              list of epoch 0 steps 4 live 0 waiting 0\n",
        ..EMPTY
    },
    Row {
        name: "the listener fails",
        coming: &[All(1, First), Fault, All(2, Second)],
        told: b"Edge epoch 0 from 0 steps 3\n\
              polls 2\n\
              c1 200 of c1 by 0-1;\n\
              step 1\n\
              step 2\n\
              step 3\n\
              list of epoch 0 steps 3 live 0 waiting 0\n",
        ..EMPTY
    },
];

// Two requests, each answered in two puts before the next one comes.
const PUT_ROWS: [Row; 5] = [
    Row {
        name: "put 1 fails",
        coming: &[All(1, First), NotYet, NotYet, All(2, Second), NotYet],
        share: Share::AtMost(100),
        shares: 4,
        failing: 1,
        told: b"Done epoch 0 from 0 steps 7\n\
              polls 6\n\
              c2 200 of c2 by 0-2;\n\
              step 1\n\
              step 2\n\
              step 3\n\
              step 4\n\
              list of epoch 0 steps 4 live 0 waiting 0\n\
              step 5\n\
              step 6\n\
              step 7\n\
              list of epoch 0 steps 7 live 0 waiting 0\n",
        ..EMPTY
    },
    Row {
        name: "put 2 fails",
        coming: &[All(1, First), NotYet, NotYet, All(2, Second), NotYet],
        share: Share::AtMost(100),
        shares: 4,
        failing: 2,
        told: b"Done epoch 0 from 0 steps 7\n\
              polls 6\n\
              c1 100 bytes;\n\
              c2 200 of c2 by 0-2;\n\
              step 1\n\
              step 2\n\
              step 3\n\
              list of epoch 0 steps 3 live 0 waiting 0\n\
              step 4\n\
              list of epoch 0 steps 4 live 0 waiting 0\n\
              step 5\n\
              step 6\n\
              step 7\n\
              list of epoch 0 steps 7 live 0 waiting 0\n",
        ..EMPTY
    },
    Row {
        name: "put 3 fails",
        coming: &[All(1, First), NotYet, NotYet, All(2, Second), NotYet],
        share: Share::AtMost(100),
        shares: 4,
        failing: 3,
        told: b"Done epoch 0 from 0 steps 7\n\
              polls 6\n\
              c1 200 of c1 by 0-1;\n\
              step 1\n\
              step 2\n\
              step 3\n\
              list of epoch 0 steps 3 live 0 waiting 0\n\
              step 4\n\
              step 5\n\
              step 6\n\
              step 7\n\
              list of epoch 0 steps 7 live 0 waiting 0\n",
        ..EMPTY
    },
    Row {
        name: "put 4 fails",
        coming: &[All(1, First), NotYet, NotYet, All(2, Second), NotYet],
        share: Share::AtMost(100),
        shares: 4,
        failing: 4,
        told: b"Done epoch 0 from 0 steps 7\n\
              polls 6\n\
              c1 200 of c1 by 0-1;\n\
              c2 100 bytes;\n\
              step 1\n\
              step 2\n\
              step 3\n\
              list of epoch 0 steps 3 live 0 waiting 0\n\
              step 4\n\
              step 5\n\
              step 6\n\
              list of epoch 0 steps 6 live 0 waiting 0\n\
              step 7\n\
              list of epoch 0 steps 7 live 0 waiting 0\n",
        ..EMPTY
    },
    Row {
        name: "there is no put 5",
        coming: &[All(1, First), NotYet, NotYet, All(2, Second), NotYet],
        share: Share::AtMost(100),
        shares: 4,
        failing: 5,
        told: b"Done epoch 0 from 0 steps 6\n\
              polls 6\n\
              c1 200 of c1 by 0-1;\n\
              c2 200 of c2 by 0-2;\n\
              step 1\n\
              step 2\n\
              step 3\n\
              list of epoch 0 steps 3 live 0 waiting 0\n\
              step 4\n\
              step 5\n\
              step 6\n\
              list of epoch 0 steps 6 live 0 waiting 0\n",
        ..EMPTY
    },
];

#[test]
fn texts_out_of_form(rt: HostRuntime) -> Result<(), Fail> {
    hold(&rt, rt.alloc(), &BAD_ROWS)
}

#[test]
fn failing_polls(rt: HostRuntime) -> Result<(), Fail> {
    hold(&rt, rt.alloc(), &POLL_ROWS)
}

#[test]
fn failing_puts(rt: HostRuntime) -> Result<(), Fail> {
    hold(&rt, rt.alloc(), &PUT_ROWS)
}
