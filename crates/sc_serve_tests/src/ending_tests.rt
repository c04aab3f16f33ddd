//! When a run is over.

use sc_edge::Share;
use sc_serve_rows::Come::{All, End, Failed, Fault, Front, NotYet};
use sc_serve_rows::Letter::{First, Odd, Second};
use sc_serve_rows::{EMPTY, Row, hold};
use std::test::Fail;

const SLOW_ROWS: [Row; 5] = [
    Row {
        name: "a byte at a time",
        coming: &[All(1, First)],
        share: Share::AtMost(1),
        shares: 191,
        told: b"Done epoch 0 from 0 steps 3\n\
              polls 192\n\
              c1 200 of c1 by 0-1;\n\
              step 1\n\
              step 2\n\
              step 3\n\
              list of epoch 0 steps 3 live 0 waiting 0\n",
        ..EMPTY
    },
    Row {
        name: "none yet",
        coming: &[All(1, First)],
        share: Share::NotYet,
        shares: 3,
        told: b"Done epoch 0 from 0 steps 3\n\
              polls 5\n\
              c1 200 of c1 by 0-1;\n\
              step 1\n\
              step 2\n\
              step 3\n\
              list of epoch 0 steps 3 live 0 waiting 0\n",
        ..EMPTY
    },
    Row {
        name: "an answer goes to a peer that gives nothing more",
        coming: &[All(1, First), End(1)],
        share: Share::NotYet,
        shares: 2,
        told: b"Done epoch 0 from 0 steps 4\n\
              polls 4\n\
              c1 200 of c1 by 0-1;\n\
              step 1\n\
              step 2\n\
              step 3\n\
              list of epoch 0 steps 3 live 0 waiting 0\n\
              step 4\n\
              list of epoch 0 steps 4 live 0 waiting 0\n",
        ..EMPTY
    },
    Row {
        name: "an answer that is put after the last connection ended",
        settings: b"stop_after = 1\n",
        coming: &[All(1, First), End(1), NotYet, NotYet, NotYet, NotYet, Fault],
        share: Share::NotYet,
        shares: 2,
        told: b"Done epoch 0 from 0 steps 4\n\
              polls 4\n\
              c1 200 of c1 by 0-1;\n\
              step 1\n\
              step 2\n\
              step 3\n\
              list of epoch 0 steps 3 live 0 waiting 0\n\
              step 4\n\
              list of epoch 0 steps 4 live 0 waiting 0\n",
        ..EMPTY
    },
    Row {
        name: "a connection that ends within a request",
        coming: &[Front(1, First, 100), End(1)],
        told: b"Done epoch 0 from 0 steps 1\n\
              polls 3\n\
              step 1\n\
              list of epoch 0 steps 1 live 0 waiting 0\n",
        ..EMPTY
    },
];

const STOP_ROWS: [Row; 5] = [
    Row {
        name: "after the one connection",
        settings: b"stop_after = 1\n",
        coming: &[All(1, First), End(1), NotYet, Fault],
        told: b"Done epoch 0 from 0 steps 4\n\
              polls 3\n\
              c1 200 of c1 by 0-1;\n\
              step 1\n\
              step 2\n\
              step 3\n\
              list of epoch 0 steps 3 live 0 waiting 0\n\
              step 4\n\
              list of epoch 0 steps 4 live 0 waiting 0\n",
        ..EMPTY
    },
    Row {
        name: "after the one that failed",
        settings: b"stop_after = 1\n",
        coming: &[All(1, First), Failed(1), NotYet, Fault],
        told: b"Done epoch 0 from 0 steps 4\n\
              polls 3\n\
              c1 200 of c1 by 0-1;\n\
              step 1\n\
              step 2\n\
              step 3\n\
              list of epoch 0 steps 3 live 0 waiting 0\n\
              step 4\n\
              list of epoch 0 steps 4 live 0 waiting 0\n",
        ..EMPTY
    },
    Row {
        name: "after the one that was closed",
        settings: b"stop_after = 1\n",
        coming: &[All(1, Odd), NotYet, Fault],
        told: b"Done epoch 0 from 0 steps 2\n\
              polls 2\n\
              c1 400 of c1;\n\
              closed c1 after poll 1\n\
              step 1\n\
              step 2\n\
              list of epoch 0 steps 2 live 0 waiting 0\n",
        ..EMPTY
    },
    Row {
        name: "not while another is open",
        settings: b"stop_after = 1\n",
        coming: &[
            All(1, First),
            All(2, Second),
            End(1),
            NotYet,
            End(2),
            NotYet,
            Fault,
        ],
        told: b"Done epoch 0 from 0 steps 8\n\
              polls 6\n\
              c1 200 of c1 by 0-1;\n\
              c2 200 of c2 by 0-2;\n\
              step 1\n\
              step 2\n\
              step 3\n\
              list of epoch 0 steps 3 live 0 waiting 0\n\
              step 4\n\
              step 5\n\
              step 6\n\
              list of epoch 0 steps 6 live 0 waiting 0\n\
              step 7\n\
              list of epoch 0 steps 7 live 0 waiting 0\n\
              step 8\n\
              list of epoch 0 steps 8 live 0 waiting 0\n",
        ..EMPTY
    },
    Row {
        name: "not before as many",
        settings: b"stop_after = 2\n",
        coming: &[All(1, First), End(1), NotYet, Fault],
        told: b"Edge epoch 0 from 0 steps 4\n\
              polls 4\n\
              c1 200 of c1 by 0-1;\n\
              step 1\n\
              step 2\n\
              step 3\n\
              list of epoch 0 steps 3 live 0 waiting 0\n\
              step 4\n\
              list of epoch 0 steps 4 live 0 waiting 0\n",
        ..EMPTY
    },
];

#[test]
fn slow_puts(rt: HostRuntime) -> Result<(), Fail> {
    hold(&rt, rt.alloc(), &SLOW_ROWS)
}

#[test]
fn enough_connections(rt: HostRuntime) -> Result<(), Fail> {
    hold(&rt, rt.alloc(), &STOP_ROWS)
}
