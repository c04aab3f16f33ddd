//! Requests in one piece and in several.

use sc_serve_rows::Come::{All, Back, Both, Front, NotYet};
use sc_serve_rows::Letter::{First, Second};
use sc_serve_rows::{EMPTY, Row, hold};
use std::test::Fail;

const ROWS: [Row; 4] = [
    Row {
        name: "nothing comes",
        told: b"Done epoch 0 from 0 steps 0\n\
              polls 1\n",
        ..EMPTY
    },
    Row {
        name: "a request is answered",
        coming: &[All(1, First)],
        told: b"Done epoch 0 from 0 steps 3\n\
              polls 2\n\
              c1 200 of c1 by 0-1;\n\
              step 1\n\
              step 2\n\
              step 3\n\
              list of epoch 0 steps 3 live 0 waiting 0\n",
        ..EMPTY
    },
    Row {
        name: "a request in two pieces",
        coming: &[Front(1, First, 100), NotYet, Back(1, First, 100)],
        told: b"Done epoch 0 from 0 steps 3\n\
              polls 4\n\
              c1 200 of c1 by 0-1;\n\
              step 1\n\
              step 2\n\
              step 3\n\
              list of epoch 0 steps 3 live 0 waiting 0\n",
        ..EMPTY
    },
    Row {
        name: "two requests in one piece",
        coming: &[Both(1, First, Second)],
        told: b"Done epoch 0 from 0 steps 6\n\
              polls 2\n\
              c1 200 of c1 by 0-1; 200 of c2 by 0-2;\n\
              step 1\n\
              step 2\n\
              step 3\n\
              step 4\n\
              step 5\n\
              step 6\n\
              list of epoch 0 steps 6 live 0 waiting 0\n",
        ..EMPTY
    },
];

#[test]
fn pieces(rt: HostRuntime) -> Result<(), Fail> {
    hold(&rt, rt.alloc(), &ROWS)
}
