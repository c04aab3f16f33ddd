//! Moments and orders.

use sc_edge::Order;
use sc_serve_rows::Come::{All, NotYet};
use sc_serve_rows::Letter::Invite;
use sc_serve_rows::{EMPTY, Row, hold};
use sc_value::AppId;
use std::test::Fail;

const TICK_ROWS: [Row; 3] = [
    Row {
        name: "only later moments are steps",
        coming: &[NotYet, NotYet, NotYet, NotYet],
        moments: &[5, 3, 5, 9],
        told: b"Done epoch 0 from 0 steps 2\n\
              polls 5\n\
              step 1\n\
              list of epoch 0 steps 1 live 0 waiting 0\n\
              step 2\n\
              list of epoch 0 steps 2 live 0 waiting 0\n",
        ..EMPTY
    },
    Row {
        name: "moment 0 is none",
        coming: &[NotYet, NotYet],
        moments: &[0, 0],
        told: b"Done epoch 0 from 0 steps 0\n\
              polls 3\n",
        ..EMPTY
    },
    Row {
        name: "moments pass in a call, and no 200 is sent again (docs/profile.md)",
        coming: &[All(1, Invite), NotYet, NotYet],
        moments: &[0, 499, 500],
        told: b"Done epoch 0 from 0 steps 4\n\
              polls 4\n\
              c1 100 of c5; 200 of c5 by 0-1;\n\
              step 1\n\
              step 2\n\
              list of epoch 0 steps 2 live 1 waiting 0\n\
              step 3\n\
              list of epoch 0 steps 3 live 1 waiting 0\n\
              step 4\n\
              list of epoch 0 steps 4 live 1 waiting 0\n",
        ..EMPTY
    },
];

const ORDER_ROWS: [Row; 5] = [
    Row {
        name: "a session that has answered",
        coming: &[All(1, Invite), NotYet],
        orders: &[
            None,
            Some(Order {
                epoch: 0,
                app: AppId { host: 0, serial: 1 },
            }),
        ],
        told: b"Done epoch 0 from 0 steps 3\n\
              polls 3\n\
              c1 100 of c5; 200 of c5 by 0-1;\n\
              step 1\n\
              step 2\n\
              list of epoch 0 steps 2 live 1 waiting 0\n\
              step 3\n\
              list of epoch 0 steps 3 live 0 waiting 0\n",
        ..EMPTY
    },
    Row {
        name: "a session before its turn",
        coming: &[All(1, Invite), NotYet],
        orders: &[Some(Order {
            epoch: 0,
            app: AppId { host: 0, serial: 1 },
        })],
        told: b"Done epoch 0 from 0 steps 2\n\
              polls 3\n\
              c1 100 of c5; 481 of c5 by 0-1;\n\
              step 1\n\
              step 2\n\
              list of epoch 0 steps 2 live 0 waiting 0\n",
        ..EMPTY
    },
    Row {
        name: "one of another epoch",
        coming: &[All(1, Invite), NotYet],
        orders: &[
            Some(Order {
                epoch: 1,
                app: AppId { host: 0, serial: 1 },
            }),
            Some(Order {
                epoch: 1,
                app: AppId { host: 0, serial: 1 },
            }),
        ],
        told: b"Done epoch 0 from 0 steps 2\n\
              polls 3\n\
              c1 100 of c5; 200 of c5 by 0-1;\n\
              step 1\n\
              step 2\n\
              list of epoch 0 steps 2 live 1 waiting 0\n",
        ..EMPTY
    },
    Row {
        name: "one that doesn't live",
        coming: &[All(1, Invite), NotYet],
        orders: &[
            Some(Order {
                epoch: 0,
                app: AppId { host: 0, serial: 2 },
            }),
            Some(Order {
                epoch: 0,
                app: AppId { host: 1, serial: 1 },
            }),
        ],
        told: b"Done epoch 0 from 0 steps 2\n\
              polls 3\n\
              c1 100 of c5; 200 of c5 by 0-1;\n\
              step 1\n\
              step 2\n\
              list of epoch 0 steps 2 live 1 waiting 0\n",
        ..EMPTY
    },
    Row {
        name: "a session twice",
        coming: &[All(1, Invite), NotYet],
        orders: &[
            None,
            Some(Order {
                epoch: 0,
                app: AppId { host: 0, serial: 1 },
            }),
            Some(Order {
                epoch: 0,
                app: AppId { host: 0, serial: 1 },
            }),
        ],
        told: b"Done epoch 0 from 0 steps 3\n\
              polls 3\n\
              c1 100 of c5; 200 of c5 by 0-1;\n\
              step 1\n\
              step 2\n\
              list of epoch 0 steps 2 live 1 waiting 0\n\
              step 3\n\
              list of epoch 0 steps 3 live 0 waiting 0\n",
        ..EMPTY
    },
];

#[test]
fn moments(rt: HostRuntime) -> Result<(), Fail> {
    hold(&rt, rt.alloc(), &TICK_ROWS)
}

#[test]
fn withdrawals(rt: HostRuntime) -> Result<(), Fail> {
    hold(&rt, rt.alloc(), &ORDER_ROWS)
}
