//! The state machines of RFC 3261 figures 5 to 8 and RFC 6026 figures 1 and 2, row by row.

use sc_txn::{ClientOut, ClientTxn, ServerTxn, TxnState};

/// A client transaction that was sent at 0 takes a response at 1, where it is given, and then one
/// at 2: whether it is an INVITE, both codes, the code told, whether an ACK goes, and the state.
const CLIENTS: [(bool, Option<u16>, u16, Option<u16>, bool, TxnState); 14] = [
    (true, None, 100, None, false, TxnState::Proceeding),
    (true, None, 180, Some(180), false, TxnState::Proceeding),
    (true, None, 200, Some(200), false, TxnState::Accepted),
    (true, None, 302, Some(302), true, TxnState::Terminated),
    (true, Some(180), 183, Some(183), false, TxnState::Proceeding),
    (true, Some(100), 200, Some(200), false, TxnState::Accepted),
    (true, Some(180), 699, Some(699), true, TxnState::Terminated),
    (true, Some(200), 200, Some(200), false, TxnState::Accepted),
    (true, Some(200), 486, None, false, TxnState::Accepted),
    (true, Some(486), 486, None, false, TxnState::Terminated),
    (false, None, 100, None, false, TxnState::Proceeding),
    (false, None, 200, Some(200), false, TxnState::Terminated),
    (
        false,
        Some(100),
        404,
        Some(404),
        false,
        TxnState::Terminated,
    ),
    (false, Some(200), 200, None, false, TxnState::Terminated),
];

/// A server transaction is given an answer at 1, where there is one, and then one at 2: whether it
/// is an INVITE, both codes, whether the second is sent, whether the request that comes again gets
/// the last answer, whether an ACK is absorbed, and the state before that.
const SERVERS: [(bool, Option<u16>, u16, bool, bool, bool, TxnState); 11] = [
    (true, None, 100, true, true, false, TxnState::Proceeding),
    (true, Some(100), 200, true, false, false, TxnState::Accepted),
    (true, Some(180), 300, true, true, true, TxnState::Completed),
    (true, Some(200), 200, true, false, false, TxnState::Accepted),
    (
        true,
        Some(200),
        486,
        false,
        false,
        false,
        TxnState::Accepted,
    ),
    (true, Some(486), 200, false, true, true, TxnState::Completed),
    (false, None, 100, true, true, false, TxnState::Proceeding),
    (false, None, 200, true, false, false, TxnState::Terminated),
    (
        false,
        Some(100),
        503,
        true,
        false,
        false,
        TxnState::Terminated,
    ),
    (
        false,
        Some(200),
        200,
        false,
        false,
        false,
        TxnState::Terminated,
    ),
    (true, None, 699, true, true, true, TxnState::Completed),
];

#[test]
fn client_table(rt: HostRuntime) {
    for (invite, before, code, tell, ack, state) in CLIENTS {
        let mut txn = ClientTxn::new(invite, 0);
        if let Some(before) = before {
            let _ = txn.on_response(before, 1);
        }
        let out = ClientOut {
            tell,
            ack,
            cancel: false,
        };
        assert_eq!(rt; txn.on_response(code, 2), out, "what {code} does");
        assert_eq!(rt; txn.state(), state, "the state after {code}");
    }
}

#[test]
fn server_table(rt: HostRuntime) {
    for (invite, before, code, sent, again, absorbed, state) in SERVERS {
        let mut txn = ServerTxn::new(invite);
        if let Some(before) = before {
            let _ = txn.on_answer(before, 1);
        }
        assert_eq!(rt; txn.on_answer(code, 2), sent, "whether {code} is sent");
        assert_eq!(rt; txn.state(), state, "the state after {code}");
        assert_eq!(rt; txn.on_request(), again, "the request again after {code}");
        assert_eq!(rt; txn.on_ack(), absorbed, "an ACK after {code}");
    }
}

#[test]
fn client_timers(rt: HostRuntime) {
    let mut txn = ClientTxn::new(true, 5);
    assert_eq!(rt; txn.due(), Ok(Some(32_005)));
    assert_eq!(rt; txn.on_cancel(6).cancel, false);
    assert_eq!(rt; txn.on_response(100, 7).cancel, true);
    assert_eq!(rt; txn.due(), Ok(Some(32_007)));
    assert_eq!(rt; txn.on_timer(32_006).tell, None);
    assert_eq!(rt; txn.on_timer(32_007).tell, Some(408));
    assert_eq!(rt; txn.due(), Ok(None));
    let mut lost = ClientTxn::new(false, 0);
    assert_eq!(rt; lost.on_lost().tell, Some(503));
    assert_eq!(rt; lost.state(), TxnState::Terminated);
}

#[test]
fn server_timers(rt: HostRuntime) {
    let mut txn = ServerTxn::new(true);
    assert_eq!(rt; txn.on_answer(200, 8), true);
    assert_eq!(rt; txn.due(), Ok(Some(32_008)));
    txn.on_timer(32_007);
    assert_eq!(rt; txn.state(), TxnState::Accepted);
    txn.on_timer(32_008);
    assert_eq!(rt; txn.state(), TxnState::Terminated);
}
