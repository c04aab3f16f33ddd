//! The state and the timer of a client transaction (RFC 3261 section 17.1, RFC 6026 section 7.2),
//! by what has passed it.

ghost use Rattle.std.specs.Prelude.{◌≡◌, [], if◌then◌else◌};
ghost use Rattle.sc_model.specs.SessionStates.{is_final};
ghost use Rattle.sc_model.specs.Transactions.{reaches, asks_cancel};
ghost use Rattle.sc_model.specs.TransactionTables.{decided_state, next_waiting, next_state, is_calling, is_proceeding};
ghost use Rattle.sc_stages.specs.Stages.{due_since, decided_begun, provisional_begun, next_waiting_begun, next_begun, client_next, ClientStands};

use crate::moments::is_reached;
use sc_methods::is_success;
use sc_parts::{ClientItem, TxnState};

/// What has become of a client transaction.
#[derive(Clone, Copy)]
pub struct ClientStage {
    pub state: TxnState,
    /// The moment at which the timer that runs began.
    pub begun: Option<u64>,
    /// Whether a CANCEL was asked for.
    pub asked: bool,
}

#[tactic(auto, unfolding(sc_model::specs::Transactions::asks_cancel))]
fn asks_cancel(item: ClientItem) -> bool
    ensures { result ≡ asks_cancel item }
{
    match item {
        ClientItem::CancelAsked { .. } => true,
        ClientItem::ResponseCame { .. } | ClientItem::MomentCame { .. } | ClientItem::PlaceLost =>
            false,
    }
}

#[tactic(auto, unfolding(sc_model::specs::Transactions::reaches))]
fn reaches(begun: Option<u64>, item: ClientItem) -> bool
    ensures { result ≡ reaches (due_since begun) item }
{
    match item {
        ClientItem::MomentCame { moment } => is_reached(begun, moment),
        ClientItem::ResponseCame { .. } | ClientItem::CancelAsked { .. } | ClientItem::PlaceLost =>
            false,
    }
}

// After a final response.
fn decided_state(invite: bool, code: u16) -> TxnState
    ensures { result ≡ decided_state invite code }
{
    if invite && is_success(code) {
        TxnState::Accepted
    } else {
        TxnState::Terminated
    }
}

fn response_state(invite: bool, code: u16) -> TxnState
    ensures { result ≡ (if is_final code then decided_state invite code else TxnState.Proceeding) }
{
    if 199 < code {
        decided_state(invite, code)
    } else {
        TxnState::Proceeding
    }
}

fn next_waiting(invite: bool, state: TxnState, begun: Option<u64>, item: ClientItem) -> TxnState
    ensures { result ≡ next_waiting invite state (due_since begun) item }
{
    match item {
        ClientItem::ResponseCame { code, .. } => response_state(invite, code),
        ClientItem::CancelAsked { .. } => state,
        ClientItem::MomentCame { moment } => {
            if is_reached(begun, moment) {
                TxnState::Terminated
            } else {
                state
            }
        }
        ClientItem::PlaceLost => TxnState::Terminated,
    }
}

fn next_state(invite: bool, state: TxnState, begun: Option<u64>, item: ClientItem) -> TxnState
    ensures { result ≡ next_state invite state (due_since begun) item }
{
    match state {
        TxnState::Calling | TxnState::Trying | TxnState::Proceeding => {
            next_waiting(invite, state, begun, item)
        }
        TxnState::Completed => TxnState::Completed,
        TxnState::Accepted => {
            if reaches(begun, item) {
                TxnState::Terminated
            } else {
                TxnState::Accepted
            }
        }
        TxnState::Terminated => TxnState::Terminated,
    }
}

pub fn is_calling(state: TxnState) -> bool
    ensures { result ≡ is_calling state }
{
    state == TxnState::Calling
}

pub fn is_proceeding(state: TxnState) -> bool
    ensures { result ≡ is_proceeding state }
{
    state == TxnState::Proceeding
}

// Timer M, after a 2xx to an INVITE.
fn decided_begun(invite: bool, code: u16, moment: u64) -> Option<u64>
    ensures { result ≡ decided_begun invite code moment }
{
    if invite && is_success(code) {
        Some(moment)
    } else {
        None
    }
}

// Timer B runs no more after a provisional response, and the one after the CANCEL begins.
fn provisional_begun(state: TxnState, begun: Option<u64>, asked: bool, moment: u64) -> Option<u64>
    ensures { result ≡ provisional_begun state begun asked moment }
{
    if !is_calling(state) {
        return begun;
    }
    if asked { Some(moment) } else { None }
}

fn response_begun(invite: bool, stage: ClientStage, code: u16, moment: u64) -> Option<u64>
    ensures { result
        ≡ (if is_final code then decided_begun invite code moment
        else provisional_begun stage.state stage.begun stage.asked moment) }
{
    if 199 < code {
        decided_begun(invite, code, moment)
    } else {
        provisional_begun(stage.state, stage.begun, stage.asked, moment)
    }
}

fn next_waiting_begun(invite: bool, stage: ClientStage, item: ClientItem) -> Option<u64>
    ensures { result ≡ next_waiting_begun invite stage.state stage.begun stage.asked item }
{
    match item {
        ClientItem::ResponseCame { code, moment } => response_begun(invite, stage, code, moment),
        ClientItem::CancelAsked { moment } => {
            if invite && is_proceeding(stage.state) && !stage.asked {
                Some(moment)
            } else {
                stage.begun
            }
        }
        ClientItem::MomentCame { moment } => {
            if is_reached(stage.begun, moment) {
                None
            } else {
                stage.begun
            }
        }
        ClientItem::PlaceLost => None,
    }
}

fn next_begun(invite: bool, stage: ClientStage, item: ClientItem) -> Option<u64>
    ensures { result ≡ next_begun invite stage.state stage.begun stage.asked item }
{
    match stage.state {
        TxnState::Calling | TxnState::Trying | TxnState::Proceeding => {
            next_waiting_begun(invite, stage, item)
        }
        TxnState::Accepted if reaches(stage.begun, item) => None,
        TxnState::Completed | TxnState::Accepted | TxnState::Terminated => stage.begun,
    }
}

/// One item more.
#[tactic(auto, unfolding(crate::specs::Stages::client_next))]
pub fn client_next(invite: bool, stage: ClientStage, item: ClientItem) -> ClientStage
    ensures { result ≡ client_next invite stage item }
{
    ClientStage {
        state: next_state(invite, stage.state, stage.begun, item),
        begun: next_begun(invite, stage, item),
        asked: asks_cancel(item) || stage.asked,
    }
}

fn first_state(invite: bool) -> TxnState
    ensures { result ≡ (if invite then TxnState.Calling else TxnState.Trying) }
{
    if invite {
        TxnState::Calling
    } else {
        TxnState::Trying
    }
}

/// Before any item: of an INVITE, or of another request, that was sent at this moment, in
/// milliseconds.
pub fn client_begun(invite: bool, sent: u64) -> ClientStage
    ensures { ClientStands result invite sent [] }
{
    ClientStage {
        state: first_state(invite),
        begun: Some(sent),
        asked: false,
    }
}

/// After all these items, the newest first.
pub fn client_stage(invite: bool, sent: u64, passed: &[ClientItem]) -> ClientStage
    ensures { ClientStands result invite sent passed.now }
{
    let mut at = passed.len();
    let mut stage = client_begun(invite, sent);
    while 0 < at {
        at -= 1;
        stage = client_next(invite, stage, passed[at]);
    }
    stage
}
