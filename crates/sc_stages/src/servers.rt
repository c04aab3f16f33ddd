//! Server transactions (RFC 3261 section 17.2, RFC 6026 section 7.1), by what has passed them.

ghost use Rattle.std.specs.Prelude.{◌≡◌, [], is_some, if◌then◌else◌};
ghost use Rattle.std.specs.List.{list_any};
ghost use Rattle.sc_parts.specs.declared.transactions.TxnState.{TxnState};
ghost use Rattle.sc_model.specs.Transactions.{is_success};
ghost use Rattle.sc_model.specs.ServerTransactions.{is_answer, is_final_answer, final_answer, sends_in, repeats_in, absorbs_in};
ghost use Rattle.sc_model.specs.TransactionTables.{answered_state, next_undecided, ends, next_server_state};
ghost use Rattle.sc_stages.specs.Stages.{due_since, answered_begun, undecided_begun, next_server_begun, server_next, ServerStands};

use crate::moments::is_reached;
use sc_methods::is_success;
use sc_parts::{ServerItem, TxnState};

/// What has become of a server transaction.
#[derive(Clone, Copy)]
pub struct ServerStage {
    pub state: TxnState,
    /// The moment at which the timer that runs began.
    pub begun: Option<u64>,
    /// Whether an answer was given.
    pub answered: bool,
}

// After an answer of this code, where no final one was given.
fn answered_state(invite: bool, code: u16) -> TxnState
    ensures { result ≡ answered_state invite code }
{
    if code <= 199 {
        TxnState::Proceeding
    } else {
        decided_state(invite, code)
    }
}

fn decided_state(invite: bool, code: u16) -> TxnState
    ensures { result
        ≡ (if invite then (if is_success code then TxnState.Accepted else TxnState.Completed)
        else TxnState.Terminated) }
{
    if !invite {
        return TxnState::Terminated;
    }
    if is_success(code) {
        TxnState::Accepted
    } else {
        TxnState::Completed
    }
}

fn next_undecided(invite: bool, state: TxnState, item: ServerItem) -> TxnState
    ensures { result ≡ next_undecided invite state item }
{
    match item {
        ServerItem::AnswerGiven { code, .. } => answered_state(invite, code),
        ServerItem::RequestAgain | ServerItem::AckCame | ServerItem::MomentCame { .. } => state,
    }
}

fn answered_begun(invite: bool, code: u16, moment: u64) -> Option<u64>
    ensures { result ≡ answered_begun invite code moment }
{
    if 199 < code && invite {
        Some(moment)
    } else {
        None
    }
}

fn undecided_begun(invite: bool, item: ServerItem) -> Option<u64>
    ensures { result ≡ undecided_begun invite item }
{
    match item {
        ServerItem::AnswerGiven { code, moment } => answered_begun(invite, code, moment),
        ServerItem::RequestAgain | ServerItem::AckCame | ServerItem::MomentCame { .. } => None,
    }
}

// Whether the item ends a transaction in this state.
fn ends(stage: ServerStage, item: ServerItem) -> bool
    ensures { result ≡ ends stage.state (due_since stage.begun) item }
{
    match stage.state {
        TxnState::Completed => ends_completed(stage.begun, item),
        TxnState::Accepted => ends_accepted(stage.begun, item),
        TxnState::Calling | TxnState::Trying | TxnState::Proceeding | TxnState::Terminated => false,
    }
}

fn ends_completed(begun: Option<u64>, item: ServerItem) -> bool
    ensures { result ≡ ends TxnState.Completed (due_since begun) item }
{
    match item {
        ServerItem::AckCame => true,
        ServerItem::MomentCame { moment } => is_reached(begun, moment),
        ServerItem::RequestAgain | ServerItem::AnswerGiven { .. } => false,
    }
}

fn ends_accepted(begun: Option<u64>, item: ServerItem) -> bool
    ensures { result ≡ ends TxnState.Accepted (due_since begun) item }
{
    match item {
        ServerItem::MomentCame { moment } => is_reached(begun, moment),
        ServerItem::RequestAgain | ServerItem::AckCame | ServerItem::AnswerGiven { .. } => false,
    }
}

fn next_state(invite: bool, stage: ServerStage, item: ServerItem) -> TxnState
    ensures { result ≡ next_server_state invite stage.state (due_since stage.begun) item }
{
    match stage.state {
        TxnState::Calling | TxnState::Trying | TxnState::Proceeding => {
            next_undecided(invite, stage.state, item)
        }
        TxnState::Completed | TxnState::Accepted => {
            if ends(stage, item) {
                TxnState::Terminated
            } else {
                stage.state
            }
        }
        TxnState::Terminated => TxnState::Terminated,
    }
}

fn next_begun(invite: bool, stage: ServerStage, item: ServerItem) -> Option<u64>
    ensures { result ≡ next_server_begun invite stage.state stage.begun item }
{
    match stage.state {
        TxnState::Calling | TxnState::Trying | TxnState::Proceeding => {
            undecided_begun(invite, item)
        }
        TxnState::Completed | TxnState::Accepted => {
            if ends(stage, item) { None } else { stage.begun }
        }
        TxnState::Terminated => stage.begun,
    }
}

/// One item more.
#[tactic(auto, unfolding(crate::specs::Stages::server_next))]
pub fn server_next(invite: bool, stage: ServerStage, item: ServerItem) -> ServerStage
    ensures { result ≡ server_next invite stage item }
{
    ServerStage {
        state: next_state(invite, stage, item),
        begun: next_begun(invite, stage, item),
        answered: is_answer(item) || stage.answered,
    }
}

fn first_state(invite: bool) -> TxnState
    ensures { result ≡ (if invite then TxnState.Proceeding else TxnState.Trying) }
{
    if invite {
        TxnState::Proceeding
    } else {
        TxnState::Trying
    }
}

/// Before any item: of an INVITE, or of another request.
pub fn server_begun(invite: bool) -> ServerStage
    ensures { ServerStands result invite [] }
{
    ServerStage {
        state: first_state(invite),
        begun: None,
        answered: false,
    }
}

/// After all these items, the newest first.
pub fn server_stage(invite: bool, passed: &[ServerItem]) -> ServerStage
    ensures { ServerStands result invite passed.now }
{
    let mut at = passed.len();
    let mut stage = server_begun(invite);
    while 0 < at {
        at -= 1;
        stage = server_next(invite, stage, passed[at]);
    }
    stage
}

#[tactic(auto, unfolding(sc_model::specs::ServerTransactions::is_answer))]
fn is_answer(item: ServerItem) -> bool
    ensures { result ≡ is_answer item }
{
    match item {
        ServerItem::AnswerGiven { .. } => true,
        ServerItem::RequestAgain | ServerItem::AckCame | ServerItem::MomentCame { .. } => false,
    }
}

#[tactic(auto, unfolding(sc_model::specs::ServerTransactions::is_final_answer))]
fn is_final_answer(item: ServerItem) -> bool
    ensures { result ≡ is_final_answer [] item }
{
    match item {
        ServerItem::AnswerGiven { code, .. } => 199 < code,
        ServerItem::RequestAgain | ServerItem::AckCame | ServerItem::MomentCame { .. } => false,
    }
}

/// Whether a final answer was given.
#[tactic(auto, using(crate::proofs::ServerStanding::final_among))]
pub fn has_final_answer(passed: &[ServerItem]) -> bool
    ensures { result ≡ is_some (final_answer passed.now) }
{
    final_among(passed)
}

fn final_among(passed: &[ServerItem]) -> bool
    ensures { result ≡ list_any (is_final_answer []) passed.now }
{
    passed.iter().any(|item| is_final_answer(*item))
}

/// Whether an answer of this code is sent in this state.
#[tactic(auto, unfolding(sc_model::specs::ServerTransactions::sends_in))]
pub fn sends_in(invite: bool, state: TxnState, code: u16) -> bool
    ensures { result ≡ sends_in invite state code }
{
    match state {
        TxnState::Calling | TxnState::Trying | TxnState::Proceeding => true,
        TxnState::Completed => false,
        TxnState::Accepted => is_success(code),
        TxnState::Terminated => invite && is_success(code),
    }
}

/// Whether a request that comes again gets the last answer again in this state, where there is one.
#[tactic(auto, unfolding(sc_model::specs::ServerTransactions::repeats_in))]
pub fn repeats_in(state: TxnState) -> bool
    ensures { result ≡ repeats_in state }
{
    match state {
        TxnState::Proceeding | TxnState::Completed => true,
        TxnState::Calling | TxnState::Trying | TxnState::Accepted | TxnState::Terminated => false,
    }
}

/// Whether an ACK is absorbed in this state.
#[tactic(auto, unfolding(sc_model::specs::ServerTransactions::absorbs_in))]
pub fn absorbs_in(state: TxnState) -> bool
    ensures { result ≡ absorbs_in state }
{
    state == TxnState::Completed
}
