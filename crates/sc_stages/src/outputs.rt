//! What a client transaction does with an item that comes.

ghost use Rattle.std.specs.Prelude.{◌≡◌};
ghost use Rattle.sc_model.specs.Transactions.{has_provisional, brings_provisional, told_waiting, told_accepted, wants_ack, NOTHING};
ghost use Rattle.sc_model.specs.TransactionTables.{sends_cancel, output, waiting_out};
ghost use Rattle.sc_stages.specs.Stages.{due_since};

use crate::clients::{ClientStage, is_calling, is_proceeding};
use crate::moments::is_reached;
use sc_methods::is_success;
use sc_parts::{ClientItem, ClientOut, TxnState};

#[tactic(auto, unfolding(sc_model::specs::Transactions::brings_provisional))]
fn brings_provisional(item: ClientItem) -> bool
    ensures { result ≡ brings_provisional item }
{
    match item {
        ClientItem::ResponseCame { code, .. } => code <= 199,
        ClientItem::CancelAsked { .. } | ClientItem::MomentCame { .. } | ClientItem::PlaceLost =>
            false,
    }
}

/// Whether a provisional response has passed.
#[tactic(auto, unfolding(sc_model::specs::Transactions::has_provisional))]
pub fn has_provisional(passed: &[ClientItem]) -> bool
    ensures { result ≡ has_provisional passed.now }
{
    passed.iter().any(|item| brings_provisional(*item))
}

#[tactic(auto, unfolding(sc_model::specs::Transactions::wants_ack))]
fn wants_ack(item: ClientItem) -> bool
    ensures { result ≡ wants_ack item }
{
    match item {
        ClientItem::ResponseCame { code, .. } => 300 <= code,
        ClientItem::CancelAsked { .. } | ClientItem::MomentCame { .. } | ClientItem::PlaceLost =>
            false,
    }
}

fn sends_cancel(invite: bool, state: TxnState, asked: bool, item: ClientItem) -> bool
    ensures { result ≡ sends_cancel invite state asked item }
{
    match item {
        ClientItem::ResponseCame { code, .. } => is_calling(state) && asked && code <= 199,
        ClientItem::CancelAsked { .. } => invite && is_proceeding(state) && !asked,
        ClientItem::MomentCame { .. } | ClientItem::PlaceLost => false,
    }
}

#[tactic(auto, unfolding(sc_model::specs::Transactions::told_waiting))]
fn told_waiting(begun: Option<u64>, item: ClientItem) -> Option<u16>
    ensures { result ≡ told_waiting (due_since begun) item }
{
    match item {
        ClientItem::ResponseCame { code, .. } if code == 100 => None,
        ClientItem::ResponseCame { code, .. } => Some(code),
        ClientItem::CancelAsked { .. } => None,
        ClientItem::MomentCame { moment } if is_reached(begun, moment) => Some(408),
        ClientItem::MomentCame { .. } => None,
        ClientItem::PlaceLost => Some(503),
    }
}

#[tactic(auto, unfolding(sc_model::specs::Transactions::told_accepted))]
fn told_accepted(item: ClientItem) -> Option<u16>
    ensures { result ≡ told_accepted item }
{
    match item {
        ClientItem::ResponseCame { code, .. } if is_success(code) => Some(code),
        ClientItem::ResponseCame { .. }
        | ClientItem::CancelAsked { .. }
        | ClientItem::MomentCame { .. }
        | ClientItem::PlaceLost => None,
    }
}

fn waiting_out(invite: bool, stage: ClientStage, item: ClientItem) -> ClientOut
    ensures { result ≡ waiting_out invite stage.state (due_since stage.begun) stage.asked item }
{
    ClientOut {
        tell: told_waiting(stage.begun, item),
        ack: invite && wants_ack(item),
        cancel: sends_cancel(invite, stage.state, stage.asked, item),
    }
}

fn nothing() -> ClientOut
    ensures { result ≡ NOTHING }
{
    told(None)
}

fn told(tell: Option<u16>) -> ClientOut
    ensures { result ≡ record NOTHING { tell = tell } }
{
    ClientOut {
        tell,
        ack: false,
        cancel: false,
    }
}

/// What a client transaction of this stage does with an item that comes.
pub fn output(invite: bool, stage: ClientStage, item: ClientItem) -> ClientOut
    ensures { result ≡ output invite stage.state (due_since stage.begun) stage.asked item }
{
    match stage.state {
        TxnState::Calling | TxnState::Trying | TxnState::Proceeding => {
            waiting_out(invite, stage, item)
        }
        TxnState::Accepted => told(told_accepted(item)),
        TxnState::Completed | TxnState::Terminated => nothing(),
    }
}
