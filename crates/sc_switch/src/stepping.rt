//! Taking a step: it is taken on a copy of the net, and room is made for all that it changes,
//! before the first change.

ghost use Rattle.std.specs.Prelude.{◌≡◌, ◌+◌, ◌≤◌, ◌++◌, [], length, IfOk, IfSome, OnOk, IfErr};
ghost use Rattle.std.specs.VecDeque.{deque_len, deque_capacity};
ghost use Rattle.sc_hosts.specs.Histories.{as_session};
ghost use Rattle.sc_hosts.specs.Runs.{after_step, live_count, waiting_count};
ghost use Rattle.sc_switch.specs.Beginnings.{BeginsAnyhow};
ghost use Rattle.sc_switch.specs.Standing.{IsNet, step_of};
ghost use Rattle.sc_switch.specs.Stepping.{IsStepped, HasRoom, Refuses, taken_step};

use crate::StepRefused;
use crate::brought::Taken;
use crate::copying::copy_net;
use crate::counting::{live_count, waiting_count};
use crate::readied::Readied;
use sc_journal::Journal;
use sc_parts::Setup;
use sc_servlets::Done;
use sc_state::{Net, Prepared, Session};
use sc_steps::{Made, after_begun, after_step};
use sc_terms::Step;
use sc_value::{Boxed, List, NoMemory, Sent};
use std::alloc::Global;
use std::collections::VecDeque;

/// What a step makes.
#[derive(Drop)]
pub struct Stepped {
    /// The net after it, with nothing sent.
    pub net: Net<Session>,
    /// What it sends.
    pub sent: List<Sent>,
    /// How many application sessions live then.
    pub live: u64,
    /// How many events wait then.
    pub waiting: u64,
}

/// Makes all that the next step is to change, and room for it.
pub fn plan(
    alloc: Global,
    setup: &Setup,
    net: &mut Readied,
    journal: &mut Journal<Step>,
    left: &mut VecDeque<Sent>,
    taken: &Taken,
    bytes: u64,
) -> Result<Stepped, StepRefused>
    requires within { length journal.old.items ≤ journal.old.most_items }
    ensures stepped { IfOk result (λ s. IsStepped setup.now net.old (taken_step taken.now) s) }
    ensures room { IfOk result (λ s. HasRoom journal.new bytes) }
    ensures left_room { IfOk result
        (λ s. deque_len left.new + length s.sent ≤ deque_capacity left.new) }
    ensures refused { IfErr result (λ cause. Refuses journal.old bytes cause) }
    ensures same { journal.new ≡ record journal.old { room = journal.new.room } }
    ensures same_left { left.new.items ≡ left.old.items }
    ensures same_net { net.new ≡ net.old }
{
    make_room(journal, bytes)?;
    match made(alloc, setup, net, taken) {
        Ok(stepped) => with_room(left, stepped),
        Err(NoMemory) => Err(StepRefused::NoMemory),
    }
}

/// Makes room in the journal for a step of so many bytes.
fn make_room(journal: &mut Journal<Step>, bytes: u64) -> Result<(), StepRefused>
    requires { length journal.old.items ≤ journal.old.most_items }
    ensures room { OnOk result (HasRoom journal.new bytes) }
    ensures refused { IfErr result (λ cause. Refuses journal.old bytes cause) }
    ensures same { journal.new ≡ record journal.old { room = journal.new.room } }
{
    if journal.is_full(bytes) {
        return Err(StepRefused::JournalFull {
            steps: journal.most_items(),
            bytes: journal.most_bytes(),
        });
    }
    journal.reserve()?;
    Ok(())
}

/// The net after the next step, what that sends, and what is counted then.
fn made(alloc: Global, setup: &Setup, net: &mut Readied, taken: &Taken) -> Result<Stepped, NoMemory>
    ensures made { IfOk result (λ s. IsStepped setup.now net.old (taken_step taken.now) s) }
    ensures same { net.new ≡ net.old }
{
    let next = next_net(alloc, setup, net, taken)?;
    counted(alloc, next)
}

/// The net after the next step.
#[tactic(auto, unfolding(sc_hosts::specs::Runs::after_step), using(crate::proofs::Standings::unsent))]
fn next_net(
    alloc: Global,
    setup: &Setup,
    net: &mut Readied,
    taken: &Taken,
) -> Result<Net<Session>, NoMemory>
    ensures made { IfOk result
        (λ next. next ≡ after_step as_session setup.now net.old (taken_step taken.now)) }
    ensures same { net.new ≡ net.old }
{
    let room = net.room(alloc);
    let mut next = copy_net(alloc, net.get(), room)?;
    match change(alloc, setup, net, taken, &mut next) {
        Ok(()) => Ok(next),
        Err(NoMemory) => {
            let_go(next);
            Err(NoMemory)
        }
    }
}

/// Changes a copy of the net as the next step does; a turn begins with what is kept for it.
#[tactic(auto, unfolding(crate::specs::Stepping::taken_step), using(crate::proofs::Beginnings::begun_copy))]
fn change(
    alloc: Global,
    setup: &Setup,
    net: &mut Readied,
    taken: &Taken,
    copy: &mut Net<Session>,
) -> Result<(), NoMemory>
    requires { copy.old ≡ record net.old { sent = [] } }
    ensures made { OnOk result
        (copy.new ≡ after_step as_session setup.now copy.old (taken_step taken.now)) }
    ensures same { net.new ≡ net.old }
{
    match taken {
        Taken::Step(step) => after_step(alloc, setup, step, copy),
        Taken::Turn(done) => {
            let begun = begun_for(net, done);
            take_turn(alloc, setup, begun, done, copy)
        }
    }
}

/// What a turn that was made begins with, where it is kept.
fn begun_for(net: &mut Readied, done: &Done) -> Option<Boxed<Prepared>>
    ensures begun { IfSome result
        (λ shown. BeginsAnyhow net.old done.now.lease.app done.now.lease.shown.now shown) }
    ensures same { net.new ≡ net.old }
{
    net.begun(done.lease.app, done.lease.shown.get().now)
}

/// Changes the net as a turn that was made does.
#[tactic(auto, unfolding(crate::specs::Standing::step_of), using(crate::proofs::Beginnings::begun_here))]
fn take_turn(
    alloc: Global,
    setup: &Setup,
    begun: Option<Boxed<Prepared>>,
    done: &Done,
    net: &mut Net<Session>,
) -> Result<(), NoMemory>
    requires { IfSome begun
        (λ shown. BeginsAnyhow net.old done.now.lease.app done.now.lease.shown.now shown) }
    ensures { OnOk result
        (net.new ≡ after_step as_session setup.now net.old (step_of done.now)) }
{
    let made = Made {
        app: done.lease.app,
        event: done.lease.event_number,
        moment: done.lease.shown.get().now,
        calls: done.calls.as_slice(),
        end: done.end,
    };
    after_begun(alloc, setup, begun, &made, net)
}

/// Lets go of a net.
fn let_go(net: Net<Session>) {
    drop(net);
}

fn counted(alloc: Global, net: Net<Session>) -> Result<Stepped, NoMemory>
    ensures sent { IfOk result (λ s. s.sent ≡ net.sent) }
    ensures net { IfOk result (λ s. IsNet net s.net s.live s.waiting) }
{
    match counts(&net) {
        Ok((live, waiting)) => Ok(parted(alloc, net, live, waiting)),
        Err(NoMemory) => {
            let_go(net);
            Err(NoMemory)
        }
    }
}

fn counts(net: &Net<Session>) -> Result<(u64, u64), NoMemory>
    ensures { IfOk result
        (λ counts. (counts.0 ≡ live_count net.now) × (counts.1 ≡ waiting_count net.now)) }
{
    let live = live_count(net)?;
    let waiting = waiting_count(net)?;
    Ok((live, waiting))
}

fn parted(alloc: Global, net: Net<Session>, live: u64, waiting: u64) -> Stepped
    ensures { result
        ≡ record {
          net = record net { sent = [] };
          sent = net.sent;
          live = live;
          waiting = waiting;
        } }
{
    let Net {
        hosts,
        wire,
        epoch,
        moment,
        count,
        sent,
    } = net;
    Stepped {
        net: Net {
            hosts,
            wire,
            epoch,
            moment,
            count,
            sent: List::new(alloc),
        },
        sent,
        live,
        waiting,
    }
}

/// Makes room for the messages that are sent.
fn with_room(left: &mut VecDeque<Sent>, stepped: Stepped) -> Result<Stepped, StepRefused>
    ensures ok { IfOk result (λ whole. whole ≡ stepped) }
    ensures room { IfOk result
        (λ whole. deque_len left.new + length whole.sent ≤ deque_capacity left.new) }
    ensures refused { IfErr result (λ cause. cause ≡ StepRefused.NoMemory) }
    ensures same { left.new.items ≡ left.old.items }
{
    match left.reserve(stepped.sent.len()) {
        Ok(()) => Ok(stepped),
        Err(_) => {
            drop(stepped);
            Err(StepRefused::NoMemory)
        }
    }
}

/// Puts messages at the end of the queue, into room that was made for them.
pub fn send_all(left: &mut VecDeque<Sent>, sent: List<Sent>)
    requires { deque_len left.old + length sent ≤ deque_capacity left.old }
    ensures { left.new.items ≡ left.old.items ++ sent }
{
    for message in sent.items {
        left.push_back_reserved(message);
    }
}
