//! A switch on which orders are carried out, and what came of each.

ghost use Rattle.std.specs.Prelude.{IsTrue};
ghost use Rattle.sc_hosts.specs.Runs.{HasVia};

use crate::leases::{after_refusal, copied, forged, kept, made_by, numbered, put_back};
use crate::letters::{info, options};
use crate::orders::Order;
use crate::settings::{catalogue, switch_over};
use crate::telling::{
    tell_answer, tell_listing, tell_refused, tell_sent, tell_taken, tell_unended,
};
use crate::telling_leases::tell_lease;
use crate::telling_steps::tell_steps;
use sc_message_text::read_message;
use sc_servlets::{Catalogue, Done, Lease, SipServlet};
use sc_switch::{CommitRefused, Epoch, Switch};
use sc_value::{AppId, Discard, Message, NoMemory, Place, Text, write_counted};
use std::alloc::Global;
use std::collections::VecDeque;

/// A switch over one kind, with what is out and what was told.
#[derive(Drop)]
pub struct Bench {
    alloc: Global,
    apps: Catalogue,
    /// A kind of another charter.
    others: Catalogue,
    switch: Switch,
    /// The leases that are out, in the order in which they were lent.
    out: VecDeque<Lease>,
    /// Whether what is sent is left with the switch.
    leaves: bool,
    /// The steps of the epoch that were handed on.
    handed: Text,
    told: Text,
}

impl Discard for Bench {
    fn discard(self) {
        drop(self);
    }
}

/// A switch with this servlet and this limit of steps. The other servlet is one of another charter.
pub fn bench_over(
    alloc: Global,
    steps: u64,
    servlet: Box<dyn SipServlet>,
    other: Box<dyn SipServlet>,
) -> Result<Bench, NoMemory> {
    let apps = catalogue(alloc, servlet)?;
    let others = catalogue(alloc, other)?;
    match switch_over(alloc, steps, &apps) {
        Ok(switch) => Ok(Bench {
            alloc,
            apps,
            others,
            switch,
            out: VecDeque::new(alloc),
            leaves: false,
            handed: Text::new(alloc),
            told: Text::new(alloc),
        }),
        Err(NoMemory) => Err(NoMemory),
    }
}

/// What is told of these orders.
pub fn told_on(bench: Bench, script: &[Order]) -> Result<Text, NoMemory> {
    let mut bench = bench;
    match bench.carry_out(script) {
        Ok(()) => Ok(told_of(bench)),
        Err(NoMemory) => {
            bench.discard();
            Err(NoMemory)
        }
    }
}

fn told_of(bench: Bench) -> Text {
    let mut bench = bench;
    let none = Text::new(bench.alloc);
    let told = std::mem::replace(&mut bench.told, none);
    bench.discard();
    told
}

impl Bench {
    fn carry_out(&mut self, script: &[Order]) -> Result<(), NoMemory> {
        for order in script {
            self.obey(*order)?;
            self.take_sent()?;
        }
        Ok(())
    }

    fn obey(&mut self, order: Order) -> Result<(), NoMemory> {
        match order {
            Order::In(letter) => self.comes(letter.place(), letter.text()),
            Order::Info(number) => self.info(number),
            Order::Infos(from, to) => self.infos(from, to),
            Order::Options(number) => self.options(number),
            Order::Tick(now) => self.tick(now),
            Order::Lost(port) => self.lost(port),
            Order::Withdraw(app) => self.withdraw(app),
            Order::Turn => self.turn(),
            Order::EndEpoch => self.end_epoch(),
            Order::HandOn => self.hand_on(),
            _ => self.obey_beside(order),
        }
    }

    // The orders on leases, and those that only tell.
    fn obey_beside(&mut self, order: Order) -> Result<(), NoMemory> {
        match order {
            Order::Lend => self.lend(),
            Order::LendOf(app) => self.lend_of(app),
            Order::Show => self.show(),
            Order::Double => self.double(),
            Order::Forge => self.forge(),
            Order::Number(number) => self.number(number),
            Order::Bring => self.bring(),
            Order::BringOther => self.bring_other(),
            Order::Leave => self.leave(true),
            Order::Take => self.leave(false),
            Order::Count => self.count(),
            Order::List => self.list(),
            Order::Steps => self.tell_steps(),
            _ => Ok(()),
        }
    }

    fn leave(&mut self, leaves: bool) -> Result<(), NoMemory> {
        self.leaves = leaves;
        Ok(())
    }

    // Tells all that was sent, unless it is to be left.
    fn take_sent(&mut self) -> Result<(), NoMemory> {
        if self.leaves {
            return Ok(());
        }
        for _ in 0..self.switch.untaken() {
            self.take_one()?;
        }
        Ok(())
    }

    fn take_one(&mut self) -> Result<(), NoMemory> {
        match self.switch.take_sent() {
            Some(sent) => {
                let put = tell_sent(&sent, &mut self.told);
                sent.discard();
                put
            }
            None => Ok(()),
        }
    }
}

/// What comes from outside.
impl Bench {
    fn comes(&mut self, place: Place, text: &[u8]) -> Result<(), NoMemory> {
        match read_message(self.alloc, text) {
            Ok(message) => self.arrives(place, message),
            Err(_) => self.told.append(b"no message\n"),
        }
    }

    fn arrives(&mut self, place: Place, message: Message) -> Result<(), NoMemory> {
        if !has_via(&message) {
            message.discard();
            return self.told.append(b"no Via\n");
        }
        tell_taken(
            self.switch.arrive(self.alloc, place, message),
            &mut self.told,
        )
    }

    fn info(&mut self, number: u64) -> Result<(), NoMemory> {
        let text = info(self.alloc, number)?;
        self.comes(Place::Back(1), text.as_bytes())
    }

    fn infos(&mut self, from: u64, to: u64) -> Result<(), NoMemory> {
        for number in from..to {
            self.info(number)?;
        }
        Ok(())
    }

    fn options(&mut self, number: u64) -> Result<(), NoMemory> {
        let text = options(self.alloc, number)?;
        self.comes(Place::Back(1), text.as_bytes())
    }

    fn tick(&mut self, now: u64) -> Result<(), NoMemory> {
        if now < self.switch.now() || now > (1 << 63) {
            return self.told.append(b"no moment\n");
        }
        tell_taken(self.switch.tick(self.alloc, now), &mut self.told)
    }

    fn lost(&mut self, port: u16) -> Result<(), NoMemory> {
        let at = Place::To([127, 0, 0, 1], port);
        tell_taken(self.switch.lost(self.alloc, at), &mut self.told)
    }

    fn withdraw(&mut self, app: AppId) -> Result<(), NoMemory> {
        match self.switch.withdraw(self.alloc, app) {
            Ok(true) => self.told.append(b"Withdrawn\n"),
            Ok(false) => self.told.append(b"Not live\n"),
            Err(cause) => tell_refused(cause, &mut self.told),
        }
    }
}

/// Leases and turns.
impl Bench {
    fn turn(&mut self) -> Result<(), NoMemory> {
        match self.switch.lease(self.alloc) {
            Ok(lease) => self.handle(lease),
            Err(NoMemory) => Err(NoMemory),
        }
    }

    fn lend(&mut self) -> Result<(), NoMemory> {
        match self.switch.lease(self.alloc) {
            Ok(lease) => self.keep(lease),
            Err(NoMemory) => Err(NoMemory),
        }
    }

    fn lend_of(&mut self, app: AppId) -> Result<(), NoMemory> {
        match self.switch.lease_of(self.alloc, app) {
            Ok(lease) => self.keep(lease),
            Err(NoMemory) => Err(NoMemory),
        }
    }

    fn keep(&mut self, lease: Option<Lease>) -> Result<(), NoMemory> {
        match lease {
            Some(lease) => kept(lease, &mut self.out),
            None => self.told.append(b"no event\n"),
        }
    }

    fn bring(&mut self) -> Result<(), NoMemory> {
        let lease = self.out.pop_front();
        self.handle(lease)
    }

    fn handle(&mut self, lease: Option<Lease>) -> Result<(), NoMemory> {
        match lease {
            Some(lease) => {
                let done = made_by(self.alloc, &self.apps, lease);
                self.commit(done)
            }
            None => self.told.append(b"no event\n"),
        }
    }

    fn bring_other(&mut self) -> Result<(), NoMemory> {
        match self.out.pop_front() {
            Some(lease) => {
                let done = made_by(self.alloc, &self.others, lease);
                self.commit(done)
            }
            None => self.told.append(b"no event\n"),
        }
    }

    // A turn is brought, none where its lease had no kind.
    fn commit(&mut self, done: Option<Done>) -> Result<(), NoMemory> {
        match done {
            Some(done) => self.commit_turn(done),
            None => self.told.append(b"no kind\n"),
        }
    }

    // The lease of a turn that is refused is out again.
    fn commit_turn(&mut self, done: Done) -> Result<(), NoMemory> {
        match self.switch.commit(self.alloc, done) {
            Ok(answer) => tell_answer(answer, &mut self.told),
            Err(CommitRefused { done, cause }) => {
                tell_refused(cause, &mut self.told)?;
                put_back(after_refusal(done), &mut self.out)
            }
        }
    }

    fn show(&mut self) -> Result<(), NoMemory> {
        match self.out.back() {
            Some(lease) => tell_lease(lease, &mut self.told),
            None => self.told.append(b"no lease\n"),
        }
    }

    fn double(&mut self) -> Result<(), NoMemory> {
        match copied(self.alloc, &self.out) {
            Ok(lease) => self.keep(lease),
            Err(NoMemory) => Err(NoMemory),
        }
    }

    fn forge(&mut self) -> Result<(), NoMemory> {
        match self.out.pop_front() {
            Some(lease) => self.put_forged(lease),
            None => self.told.append(b"no lease\n"),
        }
    }

    fn put_forged(&mut self, lease: Lease) -> Result<(), NoMemory> {
        match forged(self.alloc, lease) {
            Ok(lease) => put_back(lease, &mut self.out),
            Err(NoMemory) => Err(NoMemory),
        }
    }

    fn number(&mut self, number: u64) -> Result<(), NoMemory> {
        match self.out.pop_front() {
            Some(lease) => put_back(numbered(lease, number), &mut self.out),
            None => self.told.append(b"no lease\n"),
        }
    }
}

/// What the switch tells, and its epochs.
impl Bench {
    fn count(&mut self) -> Result<(), NoMemory> {
        write_counted(b"steps ", self.switch.journal().len(), &mut self.told)?;
        write_counted(b" live ", self.switch.live(), &mut self.told)?;
        write_counted(b" waiting ", self.switch.waiting(), &mut self.told)?;
        write_counted(b" leases ", self.switch.leases(), &mut self.told)?;
        self.told.append(b"\n")
    }

    fn list(&mut self) -> Result<(), NoMemory> {
        let listing = self.switch.listing(self.alloc)?;
        tell_listing(&listing, &mut self.told)
    }

    fn end_epoch(&mut self) -> Result<(), NoMemory> {
        match self.switch.turn_epoch() {
            Ok(ended) => self.tell_epoch(figures_of(ended)),
            Err(cause) => tell_unended(cause, &mut self.told),
        }
    }

    // Tells the epoch that ended, and the one that began.
    fn tell_epoch(&mut self, ended: Figures) -> Result<(), NoMemory> {
        self.handed = Text::new(self.alloc);
        write_counted(b"epoch ", u64::from(ended.number), &mut self.told)?;
        write_counted(b" from ", ended.began, &mut self.told)?;
        write_counted(b" steps ", ended.steps, &mut self.told)?;
        self.tell_now()
    }

    fn tell_now(&mut self) -> Result<(), NoMemory> {
        write_counted(b", then ", u64::from(self.switch.epoch()), &mut self.told)?;
        write_counted(b" from ", self.switch.began(), &mut self.told)?;
        self.told.append(b"\n")
    }

    fn hand_on(&mut self) -> Result<(), NoMemory> {
        let part = self.switch.hand_on();
        tell_steps(&part, &mut self.handed)
    }

    fn tell_steps(&mut self) -> Result<(), NoMemory> {
        self.told.append(self.handed.as_bytes())?;
        tell_steps(self.switch.journal(), &mut self.told)
    }
}

// The number of an epoch that ended, its first moment, and how many steps its journal has.
#[derive(Clone, Copy)]
struct Figures {
    number: u32,
    began: u64,
    steps: u64,
}

fn figures_of(ended: Epoch) -> Figures {
    let figures = Figures {
        number: ended.number,
        began: ended.began,
        steps: ended.journal.len(),
    };
    drop(ended);
    figures
}

#[tactic(auto, unfolding(sc_hosts::specs::Runs::HasVia))]
fn has_via(message: &Message) -> bool
    ensures { IsTrue result → HasVia message.now }
{
    match message {
        Message::Request(request) => !request.get().head.via.is_empty(),
        Message::Response(response) => !response.get().head.via.is_empty(),
    }
}
