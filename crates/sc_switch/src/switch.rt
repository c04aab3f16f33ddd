//! The switch itself.

ghost use Rattle.std.specs.Prelude.{◌≡◌, ◌+◌, ◌<◌, ◌≤◌, ◌^◌, ◌∷◌, [], ◌++◌, Ok, List, map, min, length, Option, Some, option_map, IfOk, IfErr, OnOk, OnErr, IfSome, IfNone, is_some, true, false};
ghost use Rattle.sc_servlets.specs.Stated.{both_charters};
ghost use Rattle.sc_value.specs.declared.message.Sent.{Sent};
ghost use Rattle.sc_grammar.specs.Written.{text_of_message};
ghost use Rattle.sc_model.specs.JournalSizes.{step_size};
ghost use Rattle.sc_model.specs.Settings.{IsSetup};
ghost use Rattle.sc_hosts.specs.Histories.{as_session};
ghost use Rattle.sc_hosts.specs.Steps.{live_at};
ghost use Rattle.sc_hosts.specs.Runs.{HasVia, IsAllowed, IsLawful, all_sent, live_count, waiting_count};
ghost use Rattle.sc_leases.specs.Leases.{IsLeaseOf, is_leased, next_free};
ghost use Rattle.sc_switch.specs.Standing.{Known, AreKept, net_of, whole, Fits, step_of};
ghost use Rattle.sc_switch.specs.Answers.{IsGiven, Leased, LeasedOf, Received, RefusesRight, RefusesTurn, IsFullFor, Withdraws, with_step, LAST_LEASE, IsListing, IsReady, IsTurned, LAST_EPOCH, RefusesEpoch, handing};
ghost use Rattle.sc_switch.specs.Offering.{Judges, Offers};
ghost use Rattle.sc_switch.specs.Stepping.{MayBeTaken, taken_step};

use crate::brought::{Taken, gone, number_of, taken_step};
use crate::called::{Judged, end_lease, end_own, judge};
use crate::counting::busy_count;
use crate::leasing::{keep_copy, offer};
use crate::lengths::message_len;
use crate::listing::list_net;
use crate::next::{Next, is_leased, next_free};
use crate::readied::{Readied, begin_net, lives_in, set_net};
use crate::refused::{
    CommitRefused, Committed, Epoch, EpochRefused, StepRefused, Untaken, refused_turn, told,
};
use crate::sizes::total;
use crate::starting::{kinds_of, start_net};
use crate::stepping::{Stepped, plan, send_all};
use sc_edge::Listing;
use sc_handed::Handed;
use sc_journal::Journal;
use sc_parts::Setup;
use sc_servlets::{Catalogue, Done, Lease};
use sc_terms::{Bad, Config, Dar, End, Step};
use sc_value::{AppId, CloneIn, Discard, List, Message, NoMemory, Place, Sent};
use std::alloc::Global;
use std::collections::VecDeque;
use std::marker::Model;
use std::mem::replace;

/// The core of a container. It stands for its journal: what it sent and will send, its sessions and
/// what waits in them are those of the journal's run.
#[derive(Drop)]
pub struct Switch {
    alloc: Global,
    setup: Setup,
    epoch: u32,
    /// The first moment of the epoch.
    began: u64,
    /// The journals of this epoch that were handed on.
    handed: Handed<Journal<Step>>,
    /// How many steps they have.
    before: u64,
    /// The steps of this epoch that weren't handed on.
    journal: Journal<Step>,
    /// The net after all steps of the epoch, with nothing sent, and what the last turn begins with.
    net: Readied,
    /// How many application sessions live.
    live: u64,
    /// How many events wait.
    waiting: u64,
    /// What was sent and not taken yet.
    left: VecDeque<Sent>,
    /// The live leases, in the order in which they were given.
    kept: List<Lease>,
    /// The number of the last lease.
    leases: u64,
}

impl Model for Switch {
    ghost use Rattle.sc_switch.specs.Standing.{Known, IsSwitch, steps_of};

    ghost Value = { Known };

    ghost view = { λ s.
        record {
          setup = s.setup;
          epoch = s.epoch;
          began = s.began;
          handed = steps_of s.handed.items;
          journal = s.journal.items;
          left = s.left.items;
          kept = s.kept;
          leases = s.leases;
        } };

    ghost invariant = { λ s.
        IsSwitch
        (record {
          setup = s.setup;
          epoch = s.epoch;
          began = s.began;
          handed = steps_of s.handed.items;
          journal = s.journal.items;
          left = s.left.items;
          kept = s.kept;
          leases = s.leases;
        }) s.journal s.before s.net s.live s.waiting };
}

/// The number of the last lease that is given.
const LAST: u64 = 9_223_372_036_854_775_807;

impl Switch {
    /// A switch over these settings, this table and the charters of the catalogue's kinds, with an
    /// empty journal of epoch 0, which begins at moment 0.
    pub fn new(
        alloc: Global,
        config: Config,
        dar: Dar,
        apps: &Catalogue,
    ) -> Result<Switch, NoMemory>
        requires { IsSetup
            (record {
              config = config;
              dar = dar;
              kinds = map
                  (λ k.
                  both_charters (stated (k.servlet.vtable, k.servlet.value))
                  (option_map (λ l. listens (l.vtable, l.value)) k.listener)) apps.now.kinds;
            }) }
        ensures { IfOk result
            (λ s.
            s
            ≡ record {
              setup =
                  record { config = config; dar = dar; kinds = map (λ k. both_charters (stated (k.servlet.vtable, k.servlet.value)) (option_map (λ l. listens (l.vtable, l.value)) k.listener)) apps.now.kinds };
              epoch = 0;
              began = 0;
              handed = [];
              journal = [];
              left = [];
              kept = [];
              leases = 0;
            }) }
    {
        match kinds_of(alloc, apps) {
            Ok(kinds) => switch_of(alloc, Setup { config, dar, kinds }),
            Err(cause) => {
                drop(config);
                drop(dar);
                Err(cause)
            }
        }
    }

    /// Takes the next step, of so many bytes: all is made before the first change.
    fn accept(&mut self, alloc: Global, taken: Taken, bytes: u64) -> Result<(), Untaken>
        requires allowed { MayBeTaken self.old taken }
        requires size { bytes ≡ min (step_size (taken_step taken)) u64.MAX }
        ensures ok { OnOk result (self.new ≡ with_step self.old (taken_step taken)) }
        ensures room { OnOk result (¬ (IsFullFor self.old (step_size (taken_step taken)))) }
        ensures refused { IfErr result
            (λ untaken. RefusesRight self.old (step_size (taken_step taken)) untaken.cause) }
        ensures back { IfErr result (λ untaken. untaken.taken ≡ taken) }
        ensures err { OnErr result (self.new ≡ self.old) }
    {
        match plan(
            alloc,
            &self.setup,
            &mut self.net,
            &mut self.journal,
            &mut self.left,
            &taken,
            bytes,
        ) {
            Ok(
                Stepped {
                    net,
                    sent,
                    live,
                    waiting,
                },
            ) => {
                let step = taken_step(taken);
                end_own(&step, &mut self.kept);
                self.journal.put(step, bytes);
                send_all(&mut self.left, sent);
                set_net(alloc, &mut self.net, net);
                self.live = live;
                self.waiting = waiting;
                Ok(())
            }
            Err(cause) => Err(Untaken { taken, cause }),
        }
    }

    /// Takes a step of so many bytes.
    #[tactic(auto, unfolding(crate::specs::Stepping::MayBeTaken, crate::specs::Stepping::taken_step))]
    fn take(&mut self, alloc: Global, step: Step, bytes: u64) -> Result<(), StepRefused>
        requires allowed { IsAllowed as_session self.old.setup (net_of self.old) step }
        requires size { bytes ≡ min (step_size step) u64.MAX }
        ensures ok { OnOk result (self.new ≡ with_step self.old step) }
        ensures room { OnOk result (¬ (IsFullFor self.old (step_size step))) }
        ensures refused { IfErr result (λ cause. RefusesRight self.old (step_size step) cause) }
        ensures err { OnErr result (self.new ≡ self.old) }
    {
        told(self.accept(alloc, Taken::Step(step), bytes))
    }

    /// Takes a message that came from a place.
    ///
    /// # Errors
    ///
    /// `JournalFull` exactly where the journal has no room for the step, but for want of memory, and
    /// `NoMemory`; nothing is then changed.
    #[tactic(auto, unfolding(sc_hosts::specs::Runs::IsAllowed, sc_model::specs::JournalSizes::step_size, crate::specs::Answers::RefusesRight))]
    pub fn arrive(
        &mut self,
        alloc: Global,
        from: Place,
        message: Message,
    ) -> Result<(), StepRefused>
        requires { HasVia message }
        ensures ok { OnOk result (self.new ≡ with_step self.old (Step.In from message)) }
        ensures room { OnOk result (¬ (IsFullFor self.old (length (text_of_message message)))) }
        ensures refused { IfErr result
            (λ cause. RefusesRight self.old (length (text_of_message message)) cause) }
        ensures err { OnErr result (self.new ≡ self.old) }
    {
        let bytes = message_len(&message);
        self.take(alloc, Step::In(from, message), bytes)
    }

    /// Takes a text from a place that is no message.
    ///
    /// # Errors
    ///
    /// As of `arrive`; the step has no bytes.
    #[tactic(auto, unfolding(sc_hosts::specs::Runs::IsAllowed, sc_model::specs::JournalSizes::step_size))]
    pub fn hear_bad(&mut self, alloc: Global, from: Place, bad: Bad) -> Result<(), StepRefused>
        ensures ok { OnOk result (self.new ≡ with_step self.old (Step.Bad from bad)) }
        ensures room { OnOk result (¬ (IsFullFor self.old 0)) }
        ensures refused { IfErr result (λ cause. RefusesRight self.old 0 cause) }
        ensures err { OnErr result (self.new ≡ self.old) }
    {
        self.take(alloc, Step::Bad(from, bad), 0)
    }

    /// A place is lost: what was sent there as a request ends.
    ///
    /// # Errors
    ///
    /// As of `arrive`; the step has no bytes.
    #[tactic(auto, unfolding(sc_hosts::specs::Runs::IsAllowed, sc_model::specs::JournalSizes::step_size))]
    pub fn lost(&mut self, alloc: Global, at: Place) -> Result<(), StepRefused>
        ensures ok { OnOk result (self.new ≡ with_step self.old (Step.Lost at)) }
        ensures room { OnOk result (¬ (IsFullFor self.old 0)) }
        ensures refused { IfErr result (λ cause. RefusesRight self.old 0 cause) }
        ensures err { OnErr result (self.new ≡ self.old) }
    {
        self.take(alloc, Step::Lost(at), 0)
    }

    /// The clock reaches a moment, in milliseconds, which isn't below the last one.
    ///
    /// # Errors
    ///
    /// As of `arrive`; the step has no bytes.
    #[tactic(auto, unfolding(sc_hosts::specs::Runs::IsAllowed, sc_model::specs::JournalSizes::step_size))]
    pub fn tick(&mut self, alloc: Global, now: u64) -> Result<(), StepRefused>
        requires later { (net_of self.old).moment ≤ now }
        requires within { now ≤ 2 ^ 63 }
        ensures ok { OnOk result (self.new ≡ with_step self.old (Step.Tick now)) }
        ensures room { OnOk result (¬ (IsFullFor self.old 0)) }
        ensures refused { IfErr result (λ cause. RefusesRight self.old 0 cause) }
        ensures err { OnErr result (self.new ≡ self.old) }
    {
        self.take(alloc, Step::Tick(now), 0)
    }

    /// Whether the application session lives.
    fn lives(&self, app: AppId) -> bool
        ensures { result ≡ is_some (live_at app (net_of self.now)) }
    {
        lives_in(app, &self.net)
    }

    /// Ends an application session; false exactly where it doesn't live, which is no step.
    ///
    /// # Errors
    ///
    /// As of `arrive`; the step has no bytes.
    #[tactic(auto, unfolding(crate::specs::Answers::Withdraws, sc_hosts::specs::Runs::IsAllowed, sc_model::specs::JournalSizes::step_size))]
    pub fn withdraw(&mut self, alloc: Global, app: AppId) -> Result<bool, StepRefused>
        ensures ok { IfOk result (λ lived. Withdraws self.old self.new app lived) }
        ensures room { result ≡ Ok true → ¬ (IsFullFor self.old 0) }
        ensures lives { OnErr result (is_some (live_at app (net_of self.old)) ≡ true) }
        ensures refused { IfErr result (λ cause. RefusesRight self.old 0 cause) }
        ensures err { OnErr result (self.new ≡ self.old) }
    {
        if !self.lives(app) {
            return Ok(false);
        }
        match self.take(alloc, Step::Withdraw(app), 0) {
            Ok(()) => Ok(true),
            Err(cause) => Err(cause),
        }
    }

    /// Lends out the turn of the event with the lowest number among the first ones of the sessions
    /// that have no lease: None exactly where there is none, or after the lease of the greatest
    /// number.
    #[tactic(auto, unfolding(crate::specs::Answers::Leased))]
    pub fn lease(&mut self, alloc: Global) -> Result<Option<Lease>, NoMemory>
        ensures leased { IfOk result (λ lease. Leased self.old self.new lease) }
        ensures err { OnErr result (self.new ≡ self.old) }
    {
        if self.leases >= LAST {
            return Ok(None);
        }
        match self.next()? {
            Some(next) => Ok(Some(self.lend_next(alloc, next)?)),
            None => Ok(None),
        }
    }

    fn next(&self) -> Result<Option<Next>, NoMemory>
        ensures { IfOk result (λ next. next ≡ next_free (net_of self.now) self.now.kept) }
    {
        next_free(self.alloc, &self.net, self.kept.as_slice())
    }

    /// Lends out the turn of the event that is next.
    fn lend_next(&mut self, alloc: Global, next: Next) -> Result<Lease, NoMemory>
        requires few { self.old.leases < LAST_LEASE }
        requires free { next_free (net_of self.old) self.old.kept ≡ Some next }
        ensures given { IfOk result (λ lease. IsGiven self.old self.new lease) }
        ensures next { IfOk result
            (λ lease. next ≡ record { app = lease.app; number = lease.event_number }) }
        ensures err { OnErr result (self.new ≡ self.old) }
    {
        match self.offered(alloc, next.app)? {
            Some(lease) => self.lend(alloc, lease),
            None => unreachable!(),
        }
    }

    /// The lease of the first event of a session, with the next number.
    fn offered(&mut self, alloc: Global, app: AppId) -> Result<Option<Lease>, NoMemory>
        requires { self.old.leases < LAST_LEASE }
        ensures offers { IfOk result
            (λ lease. Offers self.old.setup (net_of self.old) app (self.old.leases + 1) lease) }
        ensures same { self.new ≡ self.old }
    {
        offer(alloc, &self.setup, &mut self.net, app, self.leases + 1)
    }

    /// Keeps a copy of a lease that is given.
    fn lend(&mut self, alloc: Global, lease: Lease) -> Result<Lease, NoMemory>
        requires few { self.old.leases < LAST_LEASE }
        requires number { lease.number ≡ self.old.leases + 1 }
        requires shows { IsLeaseOf as_session self.old.setup (net_of self.old) lease }
        requires free { is_leased self.old.kept lease.app ≡ false }
        ensures ok { IfOk result
            (λ given.
            (given ≡ lease)
            × (self.new
            ≡ record self.old {
              kept = self.old.kept ++ lease ∷ [];
              leases = self.old.leases + 1;
            })) }
        ensures err { OnErr result (self.new ≡ self.old) }
    {
        match keep_copy(alloc, &lease, &mut self.kept) {
            Ok(()) => {
                self.leases += 1;
                Ok(lease)
            }
            Err(NoMemory) => {
                lease.discard();
                Err(NoMemory)
            }
        }
    }

    /// Lends out the turn of the first event of this session: None exactly where it doesn't live,
    /// no event waits for it or it has a lease, or after the lease of the greatest number.
    #[tactic(auto, unfolding(crate::specs::Answers::LeasedOf, crate::specs::Offering::Offers))]
    pub fn lease_of(&mut self, alloc: Global, app: AppId) -> Result<Option<Lease>, NoMemory>
        ensures leased { IfOk result (λ lease. LeasedOf app self.old self.new lease) }
        ensures err { OnErr result (self.new ≡ self.old) }
    {
        if self.leases >= LAST {
            return Ok(None);
        }
        if is_leased(self.kept.as_slice(), app) {
            return Ok(None);
        }
        match self.offered(alloc, app)? {
            Some(lease) => Ok(Some(self.lend(alloc, lease)?)),
            None => Ok(None),
        }
    }

    /// Takes a turn that was made, where it is that of a live lease and of those whom that lease
    /// calls.
    ///
    /// # Errors
    ///
    /// `JournalFull` exactly where the turn fits and the journal has no room for the step, but for
    /// want of memory; `NoMemory` for want of memory, and where the turn ended as `Starved`. The
    /// turn is handed back, its lease stays live, and nothing is changed.
    #[tactic(auto, unfolding(crate::specs::Answers::Received, crate::specs::Answers::RefusesTurn))]
    pub fn commit(&mut self, alloc: Global, done: Done) -> Result<Committed, CommitRefused>
        ensures ok { IfOk result (λ answer. Received self.old self.new done answer) }
        ensures room { result ≡ Ok Committed.Taken
            → ¬ (IsFullFor self.old (step_size (step_of done))) }
        ensures err { OnErr result (self.new ≡ self.old) }
        ensures refused { IfErr result
            (λ refused. RefusesTurn self.old done (step_size (step_of done)) refused.cause) }
        ensures back { IfErr result (λ refused. refused.done ≡ done) }
    {
        match self.judged(&done) {
            Judged::Fits => self.take_turn(alloc, done),
            Judged::Gone => Ok(gone(done)),
            Judged::Other => {
                let number = number_of(done);
                end_lease(number, &mut self.kept);
                Ok(Committed::Other(number))
            }
        }
    }

    fn judged(&self, done: &Done) -> Judged
        ensures { Judges self.now.setup self.now.kept done.now result }
    {
        judge(&self.setup, self.kept.as_slice(), done)
    }

    /// Takes the turn of a live lease, as `commit`.
    #[tactic(auto, unfolding(crate::specs::Answers::Received, crate::specs::Answers::RefusesTurn))]
    fn take_turn(&mut self, alloc: Global, done: Done) -> Result<Committed, CommitRefused>
        requires { Fits self.old.setup self.old.kept done }
        ensures ok { IfOk result (λ answer. Received self.old self.new done answer) }
        ensures room { OnOk result (¬ (IsFullFor self.old (step_size (step_of done)))) }
        ensures err { OnErr result (self.new ≡ self.old) }
        ensures refused { IfErr result
            (λ refused. RefusesTurn self.old done (step_size (step_of done)) refused.cause) }
        ensures back { IfErr result (λ refused. refused.done ≡ done) }
    {
        if let End::Starved = done.end {
            return Err(CommitRefused {
                done,
                cause: StepRefused::NoMemory,
            });
        }
        let bytes = total(done.calls.as_slice());
        match self.accept(alloc, Taken::Turn(done), bytes) {
            Ok(()) => Ok(Committed::Taken),
            Err(untaken) => Err(refused_turn(untaken)),
        }
    }

    /// The oldest message that was sent and not taken yet, None exactly where all were taken;
    /// nothing changes then.
    pub fn take_sent(&mut self) -> Option<Sent>
        ensures some { IfSome result (λ sent. self.old.left ≡ sent ∷ self.new.left) }
        ensures none { IfNone result ((self.old.left ≡ []) × (self.new ≡ self.old)) }
        ensures same { self.new ≡ record self.old { left = self.new.left } }
    {
        self.left.pop_front()
    }

    /// How many messages were sent and not taken yet.
    pub fn untaken(&self) -> u64
        ensures { result ≡ length self.now.left }
    {
        self.left.len() as u64
    }

    /// The journal, without the steps that were handed on. The steps of the whole epoch are lawful,
    /// and all that they send is what was taken and then what is left.
    pub fn journal(&self) -> &Journal<Step>
        ensures journal { result.now.items ≡ self.now.journal }
        ensures within { length self.now.journal ≤ self.now.setup.config.journal_steps }
        ensures lawful { IsLawful as_session self.now.setup self.now.epoch self.now.began
            (whole self.now) }
        ensures sent { (taken : List Sent)
            × (all_sent as_session self.now.setup self.now.epoch self.now.began (whole self.now)
            ≡ taken ++ self.now.left) }
    {
        &self.journal
    }

    /// Shows what holds of each switch, where a caller's contract rests on it: the steps that are
    /// kept are within their limit, those of the whole epoch are lawful, and all that they send is
    /// what was taken and then what is left. It does nothing.
    pub fn show_laws(&self)
        ensures within { length self.now.journal ≤ self.now.setup.config.journal_steps }
        ensures lawful { IsLawful as_session self.now.setup self.now.epoch self.now.began
            (whole self.now) }
        ensures sent { (taken : List Sent)
            × (all_sent as_session self.now.setup self.now.epoch self.now.began (whole self.now)
            ≡ taken ++ self.now.left) }
    {
        self.journal();
    }

    /// Hands on the steps of the epoch that are kept, and goes on: the sessions live on, and leases
    /// stay. It makes no step, takes no memory and isn't refused. The limits of steps and of bytes
    /// are from now on those of what is kept.
    pub fn hand_on(&mut self) -> Journal<Step>
        ensures journal { result.items ≡ self.old.journal }
        ensures handed { self.new ≡ handing self.old }
        ensures net { net_of self.new ≡ net_of self.old }
    {
        let fresh = self.fresh_journal();
        self.handed = self.handed.and(&self.journal);
        self.before = self.before.saturating_add(self.journal.len());
        replace(&mut self.journal, fresh)
    }

    /// An empty journal with the limits of this one.
    fn fresh_journal(&self) -> Journal<Step>
        ensures items { result.items ≡ [] }
        ensures used { result.used ≡ 0 }
        ensures most_items { result.most_items ≡ self.now.setup.config.journal_steps }
        ensures most_bytes { result.most_bytes ≡ self.now.setup.config.journal_bytes }
    {
        Journal::new(
            self.alloc,
            self.journal.most_items(),
            self.journal.most_bytes(),
        )
    }

    /// The number of the epoch, from 0.
    pub fn epoch(&self) -> u32
        ensures { result ≡ self.now.epoch }
    {
        self.epoch
    }

    /// The first moment of the epoch, in milliseconds.
    pub fn began(&self) -> u64
        ensures { result ≡ self.now.began }
    {
        self.began
    }

    /// Ends the epoch, where nothing lives, and begins the next one at the last moment, with an
    /// empty journal. Serials and event numbers begin at 1 again, names have the mark of the new
    /// epoch, and lease numbers go on. It makes no step and takes no memory.
    ///
    /// # Errors
    ///
    /// The first that holds: `Live` where application sessions live, `Busy` where transactions
    /// aren't Terminated, `Unsent` where messages weren't taken, `Last` where it is the last epoch.
    /// Nothing is then changed.
    pub fn turn_epoch(&mut self) -> Result<Epoch, EpochRefused>
        ensures turned { IfOk result (λ ended. IsTurned self.old self.new ended) }
        ensures last { OnOk result (self.old.epoch < LAST_EPOCH) }
        ensures refused { IfErr result (λ cause. RefusesEpoch self.old cause) }
        ensures err { OnErr result (self.new ≡ self.old) }
    {
        match self.unready() {
            Some(cause) => Err(cause),
            None => Ok(self.next_epoch()),
        }
    }

    /// Why the epoch goes on, None where it may end.
    #[tactic(auto, unfolding(crate::specs::Answers::RefusesEpoch))]
    fn unready(&self) -> Option<EpochRefused>
        ensures some { IfSome result (λ cause. RefusesEpoch self.now cause) }
        ensures none { IfNone result (IsReady self.now) }
    {
        if self.live > 0 {
            return Some(EpochRefused::Live(self.live));
        }
        let busy = busy_count(&self.net);
        if busy > 0 {
            return Some(EpochRefused::Busy(busy));
        }
        let unsent = self.untaken();
        if unsent > 0 {
            return Some(EpochRefused::Unsent(unsent));
        }
        if self.epoch == u32::MAX {
            return Some(EpochRefused::Last);
        }
        None
    }

    /// Begins the next epoch.
    fn next_epoch(&mut self) -> Epoch
        requires { IsReady self.old }
        ensures { IsTurned self.old self.new result }
    {
        let fresh = self.fresh_journal();
        let journal = replace(&mut self.journal, fresh);
        let number = self.epoch;
        let began = self.began;
        let moment = self.net.moment();
        self.epoch += 1;
        self.began = moment;
        self.handed = Handed::new();
        self.before = 0;
        begin_net(self.epoch, &mut self.net);
        self.live = 0;
        self.waiting = 0;
        Epoch {
            number,
            began,
            journal,
        }
    }

    /// What lives now: the sessions by host and serial, and how many events wait, with the number
    /// of the epoch and how many steps it has, those that were handed on too.
    ///
    /// # Errors
    ///
    /// `NoMemory` for want of memory.
    pub fn listing(&self, alloc: Global) -> Result<Listing, NoMemory>
        ensures { IfOk result (λ listing. IsListing self.now listing) }
    {
        let live = list_net(alloc, &self.net)?;
        Ok(Listing {
            epoch: self.epoch,
            steps: self.before.saturating_add(self.journal.len()),
            live,
            waiting: self.waiting,
        })
    }

    /// The last moment, in milliseconds.
    pub fn now(&self) -> u64
        ensures { result ≡ (net_of self.now).moment }
    {
        self.net.moment()
    }

    /// How many application sessions live.
    pub fn live(&self) -> u64
        ensures { result ≡ live_count (net_of self.now) }
    {
        self.live
    }

    /// How many events wait, those that are leased too.
    pub fn waiting(&self) -> u64
        ensures { result ≡ waiting_count (net_of self.now) }
    {
        self.waiting
    }

    /// How many leases are live. Each shows what there is, no two are of one session, and their
    /// numbers rise.
    pub fn leases(&self) -> u64
        ensures count { result ≡ length self.now.kept }
        ensures kept { AreKept self.now }
    {
        self.kept.len() as u64
    }

    /// Ends the switch and hands out its journal, without the steps that were handed on.
    pub fn into_journal(self) -> Journal<Step>
        ensures { result.items ≡ self.journal }
    {
        let Switch {
            setup,
            journal,
            net,
            left,
            kept,
            ..
        } = self;
        drop(setup);
        drop(net);
        drop(left);
        drop(kept);
        journal
    }
}

fn switch_of(alloc: Global, setup: Setup) -> Result<Switch, NoMemory>
    requires { IsSetup setup }
    ensures { IfOk result
        (λ s.
        s
        ≡ record {
          setup = setup;
          epoch = 0;
          began = 0;
          handed = [];
          journal = [];
          left = [];
          kept = [];
          leases = 0;
        }) }
{
    let journal = Journal::new(
        alloc,
        setup.config.journal_steps.get(),
        setup.config.journal_bytes.get(),
    );
    match start_net(alloc, &setup, 0, 0) {
        Ok(net) => Ok(Switch {
            alloc,
            setup,
            epoch: 0,
            began: 0,
            handed: Handed::new(),
            before: 0,
            journal,
            net: Readied::new(alloc, net),
            live: 0,
            waiting: 0,
            left: VecDeque::new(alloc),
            kept: List::new(alloc),
            leases: 0,
        }),
        Err(NoMemory) => {
            drop(setup);
            Err(NoMemory)
        }
    }
}
