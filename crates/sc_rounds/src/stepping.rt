//! The switch with what is left to be put of what it sent: each step of a server.

ghost use Rattle.std.specs.Prelude.{◌≡◌, ◌≤◌, ◌<◌, ◌⊎◌, ◌+◌, ℕ, List, [], length, min, true, false, IfOk, IfErr, OnOk, OnErr};
ghost use Rattle.sc_terms.specs.declared.steps.Step.TheVariants as steps;
ghost use Rattle.sc_edge.specs.Edges.{EdgeState};
ghost use Rattle.sc_hosts.specs.Runs.{HasVia, live_count};
ghost use Rattle.sc_switch.specs.Standing.{net_of, step_of};
ghost use Rattle.sc_outs.specs.Deeds.{Deed};
ghost use Rattle.sc_outs.specs.Owing.{nothing};
ghost use Rattle.sc_courses.specs.Courses.{Told};
ghost use Rattle.sc_courses.specs.Seconds.{IsInTime};
ghost use Rattle.sc_outs.specs.Puts.{Puts};
ghost use Rattle.sc_rounds.specs.Dues.{HasDue};
ghost use Rattle.sc_rounds.specs.Serving.{HasNoEnd, RunsOn, Same, Settles, Stopped, Took, running};
ghost use Rattle.sc_rounds.specs.Stepping.{Commits, IsLong, StoppedAt, Ticks, Withdraws};

use sc_edge::{Listing, Notice};
use sc_journal::Journal;
use sc_outs::Outs;
use sc_servlets::{Done, Lease};
use sc_switch::{CommitRefused, Committed, Epoch, StepRefused, Switch};
use sc_terms::{Bad, End, Step, Within};
use sc_value::{AppId, Discard, Message, NoMemory, Place};
use std::alloc::Global;

/// When a server begins a new journal.
#[derive(Clone, Copy)]
pub struct Turning {
    /// After so many steps, where nothing lives; 0 for never.
    pub epoch_steps: Within<0, 1_000_000>,
    /// Whether it hands on what it has, once its journal is half full.
    pub parts: bool,
    /// Whether it hands on what it has before that is a second old.
    pub recording: bool,
}

/// Of steps that are recorded those are kept that were taken less than so many milliseconds after
/// the first of them.
const RECORD_EVERY: u64 = 1_000;

/// A switch, and what is left to be put of what it sent. Between two steps nothing is left in the
/// switch.
#[derive(Drop)]
pub struct Core {
    pub alloc: Global,
    pub turning: Turning,
    pub switch: Switch,
    pub outs: Outs,
    /// How many steps of the epoch were handed on; it stays at its greatest value.
    pub handed: u64,
    /// At which moment the first of the steps was taken that are kept; of no meaning where none is.
    pub kept_since: u64,
    /// How many steps were taken since the notice was told what lives; it stays at its greatest
    /// value.
    pub unlisted: u64,
}

impl Core {
    /// A switch that took no step, with nothing to put.
    pub fn new(alloc: Global, turning: Turning, switch: Switch) -> Core
        ensures turning { result.turning ≡ turning }
        ensures switch { result.switch ≡ switch }
        ensures outs { result.outs ≡ nothing }
        ensures handed { result.handed ≡ 0 }
        ensures unlisted { result.unlisted ≡ 0 }
    {
        Core {
            alloc,
            turning,
            switch,
            outs: Outs::new(alloc),
            handed: 0,
            kept_since: 0,
            unlisted: 0,
        }
    }

    /// How many steps the running epoch has, those that were handed on too.
    pub fn steps(&self) -> u64
        ensures { result
            ≡ min (self.now.handed + length self.now.switch.journal) 18446744073709551615 }
    {
        self.handed.saturating_add(self.switch.journal().len())
    }

    /// Ends the epoch where its steps are as many as the settings ask for and nothing lives.
    pub fn end_epoch<N: Notice<Journal<Step>>>(&mut self, notice: &mut N)
        ensures same { Same self.old self.new (N.noted notice.old) (N.noted notice.new) }
        ensures over { HasNoEnd self.old (N.noted notice.old) self.new.switch }
        ensures outs { self.new.outs ≡ self.old.outs }
        ensures unlisted { self.new.unlisted ≡ self.old.unlisted }
        ensures moment { (net_of self.new.switch).moment ≡ (net_of self.old.switch).moment }
    {
        if !self.is_epoch_due() {
            return;
        }
        match self.switch.turn_epoch() {
            Ok(
                Epoch {
                    number,
                    began,
                    journal,
                },
            ) => {
                self.handed = 0;
                notice.epoch(number, began, journal);
            }
            Err(_) => {}
        }
    }

    /// Whether the epoch has as many steps as the settings ask for, and no session lives.
    fn is_epoch_due(&self) -> bool
        ensures long { result ≡ true → (handed : ℕ)
            → self.now.handed ≡ min handed 18446744073709551615 → IsLong self.now handed }
        ensures lives { result ≡ false → live_count (net_of self.now.switch) ≡ 0 → (handed : ℕ)
            → self.now.handed ≡ min handed 18446744073709551615 → IsLong self.now handed → ⊥ }
    {
        let least = self.turning.epoch_steps.get();
        least > 0 && self.switch.live() == 0 && self.steps() >= least
    }

    /// Hands on the steps that are kept, where the settings ask for it and the journal is half
    /// full.
    fn hand_on<N: Notice<Journal<Step>>>(&mut self, notice: &mut N)
        ensures same { Same self.old self.new (N.noted notice.old) (N.noted notice.new) }
        ensures moment { (net_of self.new.switch).moment ≡ (net_of self.old.switch).moment }
        ensures epoch { self.new.switch.epoch ≡ self.old.switch.epoch }
        ensures running { running self.new.switch ≡ running self.old.switch }
    {
        if !self.is_part_due() {
            return;
        }
        self.hand_all(notice);
    }

    fn is_part_due(&self) -> bool {
        self.turning.parts && is_half_full(self.switch.journal())
    }

    /// Hands on the steps that are kept.
    fn hand_all<N: Notice<Journal<Step>>>(&mut self, notice: &mut N)
        ensures same { Same self.old self.new (N.noted notice.old) (N.noted notice.new) }
        ensures moment { (net_of self.new.switch).moment ≡ (net_of self.old.switch).moment }
        ensures epoch { self.new.switch.epoch ≡ self.old.switch.epoch }
        ensures running { running self.new.switch ≡ running self.old.switch }
        ensures none { self.new.switch.journal ≡ [] }
    {
        let journal = self.switch.hand_on();
        self.handed = self.handed.saturating_add(journal.len());
        notice.part(journal);
    }

    /// Makes room for a step: ends the epoch or hands on its steps, where that is due.
    fn make_room<N: Notice<Journal<Step>>>(&mut self, notice: &mut N)
        ensures same { Same self.old self.new (N.noted notice.old) (N.noted notice.new) }
        ensures over { HasNoEnd self.old (N.noted notice.old) self.new.switch }
        ensures moment { (net_of self.new.switch).moment ≡ (net_of self.old.switch).moment }
    {
        self.end_epoch(notice);
        self.hand_on(notice);
    }

    /// Makes room for the step of this moment: hands on also what would be a second old by then,
    /// where it is recorded.
    fn make_room_at<N: Notice<Journal<Step>>>(&mut self, notice: &mut N, now: u64)
        ensures same { Same self.old self.new (N.noted notice.old) (N.noted notice.new) }
        ensures over { HasNoEnd self.old (N.noted notice.old) self.new.switch }
        ensures moment { (net_of self.new.switch).moment ≡ (net_of self.old.switch).moment }
        ensures young { self.new.turning.recording ≡ true
            → IsInTime self.new.kept_since self.new.switch.journal (Step.Tick now) }
    {
        self.make_room(notice);
        if !self.is_record_due(now) {
            return;
        }
        self.hand_all(notice);
    }

    /// Whether steps are recorded, and the first one that is kept will be a second old at this
    /// moment.
    fn is_record_due(&self, now: u64) -> bool
        ensures { result ≡ false → self.now.turning.recording ≡ true
            → IsInTime self.now.kept_since self.now.switch.journal (Step.Tick now) }
    {
        self.turning.recording && self.is_kept_long(now)
    }

    /// Whether a step is kept, and the first one will be a second old at this moment.
    fn is_kept_long(&self, now: u64) -> bool
        ensures { result ≡ false
            → IsInTime self.now.kept_since self.now.switch.journal (Step.Tick now) }
    {
        if self.switch.journal().is_empty() {
            return false;
        }
        now.saturating_sub(self.kept_since) >= RECORD_EVERY
    }

    /// At which moment the first of the steps was taken that are kept: now, where that is the last
    /// one.
    fn since(&self) -> u64
        ensures first { length self.now.switch.journal ≡ 1
            → result ≡ (net_of self.now.switch).moment }
        ensures later { (length self.now.switch.journal ≡ 1 → ⊥) → result ≡ self.now.kept_since }
    {
        if self.switch.journal().len() == 1 {
            return self.switch.now();
        }
        self.kept_since
    }

    /// Tells the notice of a step, and takes what it sent.
    fn settle<N: Notice<Journal<Step>>>(&mut self, notice: &mut N) -> Result<(), StepRefused>
        ensures ok { OnOk result
            (Settles self.old self.new (N.noted notice.old) (N.noted notice.new)) }
        ensures err { RunsOn self.old self.new (N.noted notice.old) (N.noted notice.new) }
        ensures due { IfErr result (λ cause. HasDue self.new.switch cause) }
    {
        self.kept_since = self.since();
        self.unlisted = self.unlisted.saturating_add(1);
        notice.step(self.steps());
        match self.drain() {
            Ok(()) => Ok(()),
            Err(NoMemory) => Err(StepRefused::NoMemory),
        }
    }

    /// Takes all that was sent from the switch, and puts each text behind what is left of its
    /// place.
    fn drain(&mut self) -> Result<(), NoMemory>
        ensures same { self.new.switch ≡ record self.old.switch { left = self.new.switch.left } }
        ensures turning { self.new.turning ≡ self.old.turning }
        ensures handed { self.new.handed ≡ self.old.handed }
        ensures since { self.new.kept_since ≡ self.old.kept_since }
        ensures unlisted { self.new.unlisted ≡ self.old.unlisted }
        ensures all { OnOk result (self.new.switch.left ≡ []) }
        ensures keeps { OnOk result
            ((first now : EdgeState) (deeds : List Deed)
            → Puts first now deeds self.old.outs self.old.switch.left
            → Puts first now deeds self.new.outs []) }
    {
        while let Some(sent) = self.switch.take_sent() {
            self.outs.owe(self.alloc, sent)?;
        }
        Ok(())
    }

    /// A message came from a place.
    ///
    /// # Errors
    ///
    /// `JournalFull` where the journal has no room for the step, and `NoMemory`, also behind the
    /// step. The run can't go on then.
    pub fn arrive<N: Notice<Journal<Step>>>(
        &mut self,
        notice: &mut N,
        from: Place,
        message: Message,
    ) -> Result<(), StepRefused>
        requires { HasVia message }
        ensures ok { OnOk result
            (Took (Step.In from message) false self.old self.new (N.noted notice.old)
            (N.noted notice.new)) }
        ensures err { OnErr result
            (Stopped (Step.In from message) false self.old self.new (N.noted notice.old)
            (N.noted notice.new)) }
        ensures due { IfErr result (λ cause. HasDue self.new.switch cause) }
    {
        self.make_room(notice);
        match self.switch.arrive(self.alloc, from, message) {
            Ok(()) => self.settle(notice),
            Err(cause) => Err(cause),
        }
    }

    /// A text came from a place that is no message.
    ///
    /// # Errors
    ///
    /// As of `arrive`.
    pub fn hear_bad<N: Notice<Journal<Step>>>(
        &mut self,
        notice: &mut N,
        from: Place,
        bad: Bad,
    ) -> Result<(), StepRefused>
        ensures ok { OnOk result
            (Took (Step.Bad from bad) false self.old self.new (N.noted notice.old)
            (N.noted notice.new)) }
        ensures err { OnErr result
            (Stopped (Step.Bad from bad) false self.old self.new (N.noted notice.old)
            (N.noted notice.new)) }
        ensures due { IfErr result (λ cause. HasDue self.new.switch cause) }
    {
        self.make_room(notice);
        match self.switch.hear_bad(self.alloc, from, bad) {
            Ok(()) => self.settle(notice),
            Err(cause) => Err(cause),
        }
    }

    /// A place is lost that gives nothing more, or nothing that is heard. What was sent there is
    /// still put.
    ///
    /// # Errors
    ///
    /// As of `arrive`.
    pub fn lose<N: Notice<Journal<Step>>>(
        &mut self,
        notice: &mut N,
        at: Place,
    ) -> Result<(), StepRefused>
        ensures ok { OnOk result
            (Took (Step.Lost at) false self.old self.new (N.noted notice.old)
            (N.noted notice.new)) }
        ensures err { OnErr result
            (Stopped (Step.Lost at) false self.old self.new (N.noted notice.old)
            (N.noted notice.new)) }
        ensures due { IfErr result (λ cause. HasDue self.new.switch cause) }
    {
        self.make_room(notice);
        match self.switch.lost(self.alloc, at) {
            Ok(()) => self.settle(notice),
            Err(cause) => Err(cause),
        }
    }

    /// A place is lost that failed. What is left to be put there is dropped.
    ///
    /// # Errors
    ///
    /// As of `arrive`.
    pub fn fail<N: Notice<Journal<Step>>>(
        &mut self,
        notice: &mut N,
        at: Place,
    ) -> Result<(), StepRefused>
        ensures ok { OnOk result
            (Took (Step.Lost at) true self.old self.new (N.noted notice.old) (N.noted notice.new)) }
        ensures err { OnErr result
            (Stopped (Step.Lost at) true self.old self.new (N.noted notice.old)
            (N.noted notice.new)) }
        ensures due { IfErr result (λ cause. HasDue self.new.switch cause) }
    {
        self.make_room(notice);
        match self.switch.lost(self.alloc, at) {
            Ok(()) => match self.outs.lose(at) {
                Ok(()) => self.settle(notice),
                Err(NoMemory) => {
                    notice.step(self.steps());
                    Err(StepRefused::NoMemory)
                }
            },
            Err(cause) => Err(cause),
        }
    }

    /// The clock tells a moment, in milliseconds: false where it is no later one than the last. One
    /// past 2^63 is none.
    ///
    /// # Errors
    ///
    /// As of `arrive`.
    pub fn tick<N: Notice<Journal<Step>>>(
        &mut self,
        notice: &mut N,
        now: u64,
    ) -> Result<bool, StepRefused>
        ensures ok { IfOk result
            (λ later. Ticks now self.old self.new (N.noted notice.old) (N.noted notice.new) later) }
        ensures err { OnErr result
            (Stopped (Step.Tick now) false self.old self.new (N.noted notice.old)
            (N.noted notice.new)) }
        ensures due { IfErr result (λ cause. HasDue self.new.switch cause) }
    {
        if now <= self.switch.now() || now > 1 << 63 {
            return Ok(false);
        }
        match self.tick_at(notice, now) {
            Ok(()) => Ok(true),
            Err(cause) => Err(cause),
        }
    }

    /// The step of a later moment.
    fn tick_at<N: Notice<Journal<Step>>>(
        &mut self,
        notice: &mut N,
        now: u64,
    ) -> Result<(), StepRefused>
        requires later { (net_of self.old.switch).moment < now }
        requires within { now ≤ 9223372036854775808 }
        ensures ok { OnOk result
            (Took (Step.Tick now) false self.old self.new (N.noted notice.old)
            (N.noted notice.new)) }
        ensures err { OnErr result
            (Stopped (Step.Tick now) false self.old self.new (N.noted notice.old)
            (N.noted notice.new)) }
        ensures due { IfErr result (λ cause. HasDue self.new.switch cause) }
    {
        self.make_room_at(notice, now);
        match self.switch.tick(self.alloc, now) {
            Ok(()) => self.settle(notice),
            Err(cause) => Err(cause),
        }
    }

    /// Ends an application session: false where it doesn't live.
    ///
    /// # Errors
    ///
    /// As of `arrive`.
    pub fn withdraw<N: Notice<Journal<Step>>>(
        &mut self,
        notice: &mut N,
        app: AppId,
    ) -> Result<bool, StepRefused>
        ensures ok { IfOk result
            (λ lived.
            Withdraws app self.old self.new (N.noted notice.old) (N.noted notice.new) lived) }
        ensures err { OnErr result
            (StoppedAt app self.old self.new (N.noted notice.old) (N.noted notice.new)) }
        ensures due { IfErr result (λ cause. HasDue self.new.switch cause) }
    {
        self.hand_on(notice);
        match self.switch.withdraw(self.alloc, app) {
            Ok(true) => match self.settle(notice) {
                Ok(()) => Ok(true),
                Err(cause) => Err(cause),
            },
            Ok(false) => Ok(false),
            Err(cause) => Err(cause),
        }
    }

    /// Takes a turn that was brought.
    ///
    /// # Errors
    ///
    /// As of `arrive`.
    pub fn commit<N: Notice<Journal<Step>>>(
        &mut self,
        notice: &mut N,
        done: Done,
    ) -> Result<Committed, StepRefused>
        ensures ok { IfOk result
            (λ answer.
            Commits done self.old self.new (N.noted notice.old) (N.noted notice.new) answer) }
        ensures err { OnErr result
            (Stopped (step_of done) false self.old self.new (N.noted notice.old)
            (N.noted notice.new)) }
        ensures due { IfErr result (λ cause. HasDue self.new.switch cause) }
    {
        self.hand_on(notice);
        match self.switch.commit(self.alloc, done) {
            Ok(Committed::Taken) => match self.settle(notice) {
                Ok(()) => Ok(Committed::Taken),
                Err(cause) => Err(cause),
            },
            Ok(Committed::Gone(number)) => Ok(Committed::Gone(number)),
            Ok(Committed::Other(number)) => Ok(Committed::Other(number)),
            Err(CommitRefused { done, cause }) => {
                let _ = self.switch.leases();
                let cause = cause_after(done.end, cause);
                done.discard();
                Err(cause)
            }
        }
    }

    /// Whether more events wait than leases are out.
    pub fn is_turn_due(&self) -> bool {
        self.switch.waiting() > self.switch.leases()
    }

    /// Lends out the turn of the first event that waits, as [`Switch::lease`].
    pub fn lease(&mut self) -> Result<Option<Lease>, NoMemory>
        ensures { (told : Told) → Same self.old self.new told told }
    {
        self.switch.lease(self.alloc)
    }

    /// Whether the notice is to be told what lives: a step was taken since it was told, and there
    /// is nothing to do, or as many steps were taken as application sessions live. A listing walks
    /// over these, so a step pays for one.
    pub fn is_list_due(&self, is_busy: bool) -> bool {
        self.unlisted > 0 && (!is_busy || self.unlisted >= self.switch.live())
    }

    /// Whether no step was taken since the notice was told what lives.
    pub fn is_listed(&self) -> bool
        ensures { result ≡ true → self.now.unlisted ≡ 0 }
    {
        self.unlisted == 0
    }

    /// Tells the notice what lives, where the epoch has a step.
    pub fn list<N: Notice<Journal<Step>>>(&mut self, notice: &mut N) -> Result<(), NoMemory>
        ensures { Same self.old self.new (N.noted notice.old) (N.noted notice.new) }
    {
        let listing = self.switch.listing(self.alloc)?;
        if is_unstepped(&listing) {
            return Ok(());
        }
        self.unlisted = 0;
        notice.list(listing);
        Ok(())
    }
}

/// Whether the listing is of an epoch without steps.
fn is_unstepped(listing: &Listing) -> bool
    ensures { result ≡ false → listing.now.steps ≡ 0 → ⊥ }
{
    listing.steps == 0
}

/// Why a turn was refused that ended so: where it starved, for want of memory.
fn cause_after(end: End, cause: StepRefused) -> StepRefused
    ensures { (result ≡ StepRefused.NoMemory) ⊎ ((result ≡ cause) × (end ≡ End.Starved → ⊥)) }
{
    match end {
        End::Starved => StepRefused::NoMemory,
        _ => cause,
    }
}

/// Whether at least half of a journal's steps or more than half of its bytes are taken.
fn is_half_full(journal: &Journal<Step>) -> bool {
    journal.len() >= journal.most_items().div_ceil(2) || journal.is_full(journal.most_bytes() / 2)
}
