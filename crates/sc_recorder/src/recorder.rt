ghost use Rattle.std.specs.Prelude.{◌≡◌, ◌∷◌, ◌++◌, [], None, Some};
ghost use Rattle.sc_edge.specs.Telling.{IsTold, Notes};
ghost use Rattle.sc_edge.specs.declared.notice.Noted.TheVariants as noted;
ghost use Rattle.sc_recording.specs.StepTexts.{epoch_text, steps_text};
ghost use Rattle.sc_recorder.specs.Recorded.{IsRecorded, Records, cause_after, told_text};

use crate::writing::{Unrecorded, put_epoch, put_steps};
use sc_edge::{Listing, Noted, Notice, Sink};
use sc_handed::Handed;
use sc_journal::Journal;
use sc_terms::Step;
use std::alloc::Global;
use std::cell::Cell;
use std::marker::Model;

/// A notice that writes the steps that it is told, and tells another one all of it. After the first
/// failure it writes nothing more, and remembers why; the flag is then set.
pub struct Recorder<'a, N, K: Sink> {
    alloc: Global,
    /// The notice that is told all of it.
    inner: N,
    /// Where the recording goes.
    out: K,
    /// What it was told. Only proofs read it.
    told: Handed<Noted<Journal<Step>>>,
    /// Why the recording isn't whole, once it isn't.
    cause: Option<Unrecorded>,
    /// Set once the recording isn't whole.
    over: &'a Cell<bool>,
}

// The sink took the text of all that was told, or a part from its front where something failed.
impl<'a, N, K: Sink> Model for Recorder<'a, N, K> {
    ghost use Rattle.sc_recorder.specs.Recorded.{IsRecorded, Recording, told_text};

    ghost Value = { Recording N K };

    ghost view = { λ r.
        record { inner = r.inner; out = r.out; told = r.told.items; cause = r.cause } };

    ghost invariant = { λ r. IsRecorded r.cause (K.took r.out) (told_text r.told.items) };
}

impl<'a, N: Notice<Journal<Step>>, K: Sink> Recorder<'a, N, K> {
    /// A recorder that was told nothing, over this sink, which has taken nothing yet. It sets the
    /// flag at its first failure.
    #[tactic(auto, using(crate::proofs::RecordLaws::recorded_none))]
    pub fn new(alloc: Global, inner: N, out: K, over: &'a Cell<bool>) -> Recorder<'a, N, K>
        requires { IsTold (K.took out) [] }
        ensures inner { result.inner ≡ inner }
        ensures out { result.out ≡ out }
        ensures told { result.told ≡ [] }
        ensures cause { result.cause ≡ None }
    {
        Recorder {
            alloc,
            inner,
            out,
            told: Handed::new(),
            cause: None,
            over,
        }
    }

    /// Why the recording isn't whole: None where it is.
    pub fn cause(&self) -> Option<Unrecorded>
        ensures cause { result ≡ self.now.cause }
        ensures recorded { IsRecorded self.now.cause (K.took self.now.out)
            (told_text self.now.told) }
    {
        self.cause
    }

    /// Ends it, and gives back the other notice and the sink.
    pub fn into_parts(self) -> (N, K)
        ensures inner { result.0 ≡ self.entry.inner }
        ensures out { result.1 ≡ self.entry.out }
    {
        let Recorder {
            alloc: _,
            inner,
            out,
            told: _,
            cause: _,
            over: _,
        } = self;
        (inner, out)
    }

    /// Writes steps that were handed out at the end of a run.
    #[tactic(auto, using(crate::proofs::RecordLaws::recorded_part))]
    pub fn record(&mut self, journal: Journal<Step>)
        ensures inner { self.new.inner ≡ self.old.inner }
        ensures told { self.new.told ≡ self.old.told ++ noted.Part journal ∷ [] }
        ensures records { Records self.old.cause self.new.cause (K.took self.old.out)
            (K.took self.new.out) (steps_text journal.items) }
    {
        write_steps(
            self.alloc,
            &journal,
            &mut self.out,
            &mut self.cause,
            self.over,
        );
        self.told = self.told.and(&Noted::Part(journal));
    }
}

/// Writes steps, unless something failed before.
#[tactic(auto, using(crate::proofs::RecordLaws::records_put, crate::proofs::RecordLaws::records_over))]
fn write_steps<K: Sink>(
    alloc: Global,
    journal: &Journal<Step>,
    out: &mut K,
    cause: &mut Option<Unrecorded>,
    over: &Cell<bool>,
)
    ensures { Records cause.old cause.new (K.took out.old) (K.took out.new)
        (steps_text journal.now.items) }
{
    if cause.is_none() {
        let put = put_steps(alloc, journal, out);
        note(cause, over, put);
    }
}

/// Writes the line that ends an epoch, unless something failed before.
#[tactic(auto, using(crate::proofs::RecordLaws::records_put, crate::proofs::RecordLaws::records_over))]
fn write_end<K: Sink>(
    alloc: Global,
    number: u32,
    began: u64,
    out: &mut K,
    cause: &mut Option<Unrecorded>,
    over: &Cell<bool>,
)
    ensures { Records cause.old cause.new (K.took out.old) (K.took out.new)
        (epoch_text number began) }
{
    if cause.is_none() {
        let put = put_epoch(alloc, number, began, out);
        note(cause, over, put);
    }
}

/// Remembers a failure.
#[tactic(auto, unfolding(crate::specs::Recorded::cause_after))]
fn note(cause: &mut Option<Unrecorded>, over: &Cell<bool>, put: Result<(), Unrecorded>)
    ensures { cause.new ≡ cause_after cause.old put }
{
    if let Err(failure) = put {
        *cause = Some(failure);
        over.set(true);
    }
}

/// Tells another notice the same.
fn pass_on<N: Notice<Journal<Step>>>(item: Noted<Journal<Step>>, inner: &mut N)
    ensures { Notes (N.noted inner.old) (N.noted inner.new) item }
{
    match item {
        Noted::Step(count) => inner.step(count),
        Noted::Part(journal) => inner.part(journal),
        Noted::Epoch(number, began, journal) => inner.epoch(number, began, journal),
        Noted::List(listing) => inner.list(listing),
    }
}

impl<N: Notice<Journal<Step>>, K: Sink> Notice<Journal<Step>> for Recorder<'_, N, K> {
    ghost noted = { λ r. Some r.told };

    #[tactic(auto, using(crate::proofs::RecordLaws::notes_and, crate::proofs::RecordLaws::records_none, crate::proofs::RecordLaws::recorded_step))]
    fn step(&mut self, count: u64)
        ensures noted { Notes (Some self.old.told) (Some self.new.told) (noted.Step count) }
        ensures told { Notes (N.noted self.old.inner) (N.noted self.new.inner) (noted.Step count) }
        ensures records { Records self.old.cause self.new.cause (K.took self.old.out)
            (K.took self.new.out) [] }
    {
        let item = Noted::Step(count);
        self.told = self.told.and(&item);
        pass_on(item, &mut self.inner);
    }

    #[tactic(auto, using(crate::proofs::RecordLaws::notes_and, crate::proofs::RecordLaws::records_then, crate::proofs::RecordLaws::recorded_epoch))]
    fn epoch(&mut self, number: u32, began: u64, journal: Journal<Step>)
        ensures noted { Notes (Some self.old.told) (Some self.new.told)
            (noted.Epoch number began journal) }
        ensures told { Notes (N.noted self.old.inner) (N.noted self.new.inner)
            (noted.Epoch number began journal) }
        ensures records { Records self.old.cause self.new.cause (K.took self.old.out)
            (K.took self.new.out) (steps_text journal.items ++ epoch_text number began) }
    {
        write_steps(
            self.alloc,
            &journal,
            &mut self.out,
            &mut self.cause,
            self.over,
        );
        write_end(
            self.alloc,
            number,
            began,
            &mut self.out,
            &mut self.cause,
            self.over,
        );
        let item = Noted::Epoch(number, began, journal);
        self.told = self.told.and(&item);
        pass_on(item, &mut self.inner);
    }

    #[tactic(auto, using(crate::proofs::RecordLaws::notes_and, crate::proofs::RecordLaws::records_none, crate::proofs::RecordLaws::recorded_list))]
    fn list(&mut self, listing: Listing)
        ensures noted { Notes (Some self.old.told) (Some self.new.told) (noted.List listing) }
        ensures told { Notes (N.noted self.old.inner) (N.noted self.new.inner)
            (noted.List listing) }
        ensures records { Records self.old.cause self.new.cause (K.took self.old.out)
            (K.took self.new.out) [] }
    {
        let item = Noted::List(listing);
        self.told = self.told.and(&item);
        pass_on(item, &mut self.inner);
    }

    #[tactic(auto, using(crate::proofs::RecordLaws::notes_and, crate::proofs::RecordLaws::recorded_part))]
    fn part(&mut self, journal: Journal<Step>)
        ensures noted { Notes (Some self.old.told) (Some self.new.told) (noted.Part journal) }
        ensures told { Notes (N.noted self.old.inner) (N.noted self.new.inner)
            (noted.Part journal) }
        ensures records { Records self.old.cause self.new.cause (K.took self.old.out)
            (K.took self.new.out) (steps_text journal.items) }
    {
        write_steps(
            self.alloc,
            &journal,
            &mut self.out,
            &mut self.cause,
            self.over,
        );
        let item = Noted::Part(journal);
        self.told = self.told.and(&item);
        pass_on(item, &mut self.inner);
    }
}
