//! The steps of the passes of a board.

ghost use Rattle.std.specs.Prelude.{◌≡◌, ◌<◌, ℕ, true, IfOk, IsOkAnd, IsTrue, MatchOption, MatchResult, OnErr, Some, ◌+◌, vec_len};
ghost use Rattle.std.specs.List.{All, sum_by};
ghost use Rattle.sc_servlets.specs.declared.done.Done.{Done};
ghost use Rattle.crossbeam_queue.specs.Fifo.{Held};
ghost use Rattle.sc_board.specs.Boards.{IsNewPass, IsOf, jobs_of, results_of, room_of};
ghost use Rattle.sc_board.specs.JobRules.{IsAbove, IsJobWhole, JobFits, Rises, Took, WasPosted, after_post, first_job_view, in_hand, job_view_left, joined_job_view, new_job_view, without};
ghost use Rattle.sc_board.specs.ResultRules.{IsResultWhole, after_bring, after_collect, first_result_view, joined_result_view, new_result_view, result_view_left};
ghost use Rattle.sc_board.specs.Ties.{IsMadeOf};

use crate::bell::Bell;
use crate::{Board, BoardPass, Job, jobs, results};
use sc_servlets::Done;
use sc_value::NoMemory;
use std::alloc::Global;
use std::sync::Wait;

/// How often a thread looks whether a worker has begun.
const BEGIN_LOOKS: u32 = 20;

/// How long it sleeps after each look, in milliseconds.
const BEGIN_NAP: u64 = 100;

impl Board {
    /// A board with room for so many jobs and as many results, and its first pass: it alone posts
    /// and collects. It has all 1,024 parts. The kind of each lease that is posted is to be below
    /// `kinds`.
    ///
    /// # Errors
    ///
    /// `NoMemory` for want of memory, always at a room of 2^60 or more.
    pub fn new(alloc: Global, room: usize, kinds: usize) -> Result<(Board, BoardPass), NoMemory>
        requires { 0 < room }
        ensures { IfOk result
            (λ made.
            (room_of made.0 ≡ room) × IsOf made.0 made.1 × (jobs_of made.1 ≡ first_job_view kinds)
            × (results_of made.1 ≡ first_result_view)) }
    {
        let (jobs, job_pass) = jobs::new(alloc, room, kinds)?;
        let (results, result_pass) = results::new(alloc, room)?;
        let board = Board {
            jobs,
            results,
            posted: Bell::new(),
            brought: Bell::new(),
            begun: Bell::new(),
        };
        let pass = BoardPass {
            jobs: job_pass,
            results: result_pass,
        };
        Ok((board, pass))
    }

    /// Posts a job, and wakes a worker that sleeps. The pass is the first one. The kind of a lease
    /// is below the board's kinds, and its number is above that of each lease posted before.
    ///
    /// # Errors
    ///
    /// The job comes back only where the queue of jobs was full at that step. Nothing is changed.
    pub fn post_as<R: Wait>(&self, rt: &R, pass: &mut BoardPass, job: Job) -> Result<(), Job>
        requires pass { IsOf self.now pass.old × ((jobs_of pass.old).first ≡ true) }
        requires job { JobFits (jobs_of pass.old).kinds job × IsAbove (jobs_of pass.old).last job }
        ensures pass { IsOf self.now pass.new }
        ensures results { results_of pass.new ≡ results_of pass.old }
        ensures posted { MatchResult result
            (λ _. jobs_of pass.new ≡ after_post (jobs_of pass.old) job)
            (λ back.
            (back ≡ job) × (jobs_of pass.new ≡ jobs_of pass.old)
            × Held (room_of self.now) (WasPosted (jobs_of pass.old))) }
    {
        match jobs::post(rt, &self.jobs, &mut pass.jobs, job) {
            Ok(()) => {
                self.posted.wake_one();
                Ok(())
            }
            Err(back) => Err(back),
        }
    }

    /// Takes the oldest job, None only where the queue of jobs was empty at that step. A lease that
    /// is taken is in hand until its result is brought.
    pub fn take_as<R: Wait>(&self, rt: &R, pass: &mut BoardPass) -> Option<Job>
        requires pass { IsOf self.now pass.old }
        ensures pass { IsOf self.now pass.new }
        ensures results { results_of pass.new ≡ results_of pass.old }
        ensures taken { MatchOption result
            ((jobs_of pass.new ≡ jobs_of pass.old) × Held 0 (IsJobWhole (jobs_of pass.old)))
            (λ job. Took (jobs_of pass.old) job (jobs_of pass.new)) }
    {
        jobs::take(rt, &self.jobs, &mut pass.jobs)
    }

    /// Brings the result of a lease that the pass has in hand, and wakes who sleeps until then.
    ///
    /// # Errors
    ///
    /// The result comes back only where the queue of results was full at that step. Nothing is
    /// changed.
    pub fn bring_as<R: Wait>(&self, rt: &R, pass: &mut BoardPass, done: Done) -> Result<(), Done>
        requires pass { IsOf self.now pass.old }
        requires hand { in_hand done.lease.number (jobs_of pass.old).hand ≡ Some done.lease }
        ensures pass { IsOf self.now pass.new }
        ensures brought { MatchResult result
            (λ _.
            (jobs_of pass.new
            ≡ record (jobs_of pass.old) {
              hand = without done.lease.number (jobs_of pass.old).hand;
            }) × (results_of pass.new ≡ after_bring (results_of pass.old) done))
            (λ back.
            (back ≡ done) × (jobs_of pass.new ≡ jobs_of pass.old)
            × (results_of pass.new ≡ results_of pass.old)
            × Held (room_of self.now) (IsResultWhole (results_of pass.old))) }
    {
        let number = done.lease.number;
        match results::bring(rt, &self.results, &mut pass.results, done) {
            Ok(()) => {
                jobs::let_go(&self.jobs, &mut pass.jobs, number);
                self.brought.wake_one();
                Ok(())
            }
            Err(back) => Err(back),
        }
    }

    /// Collects the oldest result, None only where the queue of results was empty at that step. The
    /// pass is the first one.
    pub fn collect_as<R: Wait>(&self, rt: &R, pass: &mut BoardPass) -> Option<Done>
        requires pass { IsOf self.now pass.old × ((jobs_of pass.old).first ≡ true) }
        ensures pass { IsOf self.now pass.new }
        ensures jobs { jobs_of pass.new ≡ jobs_of pass.old }
        ensures collected { MatchOption result
            ((results_of pass.new ≡ results_of pass.old)
            × Held 0 (IsResultWhole (results_of pass.old)))
            (λ done. results_of pass.new ≡ after_collect (results_of pass.old) done) }
    {
        results::collect(rt, &self.results, &mut pass.results)
    }

    /// A new pass, to which this one gives one of its parts; it has to have more than one.
    ///
    /// # Errors
    ///
    /// None: it takes no memory.
    pub fn split(&self, pass: &mut BoardPass) -> Result<BoardPass, NoMemory>
        requires pass { IsOf self.now pass.old × (1 < (jobs_of pass.old).parts) }
        ensures pass { IsOf self.now pass.new }
        ensures jobs { jobs_of pass.new ≡ job_view_left (jobs_of pass.old) }
        ensures results { results_of pass.new ≡ result_view_left (results_of pass.old) }
        ensures made { IsOkAnd result
            (λ made.
            IsOf self.now made × (jobs_of made ≡ new_job_view (jobs_of pass.old).kinds)
            × (results_of made ≡ new_result_view)) }
    {
        let jobs = jobs::split(&self.jobs, &mut pass.jobs);
        let results = results::split(&self.results, &mut pass.results);
        Ok(BoardPass { jobs, results })
    }

    /// So many new passes, to each of which this one gives one of its parts; it has to have more.
    ///
    /// # Errors
    ///
    /// `NoMemory` for want of memory. No pass is made then.
    pub fn passes(
        &self,
        alloc: Global,
        pass: &mut BoardPass,
        count: usize,
    ) -> Result<Vec<BoardPass>, NoMemory>
        requires pass { IsOf self.now pass.old × (count < (jobs_of pass.old).parts) }
        ensures pass { IsOf self.now pass.new }
        ensures jobs { jobs_of pass.new
            ≡ record (jobs_of pass.old) { parts = (jobs_of pass.new).parts } }
        ensures results { results_of pass.new
            ≡ record (results_of pass.old) { parts = (jobs_of pass.new).parts } }
        ensures parts { IfOk result
            (λ made. (jobs_of pass.new).parts + vec_len made ≡ (jobs_of pass.old).parts) }
        ensures count { IfOk result (λ made. vec_len made ≡ count) }
        ensures made { IfOk result
            (λ made. All (IsNewPass self.now (jobs_of pass.old).kinds) made.items) }
        ensures refused { OnErr result (jobs_of pass.new ≡ jobs_of pass.old) }
    {
        let mut made = Vec::with_capacity(alloc, count)?;
        for _ in 0..count {
            let Ok(new) = self.split(pass) else {
                unreachable!()
            };
            made.push_reserved(new);
        }
        Ok(made)
    }

    /// Ends a pass: this one has its parts from now on, and what it posted, took, brought and
    /// collected.
    pub fn join(&self, pass: &mut BoardPass, ended: BoardPass)
        requires pass { IsOf self.now pass.old }
        requires ended { IsOf self.now ended }
        ensures pass { IsOf self.now pass.new }
        ensures jobs { jobs_of pass.new ≡ joined_job_view (jobs_of pass.old) (jobs_of ended) }
        ensures results { results_of pass.new
            ≡ joined_result_view (results_of pass.old) (results_of ended) }
    {
        let BoardPass { jobs, results } = ended;
        jobs::join(&self.jobs, &mut pass.jobs, jobs);
        results::join(&self.results, &mut pass.results, results);
    }

    /// Whether both queues are empty. The pass has all parts: then each result that was brought was
    /// collected, and each lease that was posted is that of a result that was collected or is in
    /// hand, each once.
    pub fn is_settled(&self, pass: &mut BoardPass) -> bool
        requires pass { IsOf self.now pass.old × ((jobs_of pass.old).parts ≡ 1024) }
        ensures pass { IsOf self.now pass.new × (jobs_of pass.new ≡ jobs_of pass.old)
            × (results_of pass.new ≡ results_of pass.old) }
        ensures results { IsTrue result → (h : Done → ℕ)
            → sum_by h (results_of pass.old).brought ≡ sum_by h (results_of pass.old).collected }
        ensures leases { IsTrue result
            → IsMadeOf (jobs_of pass.old).posted (results_of pass.old).collected
            (jobs_of pass.old).hand × Rises (jobs_of pass.old).posted }
    {
        let no_jobs = jobs::is_empty(&self.jobs, &mut pass.jobs);
        let no_results = results::is_empty(&self.results, &mut pass.results);
        no_jobs && no_results
    }

    /// Whether a worker has begun its work.
    pub fn has_worker(&self) -> bool {
        self.begun.rings() > 0
    }

    /// Waits until a worker has begun its work, for 2 seconds at most.
    pub fn await_workers<R: Wait>(&self, rt: &R) {
        for _ in 0..BEGIN_LOOKS {
            if self.has_worker() {
                return;
            }
            self.begun.sleep(rt, 0, BEGIN_NAP);
        }
    }

    /// How many results were brought.
    pub fn results_brought(&self) -> u64 {
        self.brought.rings()
    }

    /// Sleeps until a result is brought, so many milliseconds at most, and not at all where one was
    /// brought since so many. It may wake for no reason.
    pub fn await_result<R: Wait>(&self, rt: &R, brought: u64, millis: u64) {
        self.brought.sleep(rt, brought, millis);
    }
}
