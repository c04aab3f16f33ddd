//! The queue of jobs, its rule, and the steps of its passes.

ghost use Rattle.std.specs.Prelude.{◌≡◌, ℕ, ◌<◌, true, IfOk, IsTrue, MatchOption, MatchResult};
ghost use Rattle.crossbeam_queue.specs.Fifo.{Held};
ghost use Rattle.crossbeam_queue.specs.Passes.{view, IsPassOf, IsSamePass, ruled_capacity};
ghost use Rattle.sc_board.specs.JobRules.{IsAbove, IsJobWhole, JobFits, Took, WasPosted, after_post, first_job_view, joined_job_view, job_view_left, new_job_view, spent_job_view, without};

use crate::Job;
use crossbeam_queue::protocol::{Join, Lesson, Outcome, Protocol, Split};
use crossbeam_queue::{Pass, RuledArrayQueue};
use sc_servlets::Lease;
use std::alloc::{AllocError, Global};
use std::collections::LinkedList;
use std::marker::{Brand, PhantomData};
use std::sync::Wait;

/// What a pass did with jobs. It stands in contracts alone: no value of it is made.
pub struct JobView {
    /// Whether it is the pass that posts.
    pub first: bool,
    /// Its parts: all passes of a board together have 1,024. A pass with no part is spent.
    pub parts: u64,
    /// The kind of each lease is below it.
    pub kinds: u64,
    /// The leases that it posted, in order.
    pub posted: LinkedList<Lease>,
    /// The number of the lease that it posted last, 0 where it posted none.
    pub last: u64,
    /// How many stops it posted.
    pub told: u64,
    /// The leases that it took, in order.
    pub taken: LinkedList<Lease>,
    /// How many stops it took.
    pub stops: u64,
    /// The leases that it took and hasn't brought, the newest first.
    pub hand: LinkedList<Lease>,
}

pub struct JobRule;

impl Protocol<Job, JobView> for JobRule {
    ghost use Rattle.sc_board.specs.JobRules.{JobsKept, first_job_view};

    ghost holds = { JobsKept };

    ghost first = { first_job_view 0 };
}

pub type JobQueue = RuledArrayQueue<Job, JobView, JobRule>;

pub type JobPass = Pass<Job, JobView>;

struct Posts;

impl Outcome<Job, JobView> for Posts {
    ghost use Rattle.sc_board.specs.JobRules.{after_post};

    ghost then = { λ v job w. w ≡ after_post v job };
}

impl Lesson<Job, JobView> for Posts {
    ghost use Rattle.sc_board.specs.JobRules.{WasPosted};

    ghost fact = { WasPosted };
}

struct Takes;

impl Outcome<Job, JobView> for Takes {
    ghost use Rattle.sc_board.specs.JobRules.{Took};

    ghost then = { Took };
}

impl Lesson<Job, JobView> for Takes {
    ghost use Rattle.sc_board.specs.JobRules.{IsJobWhole};

    ghost fact = { IsJobWhole };
}

struct Parts;

impl Split<JobView> for Parts {
    ghost use Rattle.sc_board.specs.JobRules.{job_view_left, new_job_view};

    ghost left = { job_view_left };

    ghost right = { λ v. new_job_view v.kinds };
}

impl Join<JobView> for Parts {
    ghost use Rattle.sc_board.specs.JobRules.{joined_job_view, spent_job_view};

    ghost both = { joined_job_view };

    ghost spent = { spent_job_view };
}

/// A number that a proof picks.
trait Number {
    ghost number: { ℕ };
}

impl Number for Brand {
    ghost number = { 0 };
}

/// The step that sets the bound of the kinds.
struct Bounds<N: Number>(PhantomData<N>);

impl<N: Number> Split<JobView> for Bounds<N> {
    ghost use Rattle.sc_board.specs.JobRules.{first_job_view, spent_job_view};

    ghost left = { λ v. first_job_view N.number };

    ghost right = { λ v. spent_job_view };
}

/// The step that lets a lease out of the hand.
struct LetsGo<N: Number>(PhantomData<N>);

impl<N: Number> Split<JobView> for LetsGo<N> {
    ghost use Rattle.sc_board.specs.JobRules.{spent_job_view, without};

    ghost left = { λ v. record v { hand = without N.number v.hand } };

    ghost right = { λ v. spent_job_view };
}

/// A queue with room for so many jobs, and its first pass.
pub fn new(alloc: Global, room: usize, kinds: usize) -> Result<(JobQueue, JobPass), AllocError>
    requires { 0 < room }
    ensures { IfOk result
        (λ made.
        (ruled_capacity made.0 ≡ room) × IsPassOf made.0 made.1
        × (view made.1 ≡ first_job_view kinds)) }
{
    let (queue, mut pass) = JobQueue::ruled(alloc, room)?;
    bound::<Brand>(&queue, &mut pass, kinds);
    Ok((queue, pass))
}

fn bound<N: Number>(queue: &JobQueue, pass: &mut JobPass, kinds: usize)
    requires pass { IsPassOf queue.now pass.old × (view pass.old ≡ first_job_view 0) }
    requires kinds { kinds ≡ N.number }
    ensures { IsSamePass pass.old pass.new × (view pass.new ≡ first_job_view kinds) }
{
    let _ = kinds;
    let _spent = queue.another::<Bounds<N>>(pass);
}

/// Puts a job at the back. It is handed back only where the queue was full.
pub fn post<R: Wait>(rt: &R, queue: &JobQueue, pass: &mut JobPass, job: Job) -> Result<(), Job>
    requires pass { IsPassOf queue.now pass.old × ((view pass.old).first ≡ true) }
    requires job { JobFits (view pass.old).kinds job × IsAbove (view pass.old).last job }
    ensures pass { IsSamePass pass.old pass.new }
    ensures posted { MatchResult result (λ _. view pass.new ≡ after_post (view pass.old) job)
        (λ back.
        (back ≡ job) × (view pass.new ≡ view pass.old)
        × Held (ruled_capacity queue.now) (WasPosted (view pass.old))) }
{
    queue.push_as::<Posts, R>(rt, pass, job)
}

/// Takes the job at the front, None only where the queue was empty.
pub fn take<R: Wait>(rt: &R, queue: &JobQueue, pass: &mut JobPass) -> Option<Job>
    requires pass { IsPassOf queue.now pass.old × (0 < (view pass.old).parts) }
    ensures pass { IsSamePass pass.old pass.new }
    ensures taken { MatchOption result
        ((view pass.new ≡ view pass.old) × Held 0 (IsJobWhole (view pass.old)))
        (λ job. Took (view pass.old) job (view pass.new)) }
{
    queue.pop_as::<Takes, R>(rt, pass)
}

/// Whether the queue is empty.
pub fn is_empty(queue: &JobQueue, pass: &mut JobPass) -> bool
    requires pass { IsPassOf queue.now pass.old }
    ensures pass { IsSamePass pass.old pass.new × (view pass.new ≡ view pass.old) }
    ensures empty { IsTrue result → Held 0 (IsJobWhole (view pass.old)) }
{
    queue.is_empty_as::<Takes>(pass)
}

/// Lets the newest lease of this number out of the hand.
pub fn let_go(queue: &JobQueue, pass: &mut JobPass, number: u64)
    requires pass { IsPassOf queue.now pass.old × (0 < (view pass.old).parts) }
    ensures pass { IsSamePass pass.old pass.new }
    ensures hand { view pass.new
        ≡ record (view pass.old) { hand = without number (view pass.old).hand } }
{
    let_go_of::<Brand>(queue, pass, number);
}

fn let_go_of<N: Number>(queue: &JobQueue, pass: &mut JobPass, number: u64)
    requires pass { IsPassOf queue.now pass.old × (0 < (view pass.old).parts) }
    requires number { number ≡ N.number }
    ensures pass { IsSamePass pass.old pass.new }
    ensures hand { view pass.new
        ≡ record (view pass.old) { hand = without number (view pass.old).hand } }
{
    let _ = number;
    let _spent = queue.another::<LetsGo<N>>(pass);
}

/// Gives one part to a new pass.
pub fn split(queue: &JobQueue, pass: &mut JobPass) -> JobPass
    requires pass { IsPassOf queue.now pass.old × (1 < (view pass.old).parts) }
    ensures pass { IsSamePass pass.old pass.new × IsPassOf queue.now result }
    ensures left { view pass.new ≡ job_view_left (view pass.old) }
    ensures right { view result ≡ new_job_view (view pass.old).kinds }
{
    queue.another::<Parts>(pass)
}

/// Ends a pass, and puts what it did to this one.
pub fn join(queue: &JobQueue, pass: &mut JobPass, ended: JobPass)
    requires pass { IsPassOf queue.now pass.old × (0 < (view pass.old).parts) }
    requires ended { IsPassOf queue.now ended × (0 < (view ended).parts) }
    ensures pass { IsSamePass pass.old pass.new }
    ensures both { view pass.new ≡ joined_job_view (view pass.old) (view ended) }
{
    queue.absorb::<Parts>(pass, ended);
}
