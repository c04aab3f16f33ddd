//! The seat of the rounds at the board of the workers.

ghost use Rattle.std.specs.Prelude.{◌≡◌, ◌<◌, true};
ghost use Rattle.sc_board.specs.Boards.{IsOf, jobs_of};
ghost use Rattle.sc_lending.specs.Seated.{IsSeated};

use sc_board::{Board, BoardPass, Job};
use sc_servlets::{Done, Lease};
use sc_value::Discard;
use std::sync::Wait;
use std::thread;

/// What the rounds hold of a board: the pass that posts and collects.
#[derive(Drop)]
pub struct Seat<'a> {
    board: &'a Board,
    pass: BoardPass,
    /// The kind of each lease that is posted is below it.
    kinds: usize,
    /// The number of the lease that was posted last, 0 where none was.
    newest: u64,
    /// How many results had been brought before the last look that found none.
    brought: u64,
    pub ghost seated: { IsSeated board.now pass kinds newest },
}

impl<'a> Seat<'a> {
    /// A seat with the first pass of a board, of which nothing was posted.
    pub fn new(board: &'a Board, pass: BoardPass, kinds: usize) -> Seat<'a>
        requires pass { IsOf board.now pass }
        requires first { (jobs_of pass).first ≡ true }
        requires kinds { (jobs_of pass).kinds ≡ kinds }
        requires last { (jobs_of pass).last ≡ 0 }
    {
        Seat {
            board,
            pass,
            kinds,
            newest: 0,
            brought: 0,
        }
    }

    /// Waits until a worker has begun, for 2 seconds at most.
    pub fn await_workers<R: Wait>(&self, rt: &R) {
        self.board.await_workers(rt);
    }

    /// Posts the turn of a lease. It comes back where no worker has begun, where the board has no
    /// room, and where the board doesn't take such a lease.
    pub fn post<R: Wait>(&mut self, rt: &R, lease: Lease) -> Result<(), Lease> {
        if !self.takes(&lease) {
            return Err(lease);
        }
        let number = lease.number;
        match self.board.post_as(rt, &mut self.pass, Job::Turn(lease)) {
            Ok(()) => {
                self.newest = number;
                Ok(())
            }
            Err(Job::Turn(back)) => Err(back),
            Err(Job::Stop) => unreachable!(),
        }
    }

    /// Whether there is a worker, and the lease is newer than those that were posted.
    fn takes(&self, lease: &Lease) -> bool
        ensures kind { result ≡ true → lease.now.kind < self.now.kinds }
        ensures number { result ≡ true → self.now.newest < lease.now.number }
    {
        self.board.has_worker() && lease.kind < self.kinds && self.newest < lease.number
    }

    /// Collects the oldest result, if there is one.
    pub fn collect<R: Wait>(&mut self, rt: &R) -> Option<Done> {
        let brought = self.board.results_brought();
        let done = self.board.collect_as(rt, &mut self.pass);
        if done.is_none() {
            self.brought = brought;
        }
        done
    }

    /// Waits until a result is brought that wasn't there when it last looked, so many milliseconds
    /// at most.
    pub fn await_result<R: Wait>(&self, rt: &R, millis: u64) {
        self.board.await_result(rt, self.brought, millis);
    }

    /// Ends the work: drops the jobs and the results that are left, and posts a stop for each
    /// worker. The board has room for a job and a result of each.
    pub fn dismiss<R: Wait>(&mut self, rt: &R, workers: usize) {
        self.drop_jobs(rt);
        self.drop_results(rt);
        for _ in 0..workers {
            self.post_stop(rt);
        }
    }

    fn drop_jobs<R: Wait>(&mut self, rt: &R) {
        for _ in rt.forever() {
            match self.board.take_as(rt, &mut self.pass) {
                Some(Job::Turn(lease)) => lease.discard(),
                Some(Job::Stop) => {}
                None => return,
            }
        }
        unreachable!()
    }

    fn drop_results<R: Wait>(&mut self, rt: &R) {
        for _ in rt.forever() {
            match self.collect(rt) {
                Some(done) => done.discard(),
                None => return,
            }
        }
        unreachable!()
    }

    /// Posts a stop. Where there is no room it waits until a worker has taken a job.
    fn post_stop<R: Wait>(&mut self, rt: &R) {
        for _ in rt.forever() {
            if self.board.post_as(rt, &mut self.pass, Job::Stop).is_ok() {
                return;
            }
            thread::yield_now();
        }
        unreachable!()
    }
}

/// Posts the turn of a lease where there is a seat. Else it comes back.
pub fn post_at<R: Wait>(rt: &R, seat: &mut Option<Seat<'_>>, lease: Lease) -> Result<(), Lease> {
    match seat {
        Some(seat) => seat.post(rt, lease),
        None => Err(lease),
    }
}

/// Collects the oldest result where there is a seat.
pub fn collect_at<R: Wait>(rt: &R, seat: &mut Option<Seat<'_>>) -> Option<Done> {
    match seat {
        Some(seat) => seat.collect(rt),
        None => None,
    }
}

/// Waits until a worker has begun where there is a seat, for 2 seconds at most.
pub fn await_at<R: Wait>(rt: &R, seat: &Option<Seat<'_>>) {
    match seat {
        Some(seat) => seat.await_workers(rt),
        None => {}
    }
}

/// Ends the work of so many workers where there is a seat.
pub fn dismiss_at<R: Wait>(rt: &R, seat: &mut Option<Seat<'_>>, workers: usize) {
    match seat {
        Some(seat) => seat.dismiss(rt, workers),
        None => {}
    }
}
