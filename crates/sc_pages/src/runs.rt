//! Runs of numbers at each of which stands an item that rests.

ghost use Rattle.std.specs.Prelude.{◌≡◌, ℕ, Bool, OnOk};
ghost use Rattle.sc_queue.specs.Joined.{joined};
ghost use Rattle.sc_pages.specs.Runs.{AllHold, AllRest, Holds, past_of, run_of};

use crate::Paged;
use crate::outline::Outline;
use crate::page::Page;
use sc_value::{List, NoMemory};

/// The numbers from one on, up to one that is no more of them.
#[derive(Clone, Copy)]
pub struct Run {
    pub from: u64,
    pub to: u64,
}

// The run of a page of which all items rest and no number is wanting, where all numbers before it
// are lower; else an empty one.
#[tactic(auto, unfolding(crate::specs::Runs::run_of))]
fn run_of(past: u64, outline: Outline) -> Run
    ensures { result ≡ run_of past outline }
{
    let from = u64::from(outline.least);
    if outline.rests && outline.dense && past <= from {
        Run {
            from,
            to: u64::from(outline.most) + 1,
        }
    } else {
        Run { from: 0, to: 0 }
    }
}

// All numbers of the page are below it too.
#[tactic(auto, unfolding(crate::specs::Runs::past_of))]
fn past_of(past: u64, outline: Outline) -> u64
    ensures { result ≡ past_of past outline }
{
    let next = u64::from(outline.most) + 1;
    if past < next { next } else { past }
}

// A run more, in one with the last where they meet.
#[tactic(auto, using(crate::proofs::RunLaws::joint_hold, crate::proofs::RunLaws::more_hold))]
fn put_run(next: Run, run: &mut Run, runs: &mut List<Run>) -> Result<(), NoMemory>
    ensures { OnOk result
        ((test : ℕ → Bool) → AllHold test runs.old → Holds test run.old → Holds test next
        → AllHold test runs.new × Holds test run.new) }
{
    if run.to == next.from {
        run.to = next.to;
        return Ok(());
    }
    runs.push(*run)?;
    *run = next;
    Ok(())
}

/// Puts the runs of these pages at the end of a list.
#[inline(never)]
pub fn add_runs<T: Paged>(pages: &[Page<T>], runs: &mut List<Run>) -> Result<(), NoMemory>
    requires { AllRest T.number T.rests (joined pages.now) runs.old }
    ensures { OnOk result (AllRest T.number T.rests (joined pages.now) runs.new) }
{
    let mut past = 0;
    let mut run = Run { from: 0, to: 0 };
    for page in pages {
        let known = page.outline();
        let next = run_of(past, known);
        put_run(next, &mut run, runs)?;
        past = past_of(past, known);
    }
    runs.push(run)?;
    Ok(())
}
