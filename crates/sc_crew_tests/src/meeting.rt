//! A servlet whose turns wait for one another.

ghost use Rattle.sc_terms.specs.declared.charters.Charter.{Charter};

use sc_apps::Answers;
use sc_servlets::SipServlet;
use sc_terms::{Charter, End, Event};
use sc_turn::Turn;
use std::sync::Arc;
use std::sync::atomic::{AtomicU64, Ordering};
use std::thread;

/// Answers as `Answers` does, once two turns are there at the same time. A turn that waits in vain
/// adds one to the word a second time.
#[derive(Drop)]
pub struct Meeting {
    pub word: Arc<AtomicU64>,
}

impl SipServlet for Meeting {
    ghost stated = { λ _. Charter.Answer };

    fn charter(&self) -> Charter {
        Charter::Answer
    }

    fn turn(&self, t: &mut Turn, e: &Event) -> End {
        if !meets(&self.word) {
            self.word.fetch_add(1, Ordering::SeqCst);
        }
        Answers.turn(t, e)
    }
}

// Whether another turn comes, which may take a million looks.
fn meets(word: &AtomicU64) -> bool {
    word.fetch_add(1, Ordering::SeqCst);
    for _ in 0..1_000_000 {
        if word.load(Ordering::SeqCst) == 2 {
            return true;
        }
        thread::yield_now();
    }
    false
}
