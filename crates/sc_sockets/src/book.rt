//! What an edge tells of its connections: which are read, which fail, and the counts.

ghost use Rattle.std.specs.Prelude.{◌≡◌, ◌≤◌, ◌⊎◌, true, false, filter, option_copied};
ghost use Rattle.std.specs.List.{find, position};
ghost use Rattle.sc_value.specs.Lists.{change_first};
ghost use Rattle.sc_edge.specs.Faults.{Rose, one_more};
ghost use Rattle.sc_sockets.specs.Lines.{after, after_accept, after_opening, after_service, is_barred_at, is_cut_at, is_heard, is_of, is_other, known_at_first, last_after, line_at, lines_with, place_after_close, place_after_end, place_after_failure, standing};

use crate::counts::counted;
use crate::line::{self, Change, Line, Standing, fresh, is_back};
use sc_value::{Place, same_place};
use std::alloc::Global;
use std::marker::Model;

// So many lines are kept before an address that isn't among them is refused. Few are: beside what
// is connected only addresses that took a part of a piece when their connection was lost.
const MOST_LINES: usize = 16_384;

// The connections that something is known of, and the counts.
#[derive(Drop)]
pub(crate) struct Book {
    lines: Vec<Line>,
    last: u64,
    polls: u64,
    faults: u64,
    failures: u64,
}

impl Model for Book {
    ghost use Rattle.sc_sockets.specs.Lines.{Known};

    ghost Value = { Known };

    ghost view = { λ s.
        record {
          lines = s.lines.items;
          last = s.last;
          polls = s.polls;
          faults = s.faults;
          failures = s.failures;
        } };
}

#[tactic(auto, unfolding(crate::specs::Lines::is_other))]
fn is_other(place: Place, line: &Line) -> bool
    ensures { result ≡ is_other place line.now }
{
    !same_place(line.place, place)
}

fn position(lines: &[Line], place: Place) -> Option<usize>
    ensures { result ≡ position (is_of place) lines.now }
{
    lines.iter().position(|line| same_place(line.place, place))
}

// Changes the line of a place.
#[tactic(auto, using(sc_value::proofs::ListFacts::change_first_position, sc_value::proofs::ListFacts::change_first_none))]
fn change(lines: &mut [Line], place: Place, change: Change)
    ensures { lines.new ≡ change_first (is_of place) (after change) lines.old }
{
    if let Some(at) = position(lines, place) {
        lines[at].become_of(change);
    }
}

// Forgets the line of a place.
fn forget(lines: &mut Vec<Line>, place: Place)
    ensures { lines.new.items ≡ filter (is_other place) lines.old.items }
{
    lines.retain(|line| is_other(place, line));
}

// Changes the line of a place, or forgets it.
#[tactic(auto, unfolding(crate::specs::Lines::lines_with))]
fn settle(lines: &mut Vec<Line>, is_kept: bool, how: Change, place: Place)
    ensures { lines.new.items ≡ lines_with is_kept how place lines.old.items }
{
    if is_kept {
        change(lines, place, how);
    } else {
        forget(lines, place);
    }
}

fn find(lines: &[Line], place: Place) -> Option<&Line>
    ensures { option_copied result ≡ find (is_of place) lines.now }
{
    lines.iter().find(|line| same_place(line.place, place))
}

impl Book {
    // An empty book.
    pub(crate) fn new(alloc: Global) -> Book
        ensures { result ≡ known_at_first }
    {
        Book {
            lines: Vec::new(alloc),
            last: 0,
            polls: 0,
            faults: 0,
            failures: 0,
        }
    }

    fn line_at(&self, place: Place) -> Option<&Line>
        ensures { option_copied result ≡ line_at self.now place }
    {
        find(self.lines.as_slice(), place)
    }

    // What a put meets at a place.
    pub(crate) fn standing(&self, place: Place) -> Standing
        ensures { result ≡ standing self.now place }
    {
        if !line::is_given(self.last, place) {
            return Standing::Unborn;
        }
        match self.line_at(place) {
            Some(line) => line.standing(place),
            None if is_back(place) => Standing::Gone,
            None => Standing::Closed,
        }
    }

    // Whether a place is read.
    pub(crate) fn is_heard(&self, place: Place) -> bool
        ensures { result ≡ is_heard self.now place }
    {
        match self.line_at(place) {
            Some(line) => line::is_given(self.last, place) && line.is_read,
            None => false,
        }
    }

    // Whether something is still to be known of an address.
    fn is_cut(&self, place: Place) -> bool
        ensures { result ≡ is_cut_at (line_at self.now place) }
    {
        match self.line_at(place) {
            Some(line) => line.is_cut,
            None => false,
        }
    }

    fn is_barred(&self, place: Place) -> bool
        ensures { result ≡ is_barred_at place (line_at self.now place) }
    {
        match self.line_at(place) {
            Some(line) => line.is_barred,
            None => is_back(place),
        }
    }
}

impl Book {
    pub(crate) fn count_poll(&mut self)
        ensures { self.new ≡ record self.old { polls = one_more self.old.polls } }
    {
        self.polls = counted(self.polls);
    }

    // Counts a fault of the listener.
    pub(crate) fn count_fault(&mut self)
        ensures after { self.new ≡ record self.old { faults = one_more self.old.faults } }
        ensures later { self.old.faults ≤ self.new.faults }
        ensures rose { Rose self.old.faults self.new.faults }
    {
        self.faults = counted(self.faults);
    }

    // Gives the next number to a peer's connection; `None` where there is no memory for it.
    pub(crate) fn accept(&mut self) -> Option<u64>
        ensures { (self.new ≡ self.old) ⊎ (self.new ≡ after_accept self.old) }
    {
        let number = self.last.checked_add(1)?;
        self.lines.push(fresh(Place::Back(number))).ok()?;
        self.last = number;
        Some(number)
    }

    // A place gives nothing more. An address is connected no more.
    #[tactic(auto, unfolding(crate::specs::Lines::place_after_end))]
    pub(crate) fn end(&mut self, place: Place)
        ensures after { self.new ≡ place_after_end place self.old }
        ensures counts { self.new.failures ≡ self.old.failures }
    {
        let is_kept = is_back(place) || self.is_cut(place);
        settle(&mut self.lines, is_kept, Change::Halted, place);
    }

    // The connection with a place failed.
    #[tactic(auto, unfolding(crate::specs::Lines::place_after_failure))]
    pub(crate) fn fail(&mut self, place: Place)
        ensures after { self.new ≡ place_after_failure place self.old }
        ensures later { self.old.failures ≤ self.new.failures }
        ensures rose { Rose self.old.failures self.new.failures }
    {
        let is_kept = !is_back(place) && self.is_cut(place);
        settle(&mut self.lines, is_kept, Change::Pardoned, place);
        self.failures = counted(self.failures);
    }

    // The connection with a place was closed.
    #[tactic(auto, unfolding(crate::specs::Lines::place_after_close))]
    pub(crate) fn shut(&mut self, place: Place)
        ensures { self.new ≡ place_after_close place self.old }
    {
        let is_kept = !is_back(place) && (self.is_cut(place) || self.is_barred(place));
        settle(&mut self.lines, is_kept, Change::Halted, place);
        self.last = last_after(self.last, place);
    }

    // An address was connected; `false` where there is no memory for it, or too much is kept.
    #[tactic(auto, unfolding(crate::specs::Lines::after_opening))]
    pub(crate) fn open(&mut self, place: Place) -> bool
        ensures open { result ≡ true → self.new ≡ after_opening place self.old }
        ensures shut { result ≡ false → self.new ≡ self.old }
        ensures counts { self.new.failures ≡ self.old.failures }
    {
        match self.line_at(place) {
            Some(_) => {
                settle(&mut self.lines, true, Change::Reopened, place);
                true
            }
            None => self.lines.len() < MOST_LINES && self.lines.push(fresh(place)).is_ok(),
        }
    }

    // A place took so many bytes of a piece of this length.
    #[tactic(auto, unfolding(crate::specs::Lines::after_service))]
    pub(crate) fn serve(&mut self, place: Place, count: usize, len: usize)
        ensures after { self.new ≡ after_service place count len self.old }
        ensures counts { self.new.failures ≡ self.old.failures }
    {
        if !is_back(place) {
            settle(&mut self.lines, true, Change::Part(count, len), place);
        }
    }
}

// The number that was given last, where that of the place is given.
fn last_after(last: u64, place: Place) -> u64
    ensures { result ≡ last_after last place }
{
    match place {
        Place::Back(number) => last.max(number),
        Place::To(_, _) => last,
    }
}
