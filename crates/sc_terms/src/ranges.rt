//! Settings that keep their range.

ghost use Rattle.std.specs.Prelude.{◌≡◌, ◌≤◌, ◌&&◌, true, length, nat_le, is_some, IfSome};
ghost use Rattle.sc_terms.specs.Ranges.{is_expiry, are_few};

use crate::AppEntry;
use sc_value::List;
use std::marker::Model;

/// A number from `LOW` to `HIGH`. A contract sees the number.
#[derive(Clone, Copy)]
pub struct Within<const LOW: u64, const HIGH: u64> {
    number: u64,
}

impl<const LOW: u64, const HIGH: u64> Model for Within<LOW, HIGH> {
    ghost use Rattle.std.specs.Prelude.{ℕ, ◌≤◌};

    ghost Value = { ℕ };

    ghost view = { λ w. w.number };

    ghost invariant = { λ w. (LOW ≤ w.number) × (w.number ≤ HIGH) };

    ghost inverse = { λ n. record { number = n } };
}

impl<const LOW: u64, const HIGH: u64> Within<LOW, HIGH> {
    /// A number that is in the range.
    pub fn of(number: u64) -> Within<LOW, HIGH>
        requires low { LOW ≤ number }
        requires high { number ≤ HIGH }
        ensures { result ≡ number }
    {
        Within { number }
    }

    /// The number, or None where it is out of the range.
    pub fn new(number: u64) -> Option<Within<LOW, HIGH>>
        ensures same { IfSome result (λ w. w ≡ number) }
        ensures exact { is_some result ≡ (nat_le LOW number && nat_le number HIGH) }
    {
        if LOW <= number && number <= HIGH {
            return Some(Within { number });
        }
        None
    }

    /// The number.
    pub fn get(&self) -> u64
        ensures same { result ≡ self.now }
        ensures low { LOW ≤ result }
        ensures high { result ≤ HIGH }
    {
        self.number
    }
}

/// The number of a port, 1 to 65,535. A contract sees the number.
#[derive(Clone, Copy)]
pub struct Port {
    number: u16,
}

impl Model for Port {
    ghost use Rattle.std.specs.Prelude.{ℕ, ◌≤◌};

    ghost Value = { ℕ };

    ghost view = { λ p. p.number };

    ghost invariant = { λ p. 1 ≤ p.number };

    ghost inverse = { λ n. record { number = n } };
}

impl Port {
    /// The port of a number that isn't 0.
    pub fn of(number: u16) -> Port
        requires { 1 ≤ number }
        ensures { result ≡ number }
    {
        Port { number }
    }

    /// The port of this number, or None for 0.
    pub fn new(number: u16) -> Option<Port>
        ensures same { IfSome result (λ p. p ≡ number) }
        ensures exact { is_some result ≡ nat_le 1 number }
    {
        if number >= 1 {
            return Some(Port { number });
        }
        None
    }

    /// The number.
    pub fn get(&self) -> u16
        ensures same { result ≡ self.now }
        ensures low { 1 ≤ result }
    {
        self.number
    }
}

/// After so many minutes a session expires, -1 to 10,080; for -1 and 0 it never does. A contract
/// sees the minutes.
#[derive(Clone, Copy)]
pub struct Expires {
    minutes: i32,
}

impl Model for Expires {
    ghost use Rattle.std.specs.Prelude.{ℤ, ◌≡◌, true};
    ghost use Rattle.sc_terms.specs.Ranges.{is_expiry};

    ghost Value = { ℤ };

    ghost view = { λ e. e.minutes };

    ghost invariant = { λ e. is_expiry e.minutes ≡ true };

    ghost inverse = { λ n. record { minutes = n } };
}

impl Expires {
    /// Minutes that are in the range.
    pub fn of(minutes: i32) -> Expires
        requires { is_expiry minutes ≡ true }
        ensures { result ≡ minutes }
    {
        Expires { minutes }
    }

    /// So many minutes, or None where they are out of the range.
    #[tactic(auto, unfolding(crate::specs::Ranges::is_expiry))]
    pub fn new(minutes: i32) -> Option<Expires>
        ensures same { IfSome result (λ e. e ≡ minutes) }
        ensures exact { is_some result ≡ is_expiry minutes }
    {
        if (-1..=10_080).contains(&minutes) {
            return Some(Expires { minutes });
        }
        None
    }

    /// The minutes.
    pub fn get(&self) -> i32
        ensures same { result ≡ self.now }
        ensures range { is_expiry result ≡ true }
    {
        self.minutes
    }
}

/// The applications of a container, 1 to 64 in order. A contract sees the list.
#[derive(Drop)]
pub struct Apps {
    entries: List<AppEntry>,
}

impl Model for Apps {
    ghost use Rattle.std.specs.Prelude.{List, ◌≡◌, true};
    ghost use Rattle.sc_terms.specs.declared.settings.AppEntry.{AppEntry};
    ghost use Rattle.sc_terms.specs.Ranges.{are_few};

    ghost Value = { List AppEntry };

    ghost view = { λ a. a.entries };

    ghost invariant = { λ a. are_few a.entries ≡ true };
}

impl Apps {
    /// These applications, or None where they aren't 1 to 64.
    #[tactic(auto, unfolding(crate::specs::Ranges::are_few))]
    pub fn new(entries: List<AppEntry>) -> Option<Apps>
        ensures same { IfSome result (λ a. a ≡ entries) }
        ensures exact { is_some result ≡ are_few entries }
    {
        if entries.is_empty() || entries.len() > 64 {
            return None;
        }
        Some(Apps { entries })
    }

    /// The applications in order.
    pub fn as_slice(&self) -> &[AppEntry]
        ensures same { result.now ≡ self.now }
        ensures few { are_few result.now ≡ true }
    {
        self.entries.as_slice()
    }

    /// How many there are, 1 to 64.
    pub fn len(&self) -> usize
        ensures { result ≡ length self.now }
    {
        self.entries.len()
    }
}
