ghost use Rattle.std.specs.Prelude.{◌≡◌, true};
ghost use Rattle.std.specs.Arc.{arc_value};
ghost use Rattle.sc_desk.specs.Desks.{IsOf, view_of};

use crate::{Console, console};
use sc_desk::{Desk, DeskPass};
use sc_value::{NoMemory, Text};
use sc_watch::Reading;
use std::alloc::Global;
use std::sync::{Arc, Wait};

/// Who works with a server while it runs: it reads what lives, and posts orders at a desk.
#[derive(Drop)]
pub struct Operator {
    desk: Arc<Desk, Global>,
    pass: DeskPass,
    reading: Reading,
    pub ghost of: { IsOf (arc_value desk) pass × ((view_of pass).posts ≡ true) },
}

impl Operator {
    /// An operator with a poster's pass of the desk.
    pub fn new(desk: Arc<Desk, Global>, pass: DeskPass, reading: Reading) -> Operator
        requires { IsOf (arc_value desk) pass × ((view_of pass).posts ≡ true) }
    {
        Operator {
            desk,
            pass,
            reading,
        }
    }

    /// Answers a line as [`console`] does.
    ///
    /// # Errors
    ///
    /// `NoMemory` for want of memory. An order may have been posted then.
    pub fn answer<R: Wait>(
        &mut self,
        rt: &R,
        line: &[u8],
        out: &mut Text,
    ) -> Result<Console, NoMemory> {
        console(rt, line, &mut self.reading, &self.desk, &mut self.pass, out)
    }
}
