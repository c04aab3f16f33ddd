//! Running the rows of a table.

use crate::bench::{bench_over, told_on};
use crate::orders::Order;
use crate::planned::Planned;
use crate::plans::Plan;
use sc_apps::{Answers, Blocks, Rings};
use sc_value::{NoMemory, Text};
use std::alloc::Global;
use std::process::Abort;
use std::test::Fail;

/// A case: orders on a switch whose servlet has a plan, and the lines that are told then.
#[derive(Clone, Copy)]
pub struct Row {
    pub name: &'static str,
    pub plan: Plan,
    pub script: &'static [Order],
    pub told: &'static [u8],
}

/// The most steps that settings can ask for.
pub const MANY: u64 = 1_000_000;

fn told(alloc: Global, steps: u64, plan: Plan, script: &[Order]) -> Result<Text, NoMemory> {
    let other = Box::new(alloc, Blocks)?;
    let bench = match plan {
        Plan::Answers => bench_over(alloc, steps, Box::new(alloc, Answers)?, other)?,
        Plan::Rings => bench_over(alloc, steps, Box::new(alloc, Rings)?, other)?,
        _ => bench_over(alloc, steps, Box::new(alloc, Planned(plan))?, other)?,
    };
    told_on(bench, script)
}

/// Each row tells what it is to tell, on a switch with this limit of steps.
pub fn hold<R: Abort>(rt: &R, alloc: Global, steps: u64, rows: &[Row]) -> Result<(), Fail> {
    for row in rows {
        let told = told(alloc, steps, row.plan, row.script)?;
        assert!(rt; told.as_bytes() == row.told, "{}: {told}", row.name);
    }
    Ok(())
}
