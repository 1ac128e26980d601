//! Replays examples of the exchange as days, and tells for each case whether the answers are those that it expects.
#![tactic(auto)]

mod cases;
mod comparing;
mod corrected;
mod differences;
mod odd_lots;
mod omnibus;
mod plan;
mod retained;
mod running;

use families::{Omnibus, Plan};
use running::run_day;
use std::io;
use std::process::ExitCode;

fn main(rt: HostRuntime) -> io::Result<ExitCode> {
    let mut differed = false;
    for day in [&odd_lots::PLAN, &plan::DAY] {
        differed |= run_day::<Plan>(&rt, day)?;
    }
    for day in [
        &odd_lots::OMNIBUS,
        &omnibus::DAY,
        &corrected::DAY,
        &retained::DAY,
    ] {
        differed |= run_day::<Omnibus>(&rt, day)?;
    }
    if differed {
        return Ok(ExitCode::FAILURE);
    }
    Ok(ExitCode::SUCCESS)
}
