//! Replays a script of calls on days, and prints each answer.
#![tactic(auto)]

mod making;
mod opening;
mod others;
mod printing;
mod running;
mod shown;

use opening::{before_days, open_day};
use script::Script;
use std::io;
use std::io::Read;

fn main(rt: HostRuntime) -> io::Result<()> {
    let mut text = Vec::new(rt.alloc());
    rt.reader().read_to_end(&mut text)?;
    let mut script = Script::of(text.as_slice());
    let mut next = before_days(&rt, &mut script)?;
    while let Some(opening) = next {
        next = open_day(&rt, &opening, &mut script)?;
    }
    Ok(())
}
