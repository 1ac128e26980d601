//! Shows what a day asks of its ledger, call by call: over a table, over a table with an index, and over blocks.
#![tactic(auto)]

mod calls;
mod printing;

use blocks::Blocks;
use calls::show_day;
use groups::MOST_GROUPS;
use indexed::Indexed;
use ledger::{Entry, Ledger, Table};
use printing::Printing;
use std::io;

fn main(rt: HostRuntime) -> io::Result<()> {
    println!(&rt; "== a table")?;
    let mut entries = [Entry::default(); 16];
    show_day(&rt, Printing::of(&rt, Table::new(&mut entries)))?;
    println!(&rt; "== a table with an index")?;
    let mut entries = [Entry::default(); 16];
    let printing = Printing::of(&rt, Table::new(&mut entries));
    match Indexed::new(rt.alloc(), printing, MOST_GROUPS) {
        Ok(indexed) => show_day(&rt, indexed)?,
        Err((error, _)) => return Err(error.into()),
    }
    println!(&rt; "== blocks")?;
    let mut bytes = [0u8; 1030];
    show_day(&rt, Printing::of(&rt, Blocks::new(&mut bytes)))
}
