// Loads many small and large texts and prints what comes of each.
#![tactic(auto)]

use std::io;

mod altered;
mod answers;
mod bench;
mod damaged;
mod facts;
mod growing;
mod kept;
mod limits;
mod pairs;
mod texts;
mod worked;

fn main(rt: HostRuntime) -> io::Result<()> {
    damaged::run(&rt)?;
    pairs::run(&rt)?;
    growing::run(&rt)?;
    kept::run(&rt)?;
    altered::run(&rt)?;
    limits::run(&rt)?;
    worked::run(&rt)
}
