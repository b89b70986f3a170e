// Systems built on systems: every fact of the example beside itself and behind a sheet, and the limits of both.
#![tactic(auto)]

use std::io;

mod example;
mod limits;
mod told;

fn main(rt: HostRuntime) -> io::Result<()> {
    example::run(&rt)?;
    limits::run(&rt)
}
