// Reports on the behaviour table in the folder it is run in: `model.aut` and `model.lab`.
#![tactic(auto)]

use files::fault::{Fault, File};
use files::pair::Files;
use loading::shape::load;
use loading::vocabulary::Vocabulary;
use std::process::ExitCode;
use systems::limits::{MAX_MOVES, MAX_STATES};
use systems::transition::Transition;

mod input;
mod report;
mod wording;

// Prints the refusal for a program to read, and in words on standard error.
fn refuse(rt: &HostRuntime, files: Files<'_>, fault: Fault) -> anyhow::Result<ExitCode> {
    let heap = rt.alloc();
    rt.print(wording::numbered(heap, files, fault)?.as_str())?;
    rt.eprint(wording::worded(heap, files, fault)?.as_str())?;
    Ok(ExitCode::FAILURE)
}

fn main(rt: HostRuntime) -> anyhow::Result<ExitCode> {
    let heap = rt.alloc();
    let transitions = input::read_some(&rt, File::Transitions)?;
    let labels = input::read_some(&rt, File::Labels)?;
    let files = Files {
        transitions: &transitions,
        labels: &labels,
    };
    let mut records = vec![in heap; Transition::default(); MAX_MOVES]?;
    let mut sets = vec![in heap; 0; MAX_STATES]?;
    let mut vocabulary = Vocabulary::new();
    match load(files, &mut vocabulary, &mut records, &mut sets) {
        Ok(shape) => {
            let text = report::report(heap, shape, &records, &sets, &vocabulary)?;
            rt.print(text.as_str())?;
            Ok(ExitCode::SUCCESS)
        }
        Err(fault) => refuse(&rt, files, fault),
    }
}
