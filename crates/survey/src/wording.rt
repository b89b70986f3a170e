// A refusal, by its number and in words.
use files::fault::Fault;
use files::pair::Files;
use files::shown::printable;
use std::alloc::{AllocError, Global};
use std::fmt::Write;

// Adds the bytes of a line.
fn push_line(out: &mut String, line: &[u8]) -> Result<(), AllocError> {
    for b in line {
        out.push(printable(*b))?;
    }
    writeln!(out)
}

// The number alone; where a line is at fault, then the file with the byte at which the line starts, and the line itself.
pub(crate) fn numbered(heap: Global, files: Files<'_>, fault: Fault) -> Result<String, AllocError> {
    let number = u8::from(fault);
    let mut out = format!(in heap; "{number}\n")?;
    if let Some((file, start)) = fault.place() {
        writeln!(out, "{file} {start}")?;
        push_line(&mut out, files.failing_line(&fault))?;
    }
    Ok(out)
}

// The number of the line that starts at a byte, counted from 1.
fn line_number(file: &[u8], start: usize) -> usize {
    let ends = file.iter().take(start).filter(|b| **b == b'\n').count();
    ends.saturating_add(1)
}

// The refusal in words.
pub(crate) fn worded(heap: Global, files: Files<'_>, fault: Fault) -> Result<String, AllocError> {
    match fault.place() {
        Some((file, start)) => {
            let number = line_number(files.bytes_of(file), start);
            format!(in heap; "{file}, line {number}: {fault}\n")
        }
        None => format!(in heap; "{fault}\n"),
    }
}
