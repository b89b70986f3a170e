// What a load answers, as a line of text.
use files::fault::Fault;
use files::pair::Files;
use files::shown::printable;
use loading::shape::Shape;
use std::alloc::{AllocError, Global};

// A text is shown up to this many bytes.
const SHOWN: usize = 80;

// The bytes as text that can be printed, cut where it is long.
pub fn text_of(heap: Global, bytes: &[u8]) -> Result<String, AllocError> {
    let mut text = String::new(heap);
    for b in bytes.iter().take(SHOWN) {
        text.push(printable(*b))?;
    }
    if bytes.len() > SHOWN {
        text.push_str("..")?;
    }
    Ok(text)
}

// The number of the question; where a line is at fault also the file, the start of the line and the line.
fn refusal(heap: Global, files: Files<'_>, fault: Fault) -> Result<String, AllocError> {
    let number = u8::from(fault);
    let Some((file, start)) = fault.place() else {
        return format!(in heap; "{number}");
    };
    let line = text_of(heap, files.failing_line(&fault))?;
    if line.is_empty() {
        format!(in heap; "{number} {file} {start}")
    } else {
        format!(in heap; "{number} {file} {start} {line}")
    }
}

// What the load answers.
pub fn answer(
    heap: Global,
    files: Files<'_>,
    res: &Result<Shape, Fault>,
) -> Result<String, AllocError> {
    match res {
        Ok(shape) => {
            let states = shape.states();
            let moves = shape.moves();
            format!(in heap; "ok {states} states {moves} moves")
        }
        Err(fault) => refusal(heap, files, *fault),
    }
}
