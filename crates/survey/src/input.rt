// Reads the files.
use files::fault::File;
use std::io::Read;
use std::{fs, io};
use transition_file::reading::FILE_LIMIT;

// The bytes of a file, at most one more than a file may have; none where there is no such file.
pub(crate) fn read_some(rt: &HostRuntime, file: File) -> io::Result<Vec<u8>> {
    let mut bytes = Vec::new(rt.alloc());
    let name = file.to_string(rt.alloc())?;
    match fs::File::open(rt, name.as_str()) {
        Ok(opened) => {
            // A `usize` has no `From` to `u64`, and `try_from` would bring in an error that cannot come.
            let mut part = opened.take(FILE_LIMIT as u64 + 1);
            part.read_to_end(&mut bytes)?;
            Ok(bytes)
        }
        Err(e) if e.kind() == io::ErrorKind::NotFound => Ok(bytes),
        Err(e) => Err(e),
    }
}
