//! The words of the command line.

use io_edges::Word;
use line_engine::Status;
use std::rt::Env;
use std::{env, io};

/// The words of the command line behind the program's name. BadWords: one of them is no text, and so none that the program knows.
/// NoMemory: there was none for the words.
pub fn words<R: Env + AllocGlobal>(rt: &R) -> Result<Vec<Word>, Status> {
    let arguments = match env::args(rt) {
        Ok(arguments) => arguments,
        Err(error) if error.kind() == io::ErrorKind::OutOfMemory => return Err(Status::NoMemory),
        Err(_) => return Err(Status::BadWords),
    };
    let mut words = Vec::new(rt.alloc());
    for argument in arguments.skip(1) {
        if words.push(Word::of(argument)).is_err() {
            return Err(Status::NoMemory);
        }
    }
    Ok(words)
}
