// The words of the command line.
use mail_text::{Memory, Text};
use std::alloc::Global;
use std::env::FillError;
use std::rt::Env;

/// The room for a word.
const ROOM: usize = 4096;

/// One more than the words that are understood, and the program's name.
const MOST: usize = 5;

/// The words of the command line, the program's own name left out; of many the first four. A word that is too long
/// counts as an empty one, and neither is understood.
pub fn words<E: Env>(env: &E, alloc: Global) -> Result<Vec<Text>, Memory> {
    let mut words = Vec::new(alloc);
    let mut buf = vec![in alloc; 0u8; ROOM]?;
    for k in 1..MOST {
        match env.arg(k, &mut buf) {
            Ok(n) => words.push(Text::copy(alloc, &buf[..n])?)?,
            Err(FillError::TooLong) => words.push(Text::new(alloc))?,
            Err(FillError::NotPresent) => break,
        }
    }
    Ok(words)
}
