// The words of the command line, and the variables of the environment.
use mail_text::{Memory, Text, read_number};
use std::alloc::Global;
use std::env::FillError;
use std::rt::Env;
use std::time::Duration;

/// The variable that says for how many seconds others are waited for, the most that it may say, and what counts where
/// it says nothing, or something else.
const WAIT: &str = "MAILX_WAIT";

const LONGEST_WAIT: u64 = 3600;

const USUAL_WAIT: u64 = 10;

/// The room that a text is given, and the longest that a system hands over.
const ROOMS: [usize; 2] = [4096, 131_072];

/// Which text is asked for.
#[derive(Clone, Copy)]
enum Ask<'a> {
    Word(usize),
    Variable(&'a str),
}

// A text of the environment, or None if there is none.
fn read<E: Env>(env: &E, alloc: Global, ask: Ask<'_>) -> Result<Option<Text>, Memory> {
    for room in ROOMS {
        let mut buf = vec![in alloc; 0u8; room]?;
        let filled = match ask {
            Ask::Word(k) => env.arg(k, &mut buf),
            Ask::Variable(name) => env.var(name, &mut buf),
        };
        match filled {
            Ok(n) => return Ok(Some(Text::copy(alloc, &buf[..n])?)),
            Err(FillError::NotPresent) => return Ok(None),
            Err(FillError::TooLong) => {}
        }
    }
    Ok(None)
}

/// The words of the command line, the program's own name left out.
pub fn words<E: Env>(env: &E, alloc: Global) -> Result<Vec<Text>, Memory> {
    let mut words = Vec::new(alloc);
    for k in 1..usize::MAX {
        match read(env, alloc, Ask::Word(k))? {
            Some(word) => words.push(word)?,
            None => break,
        }
    }
    Ok(words)
}

/// Those of these variables that are set, each with its value.
pub fn variables<E: Env>(
    env: &E,
    alloc: Global,
    names: &[&str],
) -> Result<Vec<(Text, Text)>, Memory> {
    let mut pairs = Vec::new(alloc);
    for name in names {
        if let Some(value) = read(env, alloc, Ask::Variable(name))? {
            pairs.push((Text::copy(alloc, name.as_bytes())?, value))?;
        }
    }
    Ok(pairs)
}

/// How long others that have a right or a lock are waited for: as many seconds as `MAILX_WAIT` says, up to 3,600; else 10.
pub fn waiting_time<E: Env>(env: &E, alloc: Global) -> Result<Duration, Memory> {
    let said = match read(env, alloc, Ask::Variable(WAIT))? {
        Some(value) => read_number(value.bytes()),
        None => None,
    };
    Ok(Duration::from_secs(match said {
        Some(seconds) if seconds <= LONGEST_WAIT => seconds,
        _ => USUAL_WAIT,
    }))
}
