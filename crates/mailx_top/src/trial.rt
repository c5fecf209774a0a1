// The words and the environment of a trial.
ghost use Rattle.std.specs.Prelude.{◌≡◌, IfOk};
ghost use Rattle.mailx_top.specs.Trying.{trial_env, trial_words};

use crate::Environment;
use mail_text::{Items, Memory, Text};
use std::alloc::Global;

// A pair of copies.
fn pair(alloc: Global, first: &[u8], second: &[u8]) -> Result<(Text, Text), Memory>
    ensures { IfOk result (λ pair. pair ≡ (first.now, second.now)) }
{
    let first = Text::copy(alloc, first)?;
    let second = Text::copy(alloc, second)?;
    Ok((first, second))
}

/// The words of a trial.
pub(crate) fn trial_words(alloc: Global) -> Result<Items<Text>, Memory>
    ensures { IfOk result (λ words. words ≡ trial_words) }
{
    let mut words = Items::new(alloc);
    words.push(Text::copy(alloc, b"-N")?)?;
    words.push(Text::copy(alloc, b"-f")?)?;
    words.push(Text::copy(alloc, b"box")?)?;
    Ok(words)
}

/// The environment of a trial.
pub(crate) fn trial_env(alloc: Global) -> Result<Environment, Memory>
    ensures { IfOk result (λ env. env ≡ trial_env) }
{
    let mut pairs = Items::new(alloc);
    pairs.push(pair(alloc, b"HOME", b"/h")?)?;
    pairs.push(pair(alloc, b"LOGNAME", b"u")?)?;
    let folder = Text::new(alloc);
    Ok(Environment {
        pairs,
        folder,
        terminal: false,
        token: 1,
    })
}
