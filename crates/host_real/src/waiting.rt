// Waiting for others, by the monotonic clock.
use crate::reasons::{Speaker, tell_words, time_words};
use std::alloc::{AllocError, Global};
use std::fs::Files;
use std::io::Eprint;
use std::os::unix::fs::MetadataExt;
use std::time::{Clock, Duration};

/// The first pause between two tries, in microseconds.
const FIRST_PAUSE: u64 = 40_000;

/// How long others are waited for: when the waiting began and when it ends, and the shortest pause, in microseconds.
#[derive(Clone, Copy)]
pub struct Patience {
    times: Option<(Duration, Duration)>,
    shortest: u64,
}

impl Patience {
    /// Patience for a time, which begins now.
    pub fn new<C: Clock>(clock: &C, wait: Duration, shortest: u64) -> Patience {
        let times = match clock.monotonic() {
            Ok(now) => now.checked_add(wait).map(|end| (now, end)),
            Err(_) => None,
        };
        Patience { times, shortest }
    }

    /// Waits a while. False if the time is over, or can't be told.
    pub fn again<C: Clock>(&self, clock: &C) -> bool {
        let (Some((begin, end)), Ok(now)) = (self.times, clock.monotonic()) else {
            return false;
        };
        if now >= end {
            return false;
        }
        let pause = pause_after(now.saturating_sub(begin), self.shortest);
        clock.sleep(pause.min(end.saturating_sub(now)));
        true
    }

    // How long the waiting lasts already, and how long it lasts still.
    fn spans<C: Clock>(&self, clock: &C) -> Option<(Duration, Duration)> {
        match (self.times, clock.monotonic()) {
            (Some((begin, end)), Ok(now)) => Some((
                now.saturating_sub(begin),
                end.saturating_sub(now),
            )),
            _ => None,
        }
    }
}

/// How long others that have a right or a lock are waited for, and which program says so.
#[derive(Clone, Copy)]
pub struct Waits {
    pub span: Duration,
    pub speaker: Speaker,
}

/// Waiting for a lock that another has. After a second that is said, once.
#[derive(Drop)]
pub struct LockWait<'a> {
    patience: Patience,
    lock: &'a str,
    speaker: Speaker,
    is_told: bool,
}

impl<'a> LockWait<'a> {
    pub fn new<C: Clock>(clock: &C, lock: &'a str, waits: Waits, shortest: u64) -> LockWait<'a> {
        LockWait {
            patience: Patience::new(clock, waits.span, shortest),
            lock,
            speaker: waits.speaker,
            is_told: false,
        }
    }

    /// Waits a while. False if the time is over, or can't be told.
    pub fn again<R: Clock + Files + Eprint>(&mut self, rt: &R, alloc: Global) -> bool {
        if !self.is_told
            && let Some((waited, left)) = self.patience.spans(rt)
            && waited.as_secs() >= 1
            && !left.is_zero()
        {
            self.is_told = true;
            tell_wait(rt, alloc, self.speaker, self.lock, left);
        }
        self.patience.again(rt)
    }
}

// How many seconds ago a lock was made, or None if none stands there.
fn age_of<R: Clock + Files>(rt: &R, lock: &str) -> Option<u64> {
    match (rt.symlink_metadata(lock), rt.since_1970()) {
        (Ok(found), Ok(now)) => Some(
            now.as_secs()
                .saturating_sub(u64::try_from(found.mtime()).unwrap_or(0)),
        ),
        _ => None,
    }
}

fn wait_words(alloc: Global, age: u64, left: Duration) -> Result<String, AllocError> {
    let age = time_words(alloc, age)?;
    let left = time_words(alloc, left.as_secs().saturating_add(1))?;
    format!(in alloc; "another program has it for {age}; waiting {left} more")
}

// Says what is waited for: the lock, how old it is, and how long it is still waited for.
fn tell_wait<R: Clock + Files + Eprint>(
    rt: &R,
    alloc: Global,
    speaker: Speaker,
    lock: &str,
    left: Duration,
) {
    if let Some(age) = age_of(rt, lock)
        && let Ok(words) = wait_words(alloc, age, left)
    {
        tell_words(rt, alloc, speaker, lock.as_bytes(), words.as_str());
    }
}

// The pause of whoever has waited so long: half of the first one after half a second, a fifth after a second, and so
// on, so that whoever came first is seldom passed by those who came later.
fn pause_after(waited: Duration, shortest: u64) -> Duration {
    let millis = waited
        .as_secs()
        .saturating_mul(1000)
        .saturating_add(u64::from(waited.subsec_millis()));
    let slowed = (millis.saturating_mul(millis) / 250_000).saturating_add(1);
    let pause = FIRST_PAUSE.checked_div(slowed).unwrap_or(shortest);
    Duration::from_micros(pause.max(shortest))
}
