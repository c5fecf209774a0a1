// What a fill of a host in memory takes of its input.
ghost use Rattle.std.specs.Prelude.{◌≡◌, ◌≤◌, true, false, IfOk, IfSome, min, take, drop, length, is_some, is_none};
ghost use Rattle.host_memory.specs.Fills.{count_of};
ghost use Rattle.host_memory.specs.Plans.{TapeAdds};
ghost use Rattle.host_memory.specs.Views.{steps_before, part_at};
ghost use Rattle.host_port.specs.declared.event.Event.TheVariants as event;

use crate::Plan;
use crate::calls::{failing, tell_in};
use crate::tape::Tape;
use mail_text::Memory;
use std::alloc::Global;

// Copies the next bytes of an input, for which a buffer and a chunk have room, and says how many and what place follows.
fn give(input: &[u8], at: usize, chunk: usize, buf: &mut [u8]) -> (usize, usize)
    ensures bound { result.0 ≤ length buf.old }
    ensures given { take result.0 buf.new ≡ take (min (length buf.old) chunk) (drop at input.now) }
    ensures left { drop result.1 input.now ≡ drop result.0 (drop at input.now) }
{
    let from = at.min(input.len());
    let n = (input.len() - from).min(buf.len()).min(chunk);
    buf[..n].copy_from_slice(&input[from..from + n]);
    (n, from + n)
}

/// Tells of a fill what the plan has for it, and says how many bytes it gave and what place follows, or None if it failed.
pub fn tell_fill(
    alloc: Global,
    plan: &Plan,
    call: u64,
    tape: &mut Tape,
    input: &[u8],
    at: usize,
    buf: &mut [u8],
) -> Result<Option<(usize, usize)>, Memory>
    ensures ok { IfOk result
        (λ o. TapeAdds tape.old tape.new (steps_before plan.entry.now.foreign call)
        (event.In (take (count_of o) buf.new) (is_none o))) }
    ensures fails { IfOk result (λ o. is_none o ≡ is_some (part_at plan.entry.now.fails call)) }
    ensures bound { IfOk result (λ o. IfSome o (λ t. t.0 ≤ length buf.old)) }
    ensures given { IfOk result
        (λ o. IfSome o
        (λ t. take t.0 buf.new ≡ take (min (length buf.old) plan.entry.now.chunk) (drop at input.now))) }
    ensures left { IfOk result (λ o. IfSome o (λ t. drop t.1 input.now ≡ drop t.0 (drop at input.now))) }
    ensures start { tape.new.start ≡ tape.old.start }
{
    if failing(plan.fails.items(), call).is_some() {
        tell_in(alloc, plan.foreign.items(), call, tape, b"", true)?;
        return Ok(None);
    }
    let (count, next) = give(input, at, plan.chunk, buf);
    tell_in(
        alloc,
        plan.foreign.items(),
        call,
        tape,
        &buf[..count],
        false,
    )?;
    Ok(Some((count, next)))
}
