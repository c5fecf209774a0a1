ghost use Rattle.play_likeness.specs.Jobs.{JobsAreAlike};
ghost use Rattle.play_likeness.specs.Plays.{PlaysAreAlike};

use message_state::a_text_has_one_row;
use thread_view::views_are_alike;

/// The own events of one job from one disk, told one time, are the same, with the same end, if each load told what
/// stood, and the job ended neither by a failed call nor for want of memory.
pub fn jobs_are_alike()
    ensures { JobsAreAlike }
{}

/// A play that takes no line of the input, and comes to its end, prints the same and leaves the same disk whenever it is
/// carried out on one disk, with the same answers of children, of editors and of the clock.
pub fn plays_are_alike()
    ensures { PlaysAreAlike }
{
    a_text_has_one_row();
    views_are_alike();
}
