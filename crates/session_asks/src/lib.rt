//! What commands ask of a session: what is printed, committed, read, opened, begun and run.
#![tactic(auto)]

mod asks;
mod beginning;
mod bringing;
mod calling;
mod editing;
mod gathering;
mod greetings;
mod opening;
mod renewing;
mod running;
mod sourcing;
mod switching;
mod viewing;

pub use asks::do_asks;
pub use beginning::{compose, view_as};
pub use greetings::greeting;
pub use opening::{Opening, actor_of, first_state, opening_of, put_folder};
pub use running::by_shell;
