//! What holds of each actor on a disk: how its calls end, what recovery by it would make of the disk, and whether
//! the disk is sound for it.
#![tactic(auto)]

mod laws;
mod records;
mod settling;
mod soundness;

pub use laws::calls_end_so;
pub use records::{is_go, standing};
pub use settling::{hides, settled, settled_lock};
pub use soundness::is_sound;
