ghost use Rattle.std.specs.Prelude.{◌≡◌, length};
ghost use Rattle.quit_rules.specs.Plans.{IsOpen, staying, boxed};

use crate::{Open, Rules};
use mailx_vars::Vars;

/// How many messages stay in the folder when it is left. It takes no memory.
pub fn kept(folder: &Open, vars: &Vars) -> u64
    requires { IsOpen folder.now }
    ensures { result ≡ length (staying folder.now vars.now) }
{
    let rules = Rules::of(folder, vars);
    let marks = folder.marks.items();
    let mut count = 0;
    for mark in marks {
        if rules.fate(mark.state).is_staying() {
            count += 1;
        }
    }
    count
}

/// How many messages go to mbox when the folder is left. It takes no memory.
pub fn boxed(folder: &Open, vars: &Vars) -> u64
    requires { IsOpen folder.now }
    ensures { result ≡ length (boxed folder.now vars.now) }
{
    let rules = Rules::of(folder, vars);
    let marks = folder.marks.items();
    let mut count = 0;
    for mark in marks {
        if rules.fate(mark.state).is_boxed() {
            count += 1;
        }
    }
    count
}
