//! Cases as text: blocks that stand apart by an empty line, the host in memory that a block describes, and what became
//! of it.
//!
//! Each line of a block says one thing. In it `\n`, `\t` and `\\` stand for a line feed, a tab and a backslash, `\xNN`
//! for the byte of two hexadecimal digits, and `\e` for nothing. `\*N;` repeats what stands before it, back to the last
//! such mark, so that it is there N times; right after such a mark it repeats what that one made. `\+N;` puts its number
//! after each of them too: `a\+3;` is `a1a2a3`. The bytes of a file or of the input stand below their line: each line
//! `|TEXT` is TEXT with a line feed, and each line `:TEXT` is TEXT without one. A line that begins with `#` says nothing.
//!
//! | Line | Meaning |
//! |---|---|
//! | `always` | the block holds for the cases that follow; what they say themselves goes before it |
//! | `case TITLE` | the block is a case |
//! | `bare` | for this case the block `always` doesn't hold |
//! | `want` | the lines below it, to the end of the block, are what the case tells |
//! | `file NAME` | a file, whose bytes stand below |
//! | `holds NAME TEXT` | a file with these bytes |
//! | `lock NAME TOKEN` | a lock |
//! | `input` | the input, whose bytes stand below |
//! | `pieces N` | the most bytes that the host gives of the input at once; without it 3 |
//! | `now SECONDS` | the time, in seconds since 1970; without it 0 |
//! | `child STATUS TEXT` | the status and the output of a child; the first line is the first child's that runs |
//! | `edit STATUS TEXT` | the status of an editor and the text that it leaves, in the same way |
//! | `fails N PART` | the call of this number fails, and leaves `before`, `after`, `nothing` or `bytes TEXT` |
//! | `other N write NAME TEXT` | what another does before the call of this number |
//! | `other N remove NAME`, `seize NAME`, `release NAME` | the same |
//! | `other N lock NAME TOKEN`, `unlock NAME TOKEN` | the same |
#![tactic(auto)]

mod answer;
mod block;
mod cuts;
mod disks;
mod escape;
mod planned;
mod run_lines;
mod shown;

pub use answer::Answer;
pub use block::{Case, Tells, cut, is_case, is_plain, number, text_under, told, value};
pub use cuts::{Cut, count_cuts, cut_at};
pub use disks::view;
pub use escape::push_decoded;
pub use planned::{failing, host, part};
pub use run_lines::{pairs_of, put_unknown, words_of};
pub use shown::{put_changes, put_disk};
