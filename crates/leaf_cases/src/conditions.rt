// Cases of conditions.
use crate::case::words;
use case_blocks::{Answer, cut};
use mail_text::Text;
use rc_conditionals::{CondError, Conditions, Mode};

/// Each word of the last field in turn, with `;` between one and the next: whether lines are carried out after it and
/// how many conditions are open, or why it is refused.
pub fn put(case: &[Text], out: &mut Answer) {
    let mode = match words(case, 1) {
        "send" => Mode::Send,
        _ => Mode::Receive,
    };
    let terminal = words(case, 2) == "terminal";
    let mut conditions = Conditions::new();
    for line in words(case, 3).split(';') {
        match turned(&mut conditions, line, mode, terminal) {
            Ok(()) => {
                out.put_flag(conditions.live());
                out.put(b" ");
                out.put_shown(&conditions.depth());
            }
            Err(error) => out.put_error(error),
        }
        out.put(b";");
    }
}

// Carries out a line of `if`, `else` or `endif`, cuts to a depth, or goes on with a copy.
fn turned(
    conditions: &mut Conditions,
    line: &str,
    mode: Mode,
    terminal: bool,
) -> Result<(), CondError> {
    let (word, test) = cut(line);
    let test = test.as_bytes();
    match word {
        "if" => conditions.turn(b"if", test, mode, terminal),
        "else" => conditions.turn(b"else", test, mode, terminal),
        "endif" => conditions.turn(b"endif", test, mode, terminal),
        "outermost" => {
            conditions.cut(conditions.depth().min(1));
            Ok(())
        }
        _ => {
            *conditions = conditions.copy();
            Ok(())
        }
    }
}
