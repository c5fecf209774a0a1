// Cases of search criteria.
use crate::case::{field, words};
use case_blocks::Answer;
use mail_dates::Moment;
use mail_search::{Criterion, Facts, SearchError, matches, read_criterion};
use mail_text::Text;
use message_state::row_of;

pub fn put(case: &[Text], out: &mut Answer) {
    match read_criterion(out.alloc(), field(case, 2)) {
        Ok(criterion) => {
            put_of(&criterion, case, out);
            drop(criterion);
        }
        Err(SearchError::Syntax) => out.put(b"none"),
        Err(SearchError::Memory) => out.lack(),
    }
}

fn put_of(criterion: &Criterion, case: &[Text], out: &mut Answer) {
    match words(case, 1) {
        "read" => out.put(b"one"),
        "match" => put_match(criterion, case, out),
        _ => out.put_bad(),
    }
}

// Whether a message meets the criterion: its facts by their first letters, and its text.
fn put_match(criterion: &Criterion, case: &[Text], out: &mut Answer) {
    let text = field(case, 4);
    let Ok(row) = row_of(out.alloc(), text) else {
        return out.lack();
    };
    let facts = facts_of(words(case, 3), row.moment);
    drop(row);
    match matches(out.alloc(), criterion, text, &facts) {
        Ok(held) => out.put_flag(held),
        Err(_) => out.lack(),
    }
}

fn facts_of(letters: &str, moment: Option<Moment>) -> Facts {
    Facts {
        seen: letters.contains('s'),
        deleted: letters.contains('d'),
        answered: letters.contains('a'),
        flagged: letters.contains('f'),
        draft: letters.contains('r'),
        moment,
    }
}
