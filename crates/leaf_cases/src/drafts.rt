// Cases of drafts, each at the same moment.
use crate::case::{field, parts, words};
use alias_groups::Own;
use case_blocks::Answer;
use draft_text::{Draft, ReplyHow, answered, flat, flattened, mbox_text, message_text, reply_to};
use mail_dates::Moment;
use mail_text::{Memory, Text};

/// The message of a draft, its text in a mailbox, or the draft without line feeds in its parts; a text without them; the
/// draft that answers a message, and who is answered.
pub fn put(case: &[Text], out: &mut Answer) {
    match words(case, 1) {
        "reply" => put_reply(case, out),
        "answered" => put_answered(field(case, 2), out),
        _ => put_texts(case, out),
    }
}

// To whom an answer goes, by a word.
fn how_of(word: &str) -> ReplyHow {
    if word == "authors" {
        ReplyHow::Authors
    } else {
        ReplyHow::All
    }
}

// The draft that answers a message.
fn put_reply(case: &[Text], out: &mut Answer) {
    let own = Own {
        user: out.copied(field(case, 3)),
        alternates: parts(words(case, 4), ';', out),
    };
    let metoo = words(case, 5) == "metoo";
    match reply_to(
        out.alloc(),
        field(case, 6),
        how_of(words(case, 2)),
        &own,
        metoo,
    ) {
        Ok(draft) => {
            put_parts(&draft, out);
            drop(draft);
        }
        Err(error) => out.put_error(error),
    }
    drop(own);
}

// Who is answered.
fn put_answered(text: &[u8], out: &mut Answer) {
    match answered(out.alloc(), text) {
        Ok(names) => put_list(names.items(), out),
        Err(Memory) => out.lack(),
    }
}

// What is made of a draft.
fn put_texts(case: &[Text], out: &mut Answer) {
    let draft = draft_of(case, out);
    let m = Moment {
        seconds: 1_704_240_000,
        offset: 0,
    };
    match words(case, 1) {
        "message" => out.put_made(message_text(out.alloc(), &draft, m)),
        "mailbox" => out.put_made(mbox_text(out.alloc(), &draft, field(case, 10), m)),
        "flattened" => put_flattened(&draft, out),
        "flat" => out.put_made(flat(out.alloc(), field(case, 2))),
        _ => out.put_bad(),
    }
    drop(draft);
}

// The draft that a case has, its names and ids with `;` between them.
fn draft_of(case: &[Text], out: &mut Answer) -> Draft {
    Draft {
        to: parts(words(case, 2), ';', out),
        cc: parts(words(case, 3), ';', out),
        bcc: parts(words(case, 4), ';', out),
        subject: out.copied(field(case, 5)),
        from: out.copied(field(case, 6)),
        reply: out.copied(field(case, 7)),
        references: parts(words(case, 8), ';', out),
        body: out.copied(field(case, 9)),
    }
}

// The draft with a space for each line feed of its parts but the body.
fn put_flattened(draft: &Draft, out: &mut Answer) {
    match flattened(out.alloc(), draft) {
        Ok(draft) => {
            put_parts(&draft, out);
            drop(draft);
        }
        Err(Memory) => out.lack(),
    }
}

// The parts of a draft with `;` between them, each text between angle brackets.
fn put_parts(draft: &Draft, out: &mut Answer) {
    put_list(draft.to.items(), out);
    put_list(draft.cc.items(), out);
    put_list(draft.bcc.items(), out);
    put_text(&draft.subject, out);
    put_text(&draft.from, out);
    put_text(&draft.reply, out);
    put_list(draft.references.items(), out);
    out.put_in_angles(draft.body.bytes());
}

fn put_text(text: &Text, out: &mut Answer) {
    out.put_in_angles(text.bytes());
    out.put(b";");
}

fn put_list(texts: &[Text], out: &mut Answer) {
    out.put_texts(b"<", texts, b">");
    out.put(b";");
}
