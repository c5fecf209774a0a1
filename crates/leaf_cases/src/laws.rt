// The laws of the leaf crates: their conditions can be met.
use alias_groups::{aliases_are_kept, each_name_once, no_walk_is_cut};
use case_blocks::Answer;
use compose_tilde::{
    each_letter_stands_for_one_escape, lines_make_the_body, no_part_but_the_body_holds_a_line_feed,
};
use draft_text::{
    a_draft_can_be_put_into_a_mailbox, a_draft_of_flat_parts_stays, a_sent_draft_reads_back,
    a_stored_draft_reads_back, addresses_are_what_is_read, an_opening_line_reads_back,
    answers_go_to_each_once, each_field_is_found, plain_bodies_are_stored_as_they_are,
};
use mail_addresses::{
    comments_are_balanced, each_value_is_read, one_reading, pieces_are_cut_again,
    pieces_are_the_tokens, quoted_strings_end_at_a_quote, tokens_are_the_value,
};
use mail_dates::{
    Moment, day_has_date, printed_date_reads, printed_dates_are_plain, printed_from_date_reads,
    short_date_is_plain,
};
use mail_headers::{entries_make_the_header, parts_make_the_text};
use mail_text::lines_make_the_text;
use mailx_macros::macros_are_kept;
use mailx_vars::variables_are_kept;
use mbox_scan::{list_of_join, texts_are_proper};
use message_show::all_fields_make_the_text;
use message_state::{
    a_text_has_one_row, acts_by_the_table, comments_are_the_same, each_text_has_a_row,
    stamps_keep_texts_proper, stamps_read_back,
};
use quit_rules::{a_quit_loses_nothing, what_is_unchanged_stays};
use rc_conditionals::conditions_nest;

/// Calls each law.
pub fn put(out: &mut Answer) {
    speak_of_texts();
    speak_of_sessions();
    speak_of_moments();
    speak_of_drafts();
    out.put(b"hold");
}

fn speak_of_texts() {
    lines_make_the_text();
    list_of_join();
    texts_are_proper();
    parts_make_the_text();
    entries_make_the_header();
    one_reading();
    each_value_is_read();
    tokens_are_the_value();
    comments_are_balanced();
    quoted_strings_end_at_a_quote();
    pieces_are_the_tokens();
    pieces_are_cut_again();
}

fn speak_of_sessions() {
    acts_by_the_table();
    stamps_read_back();
    stamps_keep_texts_proper();
    comments_are_the_same();
    a_text_has_one_row();
    each_text_has_a_row();
    mail_search::one_criterion();
    mail_search::criteria_are_found();
    line_words::a_word_names_one_command();
    line_words::lines_are_cut_into_words();
    line_words::words_read_back();
    variables_are_kept();
    conditions_nest();
    macros_are_kept();
    aliases_are_kept();
    each_name_once();
    no_walk_is_cut();
    a_quit_loses_nothing();
    what_is_unchanged_stays();
    all_fields_make_the_text();
}

fn speak_of_drafts() {
    a_draft_can_be_put_into_a_mailbox();
    a_stored_draft_reads_back();
    an_opening_line_reads_back();
    a_sent_draft_reads_back();
    each_field_is_found();
    plain_bodies_are_stored_as_they_are();
    a_draft_of_flat_parts_stays();
    addresses_are_what_is_read();
    answers_go_to_each_once();
    each_letter_stands_for_one_escape();
    lines_make_the_body();
    no_part_but_the_body_holds_a_line_feed();
}

fn speak_of_moments() {
    let m = Moment {
        seconds: 1_709_626_500,
        offset: 3600,
    };
    printed_date_reads(m);
    printed_dates_are_plain(m);
    short_date_is_plain(m);
    printed_from_date_reads(b"a@x", m);
    day_has_date(19_787);
}
