//! What a user may count on in the libraries, in words that aren't the code's: laws alone.
#![tactic(auto)]

mod laws;

pub use laws::{
    answers_go_to_whom_they_are_meant_for, bad_arguments_are_refused,
    good_pieces_are_cut_before_bad_ones, kept_fields_are_shown, names_stand_for_whom_they_reach,
    options_ask_for_one_mode, summaries_are_lines,
};
