// Each law is called once.
use actor_ground::calls_end_so;
use commit_machine::{
    alone_goes, crash_safe, decisions_apply, decisions_are_told, edits_are_changes,
    events_have_rows, front_is_run, no_record_stands, no_refused_is_decided, nothing_after_a_fault,
    nothing_left, only_decisions, recovery_settles, right_is_given_up, row_is_safe, row_moments,
    row_stops, row_stops_between, runs_are_safe, stop_safe, stretches_join, troubled_runs,
    worked_runs,
};
use commit_record::a_text_has_one_record;
use folder_change::{
    add_appends, applied_in_order, each_file_alone, front_prepends, others_stay,
    rewrite_by_the_base, rewrite_keeps_the_rest,
};
use sender_port::names_are_plain;

fn machine() {
    crash_safe();
    front_is_run();
    stop_safe();
    stretches_join();
    only_decisions();
    decisions_apply();
    decisions_are_told();
    edits_are_changes();
    nothing_left();
    no_record_stands();
    recovery_settles();
    right_is_given_up();
    nothing_after_a_fault();
    no_refused_is_decided();
    alone_goes();
    worked_runs();
    runs_are_safe();
    events_have_rows();
    troubled_runs();
    row_is_safe();
    row_moments();
    row_stops();
    row_stops_between();
}

pub fn call() {
    machine();
    calls_end_so();
    a_text_has_one_record();
    add_appends();
    front_prepends();
    rewrite_keeps_the_rest();
    rewrite_by_the_base();
    applied_in_order();
    each_file_alone();
    others_stay();
    names_are_plain();
}
