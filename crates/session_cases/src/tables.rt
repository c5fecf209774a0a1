// Cases: a run, or the tables of what becomes of it.
use crate::committing::Commits;
use crate::run::put_case;
use crate::running::Runs;
use case_blocks::{Answer, Case, Tells, is_case, value};
use stop_tables::{
    Script, put_faults, put_faulty_recoveries, put_others, put_stops, put_told, read_script,
};

fn put_tables(script: Script<'_>, out: &mut Answer) {
    if value(script.case, "commit").is_some() {
        return put_told(&Commits, script, out);
    }
    if value(script.case, "step ").is_some() {
        return put_others(&Runs, script, out);
    }
    put_stops(&Runs, script, out);
    put_faults(&Runs, script, out);
    put_faulty_recoveries(&Runs, script, out);
}

/// The cases.
pub struct Cases;

impl Tells for Cases {
    fn tell(&self, case: Case<'_>, out: &mut Answer) {
        if value(case, "tables").is_none() {
            return put_case(case, out);
        }
        if is_case(case) {
            put_tables(read_script(case), out);
        }
    }
}
