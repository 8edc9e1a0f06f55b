//! Laws of spellings, of steps, of verdicts and of the texts of jobs.
#![tactic(auto)]

mod laws;

pub use laws::{
    admitted_by_rules, canon_is_read, clean_jobs_pass, closings_are_in_order, one_run,
    part_of_a_fleet, pass_is_at_the_end, pinned_job_prints_alike, plain_runs_are_set,
    plain_text_is_read_again, same_for_all, same_items_have_one_plain_text, same_items_run_alike,
    started_rasters_have_places,
};
