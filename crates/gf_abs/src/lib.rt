//! All that the program does: words, files and a sink of bytes in, a status out.
//! `run` carries the contract of the whole; each command is a file of a crate of its family, and one line of the table `ActionAnswer`.
#![tactic(auto)]

mod headline;
mod program;
mod refusals;
mod top;

pub use answer_tables::written_tables_are_read_back;
pub use headline::{
    abstract_prints_the_output, bits_are_the_only_line, bits_print_the_output,
    bytes_are_the_only_text, certify_claims_the_output, check_accepts_exactly_if_equal,
    check_prints_the_differing_input, check_prints_the_output, compose_prints_the_output,
    each_fault_is_one_line, each_taken_circuit_is_well_formed,
    equal_bits_exactly_if_equal_functions, equal_bytes_exactly_if_equal_functions,
    equal_bytes_with_and_without_simplify, eval_prints_the_output, held_files_give_one_job,
    iso_prints_the_images, lift_prints_the_polynomial, one_answer_or_fault, one_answer_to_a_trial,
    same_exactly_if_equal_functions, same_prints_the_differing_input, some_answer_or_fault,
    table_prints_the_outputs, tables_are_lifted_to_what_abstract_prints,
    trial_prints_the_differing_input, upgrade_keeps_claim_and_pairs, upgrade_keeps_the_reply,
    verify_answers_by_the_last_sum, verify_proves_the_output, what_certify_prints_is_accepted,
    what_make_prints_computes,
};
pub use program::{run, run_surely};
pub use refusals::{
    abstract_is_refused_in_order, bits_is_refused_in_order, certify_is_refused_in_order,
    check_is_refused_in_order, compose_is_refused_in_order, each_command_is_refused_in_order,
    same_is_refused_in_order, some_answer_over_a_circuit, status_3_is_of_a_stage,
    trial_is_refused_in_order, verify_is_refused_in_order,
};
