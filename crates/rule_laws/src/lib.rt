//! Rules that the check tells by its tables, as sentences on the tree: which names of a region are defined twice, which
//! forward headings are never completed, which functions are never assigned, which labels of a block's statements are
//! wrong, and which constants of a case statement or a variant part. They are laws of the static rules, above the
//! crates that state them.
#![tactic(auto)]

mod laws;

pub use laws::{
    case_constants_differ, fields_are_defined_once, fields_of_a_text_differ,
    formals_are_defined_once, forward_headings_are_completed,
    forward_headings_of_a_text_have_blocks, functions_are_assigned,
    functions_of_a_text_are_assigned, labels_are_declared_and_differ, labels_are_declared_once,
    labels_of_statements_are_declared, labels_of_statements_differ, names_are_defined_once,
    names_of_a_text_differ, parameters_are_defined_once, routines_are_defined_once,
    tokens_of_a_text_differ, variant_constants_differ,
};
