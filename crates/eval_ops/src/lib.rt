//! What the constructs of a program do to a machine, which stands for the state of a run with its log so far: on
//! cells, frames, the heap and the text files; with the operators on values, and what the rows of a program say of how
//! an expression or a statement goes on. A call that answers `Memory` leaves the machine in no state that is said; the
//! run is then given up.
#![tactic(auto)]

mod arrays;
mod blocks;
mod calls;
mod cells;
mod choices;
mod conformant;
mod counting;
mod dimensions;
mod expressions;
mod frames;
mod halt;
mod input;
mod machine;
mod operators;
mod output;
mod packing;
mod passed_arrays;
mod pointers;
mod results;
mod sets;
mod statements;
mod strings;
mod values;
mod variants;

pub use arrays::{array_of, size_of};
pub use blocks::{drop_block, make_block};
pub use calls::{close_call, make_frame, open_call, remove_frame};
pub use cells::{add_value, ordinal_at, read_cells, set_at, write_cells};
pub use choices::{CaseOutcome, case_of};
pub use conformant::{ArrayWhole, conformant_component, conformant_out, conformant_whole};
pub use counting::{
    Counting, ForProgress, counting_at, has_turn, is_last, last_value, turn_after, turn_value,
    turns_of,
};
pub use dimensions::{Dimensions, dimensions_meant, is_conformant};
pub use expressions::{combine, constant, type_accessed};
pub use frames::{cell_out, component, frame_out, moved, reference_out, routine_out};
pub use halt::{Halt, passed, passed_test};
pub use input::{at_end, at_line_end, next_char, past_item, scan_on};
pub use machine::{Machine, limit_passed, read_cell, spend, write_cell};
pub use operators::{Dyadic, dyadic_in};
pub use output::{end_line, end_page, write_scalar, write_string};
pub use packing::{copy_cells, first_moved};
pub use passed_arrays::{
    ArrayActual, conformant_actual, fixed_actual, fixed_bounds, place_bounds, text_actual,
};
pub use pointers::{
    compare_pointers, dispose, make_variable, pointed_at, pointer_at, pointer_result_at,
};
pub use results::result_at;
pub use sets::{add_members, combine_sets, compare_sets, is_in, no_members};
pub use statements::{element_of, line_of};
pub use strings::{compare_texts, string_of};
pub use values::{compare_ordinals, is_true, ordinal_function, sign, test, truth};
pub use variants::{activate, assign_to, field_at, tag_accessed};
