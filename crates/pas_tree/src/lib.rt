//! The concrete trees of Pascal: one type for each rule of the grammar, ISO 7185 clauses 6.2 to 6.10, whose fields
//! follow the rule from left to right. Each terminal is the number of its token in the source, counted from 0; where a
//! terminal is one of several, it is an enum over them. Parentheses are kept. Beside the trees stand the grammar of
//! Pascal as data, its trees as nodes without types, laws of both, and the places in a tree: the token at which a
//! construct begins, which messages name and by which rows of tables are numbered.
#![tactic(auto)]

pub mod blocks;
pub mod constants;
mod converse;
mod denoter_places;
pub mod denoters;
mod expression_places;
pub mod expressions;
mod heading_places;
pub mod headings;
mod laws;
mod operator_places;
pub mod operators;
mod place_laws;
mod schema_places;
pub mod schemas;
mod statement_places;
pub mod statements;

pub use converse::{shaped_nodes_have_trees, typed_trees_go_on};
pub use denoter_places::{first_of_constant, first_of_denoter};
pub use expression_places::first_of_expression;
pub use heading_places::{heading_name, heading_word};
pub use laws::{
    first_refusals, nodes_tell_trees, one_token_decides, refusals_are_exact, trees_fit_the_grammar,
};
pub use operator_places::{
    adding_token, direction_token, multiplying_token, relational_token, sign_token,
};
pub use place_laws::places_begin;
pub use schema_places::first_of_schema;
