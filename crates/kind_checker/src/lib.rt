//! The static rules of constants and of the types that have no others inside: what names, signs and strings stand for,
//! what subranges, enumerations, pointers and sets are, and how many values and cells types have; and what the rules
//! of expressions ask of types: which agree, what may be assigned to what, and what an operator does with operands of
//! which types.
#![tactic(auto)]

pub mod conformable;
pub mod constants;
pub mod headings;
pub mod names;
pub mod operators;
pub mod shapes;
pub mod sizes;
pub mod types;

pub use constants::ConstantValue;
pub use operators::Operator;
pub use shapes::{ExpressionType, Packing, Shape};
pub use types::Scope;
