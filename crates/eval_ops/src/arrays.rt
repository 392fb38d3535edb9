//! The components of an array that is accessed.

ghost use Rattle.std.specs.Prelude.{◌≡◌};
ghost use Rattle.core_program.specs.ProgramRows.{row_at, type_at};
ghost use Rattle.eval_ops.specs.Arrays as arrays;

use crate::expressions::type_accessed;
use core_program::rows::{Row, TypeRow};
use core_program::{Components, Program};

/// The cells of a variable of a type, by the number of the type, if it is there; 65,537 stands for more than 65,536.
pub fn size_of(program: &Program, kind: u32) -> Option<u32>
    ensures { result ≡ arrays.size_in (type_at program.now kind) }
{
    match program.type_row(kind) {
        Some(_) => Some(program.size_of(kind)),
        None => None,
    }
}

/// The components of an array, by its index type and the cells of a component.
fn components_of(index: Option<TypeRow>, size: Option<u32>) -> Option<Components>
    ensures { result ≡ arrays.components_of size index }
{
    match (index, size) {
        (Some(TypeRow::Ordinal { least, greatest }), Some(size)) => Some(Components {
            least,
            greatest,
            size,
        }),
        (
            Some(
                TypeRow::Subrange {
                    least,
                    greatest,
                    ..
                },
            ),
            Some(size),
        ) => Some(Components {
            least,
            greatest,
            size,
        }),
        _ => None,
    }
}

/// The components of an array, by its type.
fn components_in(program: &Program, array: Option<TypeRow>) -> Option<Components>
    ensures { result ≡ arrays.components_in program.now array }
{
    match array {
        Some(
            TypeRow::Array {
                index,
                component,
                ..
            },
        ) => { components_of(program.type_row(index), size_of(program, component)) }
        _ => None,
    }
}

/// The cells of an array that is accessed, and its components, if the row is an access of one.
pub fn array_of(program: &Program, row: u32) -> Option<(u32, Components)>
    ensures { result ≡ arrays.array_in program.now (row_at program.now row) }
{
    match program.row(row) {
        Row::Access(access) => {
            let of = type_accessed(access);
            let cells = program.size_of(of);
            match components_in(program, program.type_row(of)) {
                Some(components) => Some((cells, components)),
                None => None,
            }
        }
        _ => None,
    }
}
