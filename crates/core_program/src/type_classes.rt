//! Classes of types: one for all arrays of conformant parameters that have equivalent schemas (6.6.3.6).

ghost use Rattle.std.specs.Prelude.{◌+◌, ◌<◌, ◌≡◌, IfOk, OnOk, Some, length, unwrap_or};
ghost use Rattle.std.specs.{HashMap.get, Map.update};
ghost use Rattle.core_program.specs.{WholeTables.WholeTables, declared.type_classes.TypeForm.TypeForm};
ghost use Rattle.core_program.specs.TypeClasses.{AreTypeClasses, TypesClassed, same_type_form, type_class, type_form};

use crate::rows::TypeRow;
use crate::tables::ProgramTables;
use std::alloc::{AllocError, Global};
use std::collections::HashMap;

/// What a schema is made of: its first spec, and the class of the component type.
#[derive(Clone, Copy, PartialEq, Eq, Hash)]
pub struct TypeForm {
    pub packed: bool,
    pub index: u32,
    pub component: u32,
}

/// The class of the type at a number. A type of no schema is a class of its own.
pub(crate) fn type_class(tables: &ProgramTables, types: &[u32], of: u32) -> u32
    ensures { result ≡ type_class tables.now types.now of }
{
    match tables.type_row(of) {
        Some(TypeRow::Conformant { .. }) => match types.get(of as usize) {
            Some(class) => *class,
            None => of,
        },
        _ => of,
    }
}

/// The form of a type, and None where it is of no schema.
fn type_form(tables: &ProgramTables, types: &[u32], row: Option<TypeRow>) -> Option<TypeForm>
    ensures { result ≡ type_form tables.now types.now row }
{
    match row {
        Some(
            TypeRow::Conformant {
                packed,
                index,
                component,
                ..
            },
        ) => Some(TypeForm {
            packed,
            index,
            component: type_class(tables, types, component),
        }),
        _ => None,
    }
}

/// The class of a form: the one that it has, or else a new one.
fn class_of_form(
    known: &mut HashMap<TypeForm, u32>,
    form: TypeForm,
    new: u32,
) -> Result<u32, AllocError>
    ensures class { IfOk result (λ c. c ≡ unwrap_or (get same_type_form known.old form) new) }
    ensures known { IfOk result (λ c. (f : TypeForm) → get same_type_form known.new f
        ≡ update same_type_form (get same_type_form known.old) form (Some c) f) }
    ensures has { IfOk result (λ c. get same_type_form known.new form ≡ Some c) }
{
    let found = known.get(&form).copied();
    match found {
        Some(class) => Ok(class),
        None => {
            known.insert(form, new)?;
            Ok(new)
        }
    }
}

/// Gives the type at a number its class, if it is of a schema, where all types after it have theirs.
fn classify_type(
    tables: &ProgramTables,
    known: &mut HashMap<TypeForm, u32>,
    types: &mut Vec<u32>,
    at: u32,
) -> Result<(), AllocError>
    requires whole { WholeTables tables.now }
    requires inside { at < length tables.now.rows }
    requires after { TypesClassed tables.now (get same_type_form known.old) (at + 1) types.old.items }
    ensures { OnOk result (TypesClassed tables.now (get same_type_form known.new) at types.new.items) }
{
    match type_form(tables, types, tables.type_row(at)) {
        None => Ok(()),
        Some(form) => {
            let class = class_of_form(known, form, at)?;
            types[at as usize] = class;
            Ok(())
        }
    }
}

/// The classes of all types. What is inside of a schema stands after its beginning, so they are found from the last row
/// on. A row that has no number of 32 bits counts as out of memory.
pub(crate) fn type_classes_of(alloc: Global, tables: &ProgramTables) -> Result<Vec<u32>, AllocError>
    requires whole { WholeTables tables.now }
    ensures { IfOk result (λ v. AreTypeClasses tables.now v.items) }
{
    let Ok(rows) = u32::try_from(tables.rows()) else {
        return Err(AllocError);
    };
    let mut known = HashMap::new(alloc);
    let mut types = vec![in alloc; 0; tables.rows()]?;
    let mut at = rows;
    'types: while at > 0 {
        at -= 1;
        classify_type(tables, &mut known, &mut types, at)?;
    }
    Ok(types)
}
