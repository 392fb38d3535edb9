//! Classes of congruous lists of sections (6.6.3.6).

ghost use Rattle.std.specs.Prelude.{◌+◌, ◌<◌, ◌≡◌, IfOk, OnOk, Some, length, unwrap_or};
ghost use Rattle.std.specs.{HashMap.get, Map.update};
ghost use Rattle.core_program.specs.{WholeTables.WholeTables, declared.classes.Form.Form};
ghost use Rattle.core_program.specs.Classes.{AreClasses, Classed, Interned, class_at, form_at, same_form};

use crate::headings::{FormalSection, section_at, signature_at};
use crate::rows::{LIST_END, Mode};
use crate::tables::ProgramTables;
use crate::type_classes::{type_class, type_classes_of};
use std::alloc::{AllocError, Global};
use std::collections::HashMap;

/// What a list is made of: its first section, and the classes of the lists inside of that and after it.
#[derive(Clone, Copy, PartialEq, Eq, Hash)]
pub enum Form {
    /// This many variables or values, and the class of their type.
    Names {
        mode: Mode,
        count: u32,
        of: u32,
        rest: u32,
    },
    /// A procedure or function, by its result type and its sections.
    Routine {
        result: Option<u32>,
        sections: u32,
        rest: u32,
    },
}

/// The class of the list at a number.
pub(crate) fn class_at(classes: &[u32], list: u32) -> u32
    ensures { result ≡ class_at classes.now list }
{
    match classes.get(list as usize) {
        Some(class) => *class,
        None => LIST_END,
    }
}

/// The form of the list at a number, and None where it is empty.
fn form_at(tables: &ProgramTables, types: &[u32], classes: &[u32], list: u32) -> Option<Form>
    ensures { result ≡ form_at tables.now types.now classes.now list }
{
    match section_at(tables, list) {
        None => None,
        Some((FormalSection::Names { mode, of, count }, next)) => Some(Form::Names {
            mode,
            count,
            of: type_class(tables, types, of),
            rest: class_at(classes, next),
        }),
        Some((FormalSection::Heading(heading), next)) => match signature_at(tables, heading) {
            None => None,
            Some(heading) => Some(Form::Routine {
                result: heading.result,
                sections: class_at(classes, heading.sections),
                rest: class_at(classes, next),
            }),
        },
    }
}

/// The class of a form: the one that it has, or else a new one.
fn class_of(known: &mut HashMap<Form, u32>, form: Form, new: u32) -> Result<u32, AllocError>
    ensures class { IfOk result (λ c. c ≡ unwrap_or (get same_form known.old form) new) }
    ensures known { IfOk result (λ c. (f : Form) → get same_form known.new f
        ≡ update same_form (get same_form known.old) form (Some c) f) }
    ensures has { IfOk result (λ c. get same_form known.new form ≡ Some c) }
{
    let found = known.get(&form).copied();
    match found {
        Some(class) => Ok(class),
        None => {
            known.insert(form, new)?;
            Ok(new)
        }
    }
}

/// The class of a list by its form. Empty lists are of the class of what ends lists.
fn class_in(known: &mut HashMap<Form, u32>, form: Option<Form>, new: u32) -> Result<u32, AllocError>
    ensures { IfOk result (Interned new (get same_form known.old) (get same_form known.new) form) }
{
    match form {
        None => Ok(LIST_END),
        Some(form) => class_of(known, form, new),
    }
}

/// Gives the list at a number its class, where all lists after it have theirs.
#[tactic(auto, using(crate::proofs::ListsClassed::classed))]
fn classify(
    tables: &ProgramTables,
    types: &[u32],
    known: &mut HashMap<Form, u32>,
    classes: &mut Vec<u32>,
    at: u32,
) -> Result<(), AllocError>
    requires whole { WholeTables tables.now }
    requires inside { at < length tables.now.rows }
    requires after { Classed tables.now types.now (get same_form known.old) (at + 1) classes.old.items }
    ensures { OnOk result (Classed tables.now types.now (get same_form known.new) at classes.new.items) }
{
    let form = form_at(tables, types, classes, at);
    let class = class_in(known, form, at)?;
    classes[at as usize] = class;
    Ok(())
}

/// The classes of all lists. What is inside of a list and after it stands after its beginning, so they are found from
/// the last row on. A row that has no number of 32 bits counts as out of memory.
pub(crate) fn classes_of(alloc: Global, tables: &ProgramTables) -> Result<Vec<u32>, AllocError>
    requires whole { WholeTables tables.now }
    ensures { IfOk result (λ v. AreClasses tables.now v.items) }
{
    let Ok(rows) = u32::try_from(tables.rows()) else {
        return Err(AllocError);
    };
    let types = type_classes_of(alloc, tables)?;
    let mut known = HashMap::new(alloc);
    let mut classes = vec![in alloc; LIST_END; tables.rows()]?;
    let mut at = rows;
    'lists: while at > 0 {
        at -= 1;
        classify(tables, &types, &mut known, &mut classes, at)?;
    }
    Ok(classes)
}
