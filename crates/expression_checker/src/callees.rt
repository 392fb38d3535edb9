//! What is called in an expression, and the function designator once its actual parameters are checked (6.6.6, 6.7.3).

ghost use Rattle.std.specs.Prelude.{◌≡◌};
ghost use Rattle.check_steps.specs.Steps.{Does};
ghost use Rattle.expression_checker.specs.Callees.{applied, bounds_in, called_function, callee_in, callee_of};
ghost use Rattle.expression_checker.specs.Callees.{count_checked, declared_routine, declared_type, designator_row};
ghost use Rattle.expression_checker.specs.Callees.{designator_type, formals_from, formals_of, function_named};
ghost use Rattle.expression_checker.specs.Callees.{has_formals, host_bounds, host_type, is_function};
ghost use Rattle.expression_checker.specs.Callees.{is_required_function, names_in, operand_of, ordinal_function};
ghost use Rattle.expression_checker.specs.Callees.{required_formals, required_function_row, required_row};
ghost use Rattle.expression_checker.specs.Callees.{required_takes, required_type, takes_count};

use crate::names::levels_to;
use crate::typed::{Typed, typed_value};
use check_steps::headings::FormalSection;
use check_steps::{Found, Tables, Work};
use core_program::Routine;
use core_program::rows::{
    BOOLEAN, CHAR, ExpressionRow, INTEGER, NameRow, OrdinalFunction, Required, Row, TypeRow,
};
use kind_checker::headings::{section_at, signature_at};
use kind_checker::shapes::shape_of;
use kind_checker::{ExpressionType, Shape};

/// What a name stands for as a routine.
#[derive(Clone, Copy)]
pub enum Callee {
    /// Nothing that is known.
    Unknown,
    /// No routine, or one of another kind than its place takes.
    Wrong,
    /// A routine of the program, how many links lead to the frame that declares it, and the number of its heading.
    Routine {
        routine: u32,
        levels: u32,
        heading: u32,
    },
    /// A routine parameter: the number of its name's row, how many links lead to its frame, and the number of its
    /// heading.
    Formal {
        formal: u32,
        levels: u32,
        heading: u32,
    },
    Required(Required),
}

/// What the next actual parameters stand for.
#[derive(Clone, Copy)]
pub enum ExpectedFormals {
    /// Nothing that is known: their own parts alone are checked.
    Unknown,
    /// The formal parameters of a section on, of which this many are passed, and the type that the actuals of a
    /// conformant section have, as far as it is known.
    Declared {
        section: u32,
        passed: u32,
        measure: ExpressionType,
    },
    /// A text file that is read.
    File,
    /// The operand of a required function.
    Operand(OrdinalFunction),
}

/// A call of which the actual parameters are not yet checked.
#[derive(Clone, Copy)]
pub struct Called {
    pub callee: Callee,
    pub formals: ExpectedFormals,
}

fn declared_routine(tables: &Tables, frame: u32, number: u32, routine: Option<Routine>) -> Callee
    ensures { result ≡ declared_routine tables.now frame number routine }
{
    match routine {
        None => Callee::Unknown,
        Some(routine) => Callee::Routine {
            routine: number,
            levels: levels_to(tables, frame, routine.level.saturating_sub(1)),
            heading: routine.heading,
        },
    }
}

fn callee_in(tables: &Tables, frame: u32, token: u32, row: Row) -> Callee
    ensures { result ≡ callee_in tables.now frame token row }
{
    match row {
        Row::Name(NameRow::Routine { number, .. }) => {
            declared_routine(tables, frame, number, tables.program().routine(number))
        }
        Row::Name(NameRow::RoutineFormal { level, heading, .. }) => Callee::Formal {
            formal: token,
            levels: levels_to(tables, frame, level),
            heading,
        },
        Row::Name(NameRow::Required { routine }) => Callee::Required(routine),
        _ => Callee::Wrong,
    }
}

/// What a name stands for as a routine, seen from a frame.
pub fn callee_of(tables: &Tables, frame: u32, found: Option<Found>) -> Callee
    ensures { result ≡ callee_of tables.now frame found }
{
    match found {
        None => Callee::Unknown,
        Some(found) => {
            let token = found.definition.token;
            callee_in(tables, frame, token, tables.row(token))
        }
    }
}

fn ordinal_function(required: Required) -> Option<OrdinalFunction>
    ensures { result ≡ ordinal_function required }
{
    match required {
        Required::Abs => Some(OrdinalFunction::Abs),
        Required::Sqr => Some(OrdinalFunction::Sqr),
        Required::Odd => Some(OrdinalFunction::Odd),
        Required::Ord => Some(OrdinalFunction::Ord),
        Required::Chr => Some(OrdinalFunction::Chr),
        Required::Succ => Some(OrdinalFunction::Succ),
        Required::Pred => Some(OrdinalFunction::Pred),
        _ => None,
    }
}

/// Whether a required routine is a function.
pub fn is_required_function(required: Required) -> bool
    ensures { result ≡ is_required_function required }
{
    match required {
        Required::Eof => true,
        Required::Eoln => true,
        _ => ordinal_function(required).is_some(),
    }
}

fn is_function(tables: &Tables, callee: Callee) -> bool
    ensures { result ≡ is_function tables.now callee }
{
    match callee {
        Callee::Unknown => true,
        Callee::Wrong => false,
        Callee::Routine { heading, .. } => signature_at(tables, heading).result.is_some(),
        Callee::Formal { heading, .. } => signature_at(tables, heading).result.is_some(),
        Callee::Required(required) => is_required_function(required),
    }
}

fn names_in(section: FormalSection) -> usize
    ensures { result ≡ names_in section }
{
    match section {
        FormalSection::Names { count, .. } => count as usize,
        FormalSection::Heading(_) => 1,
    }
}

/// Whether a list of sections has this many parameters.
#[tactic(auto, using(crate::proofs::Sections::sections_onward))]
pub fn has_formals(tables: &Tables, sections: u32, count: usize) -> bool
    ensures { result ≡ has_formals tables.now sections count }
{
    let mut at = sections;
    let mut left = count;
    'sections: for _passed in 0..tables.tokens() {
        let Some((section, next)) = section_at(tables, at) else {
            return left == 0;
        };
        let names = names_in(section);
        if names > left {
            return false;
        }
        left -= names;
        at = next;
    }
    false
}

fn required_takes(required: Required, count: usize) -> bool
    ensures { result ≡ required_takes required count }
{
    match required {
        Required::Eof => count <= 1,
        Required::Eoln => count <= 1,
        _ => count == 1,
    }
}

fn takes_count(tables: &Tables, callee: Callee, count: usize) -> bool
    ensures { result ≡ takes_count tables.now callee count }
{
    match callee {
        Callee::Routine { heading, .. } => {
            has_formals(tables, signature_at(tables, heading).sections, count)
        }
        Callee::Formal { heading, .. } => {
            has_formals(tables, signature_at(tables, heading).sections, count)
        }
        Callee::Required(required) => required_takes(required, count),
        _ => true,
    }
}

fn operand_of(function: Option<OrdinalFunction>) -> ExpectedFormals
    ensures { result ≡ operand_of function }
{
    match function {
        Some(function) => ExpectedFormals::Operand(function),
        None => ExpectedFormals::Unknown,
    }
}

fn required_formals(required: Required) -> ExpectedFormals
    ensures { result ≡ required_formals required }
{
    match required {
        Required::Eof => ExpectedFormals::File,
        Required::Eoln => ExpectedFormals::File,
        _ => operand_of(ordinal_function(required)),
    }
}

/// The formal parameters of a section on, of which none is passed.
pub(crate) fn formals_from(section: u32) -> ExpectedFormals
    ensures { result ≡ formals_from section }
{
    ExpectedFormals::Declared {
        section,
        passed: 0,
        measure: ExpressionType::Unknown,
    }
}

/// The formal parameters of what is called, from the first on.
pub fn formals_of(tables: &Tables, callee: Callee) -> ExpectedFormals
    ensures { result ≡ formals_of tables.now callee }
{
    match callee {
        Callee::Routine { heading, .. } => formals_from(signature_at(tables, heading).sections),
        Callee::Formal { heading, .. } => formals_from(signature_at(tables, heading).sections),
        Callee::Required(required) => required_formals(required),
        _ => ExpectedFormals::Unknown,
    }
}

/// The function that a name stands for.
#[tactic(auto, using(check_steps::proofs::Runs::steps), unfolding(crate::specs::Callees::function_named))]
fn check_function(work: &mut Work, name: u32, frame: u32) -> Callee
    ensures { Does (function_named frame name) result work.old work.new }
{
    let found = work.use_again(frame, name);
    let callee = callee_of(&work.tables, frame, found);
    let fine = is_function(&work.tables, callee);
    work.late(3, name, fine);
    if fine { callee } else { Callee::Wrong }
}

/// A call of a declared routine or of a required function with this many actual parameters, at its name. With another
/// number than it takes these stand for nothing that is known.
#[tactic(auto, using(check_steps::proofs::Runs::steps), unfolding(crate::specs::Callees::count_checked))]
pub fn check_counted(work: &mut Work, name: u32, callee: Callee, count: usize) -> Called
    ensures { Does (count_checked name callee count) result work.old work.new }
{
    let fine = takes_count(&work.tables, callee, count);
    work.late(26, name, fine);
    let known = formals_of(&work.tables, callee);
    Called {
        callee,
        formals: if fine {
            known
        } else {
            ExpectedFormals::Unknown
        },
    }
}

/// A function designator with this many actual parameters, before these are checked.
#[tactic(auto, using(check_steps::proofs::Runs::steps), unfolding(crate::specs::Callees::called_function))]
pub(crate) fn check_called(work: &mut Work, name: u32, frame: u32, count: usize) -> Called
    ensures { Does (called_function frame name count) result work.old work.new }
{
    let callee = check_function(work, name, frame);
    check_counted(work, name, callee, count)
}

fn declared_type(declared: Option<u32>) -> ExpressionType
    ensures { result ≡ declared_type declared }
{
    match declared {
        Some(kind) => ExpressionType::Of(kind),
        None => ExpressionType::Unknown,
    }
}

fn host_type(shape: Shape) -> ExpressionType
    ensures { result ≡ host_type shape }
{
    match shape {
        Shape::Ordinal(host) => ExpressionType::Of(host),
        _ => ExpressionType::Unknown,
    }
}

fn required_type(required: Required, shape: Shape) -> ExpressionType
    ensures { result ≡ required_type required shape }
{
    match required {
        Required::Abs => ExpressionType::Of(INTEGER),
        Required::Sqr => ExpressionType::Of(INTEGER),
        Required::Odd => ExpressionType::Of(BOOLEAN),
        Required::Ord => ExpressionType::Of(INTEGER),
        Required::Chr => ExpressionType::Of(CHAR),
        Required::Succ => host_type(shape),
        Required::Pred => host_type(shape),
        Required::Eof => ExpressionType::Of(BOOLEAN),
        Required::Eoln => ExpressionType::Of(BOOLEAN),
        _ => ExpressionType::Unknown,
    }
}

fn designator_type(tables: &Tables, callee: Callee, last: Typed) -> ExpressionType
    ensures { result ≡ designator_type tables.now callee last }
{
    match callee {
        Callee::Routine { heading, .. } => declared_type(signature_at(tables, heading).result),
        Callee::Formal { heading, .. } => declared_type(signature_at(tables, heading).result),
        Callee::Required(required) => required_type(required, shape_of(tables, last.of)),
        _ => ExpressionType::Unknown,
    }
}

fn bounds_in(row: Option<TypeRow>) -> (i32, i32)
    ensures { result ≡ bounds_in row }
{
    match row {
        Some(TypeRow::Ordinal { least, greatest }) => (least, greatest),
        _ => (0, 0),
    }
}

fn host_bounds(tables: &Tables, shape: Shape) -> (i32, i32)
    ensures { result ≡ host_bounds tables.now shape }
{
    match shape {
        Shape::Ordinal(host) => bounds_in(tables.type_row(host)),
        _ => (0, 0),
    }
}

fn required_function_row(tables: &Tables, function: Option<OrdinalFunction>, operand: Typed) -> Row
    ensures { result ≡ required_function_row tables.now function operand }
{
    let Some(function) = function else {
        return Row::Nothing;
    };
    let (least, greatest) = host_bounds(tables, shape_of(tables, operand.of));
    Row::Expression(ExpressionRow::Function {
        function,
        operand: operand.row,
        least,
        greatest,
    })
}

fn required_row(tables: &Tables, required: Required, last: Typed) -> Row
    ensures { result ≡ required_row tables.now required last }
{
    match required {
        Required::Eof => Row::Expression(ExpressionRow::Eof),
        Required::Eoln => Row::Expression(ExpressionRow::Eoln),
        _ => required_function_row(tables, ordinal_function(required), last),
    }
}

fn designator_row(tables: &Tables, callee: Callee, last: Typed, actuals: u32) -> Row
    ensures { result ≡ designator_row tables.now callee last actuals }
{
    match callee {
        Callee::Routine {
            routine,
            levels,
            ..
        } => Row::Expression(ExpressionRow::Apply {
            routine,
            levels,
            actuals,
        }),
        Callee::Formal { formal, levels, .. } => Row::Expression(ExpressionRow::ApplyFormal {
            formal,
            levels,
            actuals,
        }),
        Callee::Required(required) => required_row(tables, required, last),
        _ => Row::Nothing,
    }
}

/// A function designator, at its name, whose last actual parameter and whose list of them are given.
#[tactic(auto, using(check_steps::proofs::Runs::steps), unfolding(crate::specs::Callees::applied))]
pub(crate) fn check_applied(
    work: &mut Work,
    name: u32,
    callee: Callee,
    last: Typed,
    actuals: u32,
) -> Typed
    ensures { Does (applied name callee last actuals) result work.old work.new }
{
    let of = designator_type(&work.tables, callee, last);
    let row = designator_row(&work.tables, callee, last, actuals);
    work.put(name, row);
    typed_value(name, of)
}
