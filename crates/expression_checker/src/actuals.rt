//! Actual parameters against formal ones (6.6.3, 6.7.3).

ghost use Rattle.std.specs.Prelude.{◌≡◌};
ghost use Rattle.pas_tree.specs.ExpressionTrees.{access_tree, expression_tree, factor_tree, simple_tree, term_tree};
ghost use Rattle.check_steps.specs.Steps.{Does};
ghost use Rattle.expression_checker.specs.Actuals.{after_section, argued, file_argued, file_in, file_of, formal_at};
ghost use Rattle.expression_checker.specs.Actuals.{formal_in, formal_of, formals_after, is_actual, is_argument};
ghost use Rattle.expression_checker.specs.Actuals.{is_array_actual, is_congruous, is_copied, is_free, is_input};
ghost use Rattle.expression_checker.specs.Actuals.{is_of_section, is_of_type, is_variable_actual, item_if_any, item_of};
ghost use Rattle.expression_checker.specs.Actuals.{lone_file, lone_of, operand_in, passed, routine_argued};
ghost use Rattle.expression_checker.specs.Actuals.{routine_item, rule_of, threat_by};
ghost use Rattle.expression_checker.specs.NamesAlone.{access_name, factor_name, name_alone, name_if, name_of_if};
ghost use Rattle.expression_checker.specs.NamesAlone.{simple_name, term_name};

use crate::callees::{Callee, ExpectedFormals, callee_of, formals_from};
use crate::threats::check_threat_alone;
use crate::typed::{Location, Typed, unknown_at};
use check_steps::headings::FormalSection;
use check_steps::items::put_item;
use check_steps::{Found, Tables, Work};
use core_program::rows::{
    INTEGER, ItemRow, LIST_END, Mode, NameRow, OrdinalFunction, Row, TextFile,
};
use kind_checker::conformable::{is_conformable, is_conformant, is_measured, measure_after};
use kind_checker::headings::section_at;
use kind_checker::operators::{is_operand, is_ordinal, is_unknown_shape};
use kind_checker::shapes::{is_assignable, is_same_type, shape_of};
use kind_checker::{ExpressionType, Shape};
use pas_tree::expressions::{Access, Expression, Factor, Simple, Term};

/// What an actual parameter stands for.
#[derive(Clone, Copy)]
pub enum ExpectedFormal {
    /// Nothing that is known.
    Unknown,
    /// A value parameter of a type.
    Value(u32),
    /// A variable parameter of a type.
    Variable(u32),
    /// A conformant parameter of a type: whether it is one by value, whether it is the first of its section, and the
    /// type of the actuals before it, as far as it is known.
    Array {
        copied: bool,
        first: bool,
        of: u32,
        measure: ExpressionType,
    },
    /// A routine parameter, by the number of its heading.
    Routine(u32),
    /// A text file that is read.
    File,
    /// The operand of a required function.
    Operand(OrdinalFunction),
}

/// An actual parameter that is a name alone and no expression.
#[derive(Clone, Copy)]
pub enum Lone {
    None,
    /// What is passed to a routine parameter, by the number of that one's heading.
    Routine { name: u32, heading: u32 },
    File { name: u32, file: TextFile },
}

/// An actual parameter that is checked.
#[derive(Clone, Copy)]
pub struct Argument {
    /// Its item in the list of actual parameters, if it has one.
    pub item: Option<ItemRow>,
    /// Its type.
    pub of: ExpressionType,
    /// Itself where it is the operand of a required function, and else nothing that is known.
    pub value: Typed,
}

/// A list of actual parameters of which some are checked.
#[derive(Clone, Copy)]
pub struct Passing {
    /// Where the item of the last one stands; before the first, a number at which no item does.
    pub last: u32,
    /// What the next ones stand for.
    pub formals: ExpectedFormals,
    /// The last one where it is the operand of a required function, and else nothing that is known.
    pub value: Typed,
}

fn is_copied(mode: Mode) -> bool
    ensures { result ≡ is_copied mode }
{
    match mode {
        Mode::Copy => true,
        _ => false,
    }
}

/// A variable or a value parameter of a type, or a conformant one.
fn formal_of(
    conformant: bool,
    mode: Mode,
    of: u32,
    passed: u32,
    measure: ExpressionType,
) -> ExpectedFormal
    ensures { result ≡ formal_of conformant mode of passed measure }
{
    if conformant {
        return ExpectedFormal::Array {
            copied: is_copied(mode),
            first: passed == 0,
            of,
            measure,
        };
    }
    match mode {
        Mode::Place => ExpectedFormal::Variable(of),
        _ => ExpectedFormal::Value(of),
    }
}

/// The parameter of a section, of which this many are passed.
fn formal_in(
    tables: &Tables,
    passed: u32,
    measure: ExpressionType,
    section: Option<(FormalSection, u32)>,
) -> ExpectedFormal
    ensures { result ≡ formal_in tables.now passed measure section }
{
    match section {
        None => ExpectedFormal::Unknown,
        Some((section, _)) => match section {
            FormalSection::Names { mode, of, .. } => {
                formal_of(
                    is_conformant(tables.type_row(of)),
                    mode,
                    of,
                    passed,
                    measure,
                )
            }
            FormalSection::Heading(heading) => ExpectedFormal::Routine(heading),
        },
    }
}

/// What the next actual parameter stands for.
pub fn formal_at(tables: &Tables, formals: ExpectedFormals) -> ExpectedFormal
    ensures { result ≡ formal_at tables.now formals }
{
    match formals {
        ExpectedFormals::Unknown => ExpectedFormal::Unknown,
        ExpectedFormals::Declared {
            section,
            passed,
            measure,
        } => formal_in(tables, passed, measure, section_at(tables, section)),
        ExpectedFormals::File => ExpectedFormal::File,
        ExpectedFormals::Operand(function) => ExpectedFormal::Operand(function),
    }
}

fn after_section(
    section: Option<(FormalSection, u32)>,
    at: u32,
    passed: u32,
    measure: ExpressionType,
) -> ExpectedFormals
    ensures { result ≡ after_section section at passed measure }
{
    let Some((section, next)) = section else {
        return ExpectedFormals::Unknown;
    };
    match section {
        FormalSection::Names { count, .. } => match passed.checked_add(1) {
            Some(more) if more < count => ExpectedFormals::Declared {
                section: at,
                passed: more,
                measure,
            },
            _ => formals_from(next),
        },
        FormalSection::Heading(_) => formals_from(next),
    }
}

fn formals_after(tables: &Tables, formals: ExpectedFormals, of: ExpressionType) -> ExpectedFormals
    ensures { result ≡ formals_after tables.now formals of }
{
    match formals {
        ExpectedFormals::Declared {
            section,
            passed,
            measure,
        } => {
            let measure = measure_after(tables, measure, of);
            after_section(section_at(tables, section), section, passed, measure)
        }
        _ => ExpectedFormals::Unknown,
    }
}

fn is_of_type(tables: &Tables, kind: u32, of: ExpressionType) -> bool
    ensures { result ≡ is_of_type tables.now kind of }
{
    match of {
        ExpressionType::Of(other) => is_same_type(tables, kind, other),
        _ => false,
    }
}

fn is_free(location: Location) -> bool
    ensures { result ≡ is_free location }
{
    match location {
        Location::Variable => true,
        _ => false,
    }
}

fn is_variable_actual(tables: &Tables, kind: u32, value: Typed) -> bool
    ensures { result ≡ is_variable_actual tables.now kind value }
{
    is_unknown_shape(shape_of(tables, value.of))
        || (is_free(value.location) && is_of_type(tables, kind, value.of))
}

fn is_array_actual(tables: &Tables, copied: bool, schema: u32, value: Typed) -> bool
    ensures { result ≡ is_array_actual tables.now copied schema value }
{
    if copied {
        return is_conformable(tables, schema, value.of);
    }
    is_unknown_shape(shape_of(tables, value.of))
        || (is_free(value.location) && is_conformable(tables, schema, value.of))
}

fn is_argument(function: OrdinalFunction, shape: Shape) -> bool
    ensures { result ≡ is_argument function shape }
{
    match function {
        OrdinalFunction::Ord => is_ordinal(shape),
        OrdinalFunction::Succ => is_ordinal(shape),
        OrdinalFunction::Pred => is_ordinal(shape),
        _ => is_operand(INTEGER, shape),
    }
}

fn is_actual(tables: &Tables, formal: ExpectedFormal, value: Typed) -> bool
    ensures { result ≡ is_actual tables.now formal value }
{
    match formal {
        ExpectedFormal::Unknown => true,
        ExpectedFormal::Value(kind) => is_assignable(tables, kind, value.of),
        ExpectedFormal::Variable(kind) => is_variable_actual(tables, kind, value),
        ExpectedFormal::Array { copied, of, .. } => is_array_actual(tables, copied, of, value),
        ExpectedFormal::Routine(_) => is_unknown_shape(shape_of(tables, value.of)),
        ExpectedFormal::File => is_unknown_shape(shape_of(tables, value.of)),
        ExpectedFormal::Operand(function) => is_argument(function, shape_of(tables, value.of)),
    }
}

fn rule_of(formal: ExpectedFormal) -> u32
    ensures { result ≡ rule_of formal }
{
    match formal {
        ExpectedFormal::Unknown => 27,
        ExpectedFormal::Value(_) => 27,
        ExpectedFormal::Variable(_) => 28,
        ExpectedFormal::Array { copied: true, .. } => 27,
        ExpectedFormal::Array { copied: false, .. } => 28,
        ExpectedFormal::Routine(_) => 29,
        ExpectedFormal::File => 32,
        ExpectedFormal::Operand(_) => 32,
    }
}

fn item_of(formal: ExpectedFormal, value: Typed) -> Option<ItemRow>
    ensures { result ≡ item_of formal value }
{
    match formal {
        ExpectedFormal::Value(of) => Some(ItemRow::Value {
            value: value.row,
            of,
            next: LIST_END,
        }),
        ExpectedFormal::Variable(_) => Some(ItemRow::Place {
            access: value.row,
            next: LIST_END,
        }),
        ExpectedFormal::Array {
            copied: true,
            first,
            of,
            ..
        } => Some(ItemRow::ArrayValue {
            first,
            value: value.row,
            of,
            next: LIST_END,
        }),
        ExpectedFormal::Array {
            copied: false,
            first,
            of,
            ..
        } => Some(ItemRow::ArrayPlace {
            first,
            access: value.row,
            of,
            next: LIST_END,
        }),
        _ => None,
    }
}

fn operand_in(formal: ExpectedFormal, value: Typed) -> Typed
    ensures { result ≡ operand_in formal value }
{
    match formal {
        ExpectedFormal::Operand(_) => value,
        _ => unknown_at(value.row),
    }
}

/// Whether a type is that of the first actual of a conformant section.
fn is_of_section(tables: &Tables, formal: ExpectedFormal, of: ExpressionType) -> bool
    ensures { result ≡ is_of_section tables.now formal of }
{
    match formal {
        ExpectedFormal::Array { measure, .. } => is_measured(tables, measure, of),
        _ => true,
    }
}

/// An actual parameter, once its parts are checked, which begins at a first token.
#[tactic(auto, using(check_steps::proofs::Runs::steps), unfolding(crate::specs::Actuals::argued))]
pub(crate) fn check_argued(
    work: &mut Work,
    formal: ExpectedFormal,
    first: u32,
    value: Typed,
) -> Argument
    ensures { Does (argued formal first value) result work.old work.new }
{
    let fine = is_actual(&work.tables, formal, value);
    work.late(rule_of(formal), first, fine);
    let one = is_of_section(&work.tables, formal, value.of);
    work.late(35, first, one);
    Argument {
        item: item_of(formal, value),
        of: value.of,
        value: operand_in(formal, value),
    }
}

fn name_if(alone: bool, name: u32) -> Option<u32>
    ensures { result ≡ name_if alone name }
{
    if alone { Some(name) } else { None }
}

/// The name that an access is, if it is a name alone.
#[tactic(auto, using(crate::proofs::Walks::name_items))]
pub fn access_name(access: &Access) -> Option<u32>
    ensures { result ≡ access_name (access_tree access.now) }
{
    name_if(access.selectors.len() == 0, access.name)
}

#[tactic(auto, using(pas_tree::proofs::ExpressionViews::access_view, crate::proofs::Walks::name_items))]
fn factor_name(factor: &Factor) -> Option<u32>
    ensures { result ≡ factor_name (factor_tree factor.now) }
{
    match factor {
        Factor::Access(access) => access_name(access),
        _ => None,
    }
}

fn name_of_if(alone: bool, name: Option<u32>) -> Option<u32>
    ensures { result ≡ name_of_if alone name }
{
    if alone { name } else { None }
}

#[tactic(auto, using(pas_tree::proofs::ExpressionViews::term_view, crate::proofs::Walks::factor_items))]
fn term_name(term: &Term) -> Option<u32>
    ensures { result ≡ term_name (term_tree term.now) }
{
    let alone = term.others.len() == 0;
    name_of_if(alone, factor_name(&term.first))
}

#[tactic(auto, using(pas_tree::proofs::ExpressionViews::simple_view, crate::proofs::Walks::term_items))]
fn simple_name(simple: &Simple) -> Option<u32>
    ensures { result ≡ simple_name (simple_tree simple.now) }
{
    let alone = simple.sign.is_none() && simple.others.len() == 0;
    name_of_if(alone, term_name(&simple.first))
}

/// The name that an expression is, if it is a name alone.
#[tactic(auto, using(pas_tree::proofs::ExpressionViews::expression_view, crate::proofs::Walks::relation_none))]
pub fn name_alone(expression: &Expression) -> Option<u32>
    ensures { result ≡ name_alone (expression_tree expression.now) }
{
    let alone = expression.relation.is_none();
    name_of_if(alone, simple_name(&expression.left))
}

fn file_in(row: Row) -> Option<TextFile>
    ensures { result ≡ file_in row }
{
    match row {
        Row::Name(NameRow::TextFile { file }) => Some(file),
        _ => None,
    }
}

/// The text file that a name stands for.
pub fn file_of(tables: &Tables, found: Option<Found>) -> Option<TextFile>
    ensures { result ≡ file_of tables.now found }
{
    match found {
        None => None,
        Some(found) => file_in(tables.row(found.definition.token)),
    }
}

fn lone_file(name: u32, file: Option<TextFile>) -> Lone
    ensures { result ≡ lone_file name file }
{
    match file {
        Some(file) => Lone::File { name, file },
        None => Lone::None,
    }
}

/// What is passed by a name alone that is no expression, seen from a frame.
pub(crate) fn lone_of(
    tables: &Tables,
    frame: u32,
    formal: ExpectedFormal,
    name: Option<u32>,
) -> Lone
    ensures { result ≡ lone_of tables.now frame formal name }
{
    match (formal, name) {
        (ExpectedFormal::Routine(heading), Some(name)) => Lone::Routine { name, heading },
        (ExpectedFormal::File, Some(name)) => {
            let found = tables.usable(frame, name, name);
            lone_file(name, file_of(tables, found))
        }
        _ => Lone::None,
    }
}

fn is_congruous(tables: &mut Tables, heading: u32, callee: Callee) -> bool
    ensures answer { result ≡ is_congruous tables.old heading callee }
    ensures same { tables.new ≡ tables.old }
{
    match callee {
        Callee::Unknown => true,
        Callee::Routine { heading: other, .. } => tables.congruous(heading, other),
        Callee::Formal { heading: other, .. } => tables.congruous(heading, other),
        _ => false,
    }
}

fn routine_item(callee: Callee) -> Option<ItemRow>
    ensures { result ≡ routine_item callee }
{
    match callee {
        Callee::Routine {
            routine,
            levels,
            ..
        } => Some(ItemRow::Routine {
            routine,
            levels,
            next: LIST_END,
        }),
        Callee::Formal { formal, levels, .. } => Some(ItemRow::RoutineFormal {
            formal,
            levels,
            next: LIST_END,
        }),
        _ => None,
    }
}

/// What is passed to a routine parameter.
#[tactic(auto, using(check_steps::proofs::Runs::steps), unfolding(crate::specs::Actuals::routine_argued))]
pub(crate) fn check_routine(work: &mut Work, name: u32, heading: u32, frame: u32) -> Argument
    ensures { Does (routine_argued frame name heading) result work.old work.new }
{
    let found = work.use_again(frame, name);
    let callee = callee_of(&work.tables, frame, found);
    let fine = is_congruous(&mut work.tables, heading, callee);
    work.late(29, name, fine);
    Argument {
        item: routine_item(callee),
        of: ExpressionType::Unknown,
        value: unknown_at(name),
    }
}

fn is_input(file: TextFile) -> bool
    ensures { result ≡ is_input file }
{
    match file {
        TextFile::Input => true,
        TextFile::Output => false,
    }
}

/// The text file of which eof and eoln ask.
#[tactic(auto, using(check_steps::proofs::Runs::steps), unfolding(crate::specs::Actuals::file_argued))]
pub(crate) fn check_file(work: &mut Work, name: u32, file: TextFile) -> Argument
    ensures { Does (file_argued name file) result work.old work.new }
{
    work.late(32, name, is_input(file));
    Argument {
        item: None,
        of: ExpressionType::Unknown,
        value: unknown_at(name),
    }
}

/// What may be a name alone is passed to a formal parameter.
#[tactic(auto, using(check_steps::proofs::Runs::steps))]
pub(crate) fn check_threat_by(
    work: &mut Work,
    frame: u32,
    formal: ExpectedFormal,
    name: Option<u32>,
)
    ensures { Does (threat_by frame formal name) tt work.old work.new }
{
    match formal {
        ExpectedFormal::Variable(_) => check_threat_alone(work, frame, name),
        ExpectedFormal::Array { copied: false, .. } => check_threat_alone(work, frame, name),
        _ => {}
    }
}

#[tactic(auto, using(check_steps::proofs::Runs::steps))]
fn put_if_any(work: &mut Work, last: u32, slot: u32, item: Option<ItemRow>) -> u32
    ensures { Does (item_if_any last slot item) result work.old work.new }
{
    match item {
        None => last,
        Some(item) => put_item(work, last, slot, item),
    }
}

/// One more actual parameter of a list, at a slot.
#[tactic(auto, using(check_steps::proofs::Runs::steps), unfolding(crate::specs::Actuals::passed))]
pub(crate) fn check_passed(
    work: &mut Work,
    passing: Passing,
    slot: u32,
    argument: Argument,
) -> Passing
    ensures { Does (passed passing slot argument) result work.old work.new }
{
    let last = put_if_any(work, passing.last, slot, argument.item);
    let formals = formals_after(&work.tables, passing.formals, argument.of);
    Passing {
        last,
        formals,
        value: argument.value,
    }
}
