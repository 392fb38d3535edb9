//! Control variables of for statements, their threats, and bounds (6.8.3.9).

ghost use Rattle.std.specs.Prelude.{◌≡◌, IfOk};
ghost use Rattle.check_steps.specs.Steps.{Does};
ghost use Rattle.statement_checker.specs.Loops.{bound, control_at, control_in, control_of, control_type};
ghost use Rattle.statement_checker.specs.Loops.{control_type_number, controlled, direction_of, enter_for, for_row};
ghost use Rattle.statement_checker.specs.Loops.{held, held_by, hold_if, is_own, is_variable, leave_for, own_if};
ghost use Rattle.statement_checker.specs.Loops.{place_of, put_turns, release_if, unthreatened};

use crate::sequences::{line_of, put_statement};
use check_steps::{Found, Tables, Work};
use core_program::rows::{Direction, Mode, NameRow, Row, StatementRow};
use expression_checker::Typed;
use expression_checker::threats::check_threat;
use kind_checker::ExpressionType;
use kind_checker::operators::is_ordinal;
use kind_checker::shapes::{agree, shape_of};
use pas_tree::direction_token;
use pas_tree::operators::Direction as DirectionTree;
use std::alloc::AllocError;

/// What a name stands for as a control variable.
#[derive(Clone, Copy)]
pub enum Control {
    /// Nothing that is known.
    Unknown,
    /// No variable.
    Wrong,
    /// A variable of the closest block's variable part: the token of its definition, its type, and its place in the
    /// frame.
    Own { variable: u32, of: u32, place: u32 },
    /// A parameter or a variable of a block around, by the token of its definition, or a field; and its type.
    Other { variable: Option<u32>, of: u32 },
}

fn own_if(own: bool, variable: u32, of: u32, place: u32) -> Control
    ensures { result ≡ own_if own variable of place }
{
    if own {
        Control::Own {
            variable,
            of,
            place,
        }
    } else {
        Control::Other {
            variable: Some(variable),
            of,
        }
    }
}

fn control_in(tables: &Tables, frame: u32, name: u32, row: Row) -> Control
    ensures { result ≡ control_in tables.now frame name row }
{
    match row {
        Row::Name(
            NameRow::Variable {
                mode,
                of,
                place,
                level,
            },
        ) => match mode {
            Mode::Own => own_if(level == tables.frame(frame).level, name, of, place),
            _ => Control::Other {
                variable: Some(name),
                of,
            },
        },
        Row::Name(NameRow::Field { of, .. }) => Control::Other { variable: None, of },
        Row::Name(NameRow::Tag { of, .. }) => Control::Other { variable: None, of },
        _ => Control::Wrong,
    }
}

fn control_of(tables: &Tables, frame: u32, found: Option<Found>) -> Control
    ensures { result ≡ control_of tables.now frame found }
{
    match found {
        None => Control::Unknown,
        Some(found) => {
            let name = found.definition.token;
            control_in(tables, frame, name, tables.row(name))
        }
    }
}

fn control_type(control: Control) -> ExpressionType
    ensures { result ≡ control_type control }
{
    match control {
        Control::Own { of, .. } => ExpressionType::Of(of),
        Control::Other { of, .. } => ExpressionType::Of(of),
        _ => ExpressionType::Unknown,
    }
}

fn is_variable(control: Control) -> bool
    ensures { result ≡ is_variable control }
{
    match control {
        Control::Wrong => false,
        _ => true,
    }
}

fn is_own(control: Control) -> bool
    ensures { result ≡ is_own control }
{
    match control {
        Control::Unknown => true,
        Control::Own { .. } => true,
        _ => false,
    }
}

#[tactic(auto, using(check_steps::proofs::Runs::steps), unfolding(crate::specs::Loops::controlled))]
fn check_controlled(work: &mut Work, name: u32, control: Control)
    ensures { Does (controlled name control) tt work.old work.new }
{
    let ordinal = is_ordinal(shape_of(&work.tables, control_type(control)));
    work.late(6, name, ordinal);
    work.late(19, name, is_own(control));
}

#[tactic(auto, using(check_steps::proofs::Runs::steps), unfolding(crate::specs::Loops::control_at))]
fn check_control(work: &mut Work, frame: u32, name: u32) -> Control
    ensures { Does (control_at frame name) result work.old work.new }
{
    let found = work.use_again(frame, name);
    let control = control_of(&work.tables, frame, found);
    work.late(3, name, is_variable(control));
    check_controlled(work, name, control);
    check_threat(work, frame, name);
    control
}

fn held_by(control: Control) -> Option<u32>
    ensures { result ≡ held_by control }
{
    match control {
        Control::Own { variable, .. } => Some(variable),
        Control::Other { variable, .. } => variable,
        _ => None,
    }
}

#[tactic(auto, using(check_steps::proofs::Runs::steps))]
fn check_unthreatened(work: &mut Work, first: Option<u32>)
    ensures { Does (unthreatened first) tt work.old work.new }
{
    match first {
        None => {}
        Some(name) => work.late(20, name, false),
    }
}

#[tactic(auto, using(check_steps::proofs::Runs::steps), unfolding(crate::specs::Loops::held))]
fn hold_variable(work: &mut Work, variable: u32) -> Result<(), AllocError>
    ensures { IfOk result (λ _. Does (held variable) tt work.old work.new) }
{
    let first = work.threat(variable);
    check_unthreatened(work, first);
    work.hold(variable)?;
    Ok(())
}

#[tactic(auto, using(check_steps::proofs::Runs::steps))]
fn hold_if(work: &mut Work, variable: Option<u32>) -> Result<(), AllocError>
    ensures { IfOk result (λ _. Does (hold_if variable) tt work.old work.new) }
{
    match variable {
        None => Ok(()),
        Some(variable) => {
            hold_variable(work, variable)?;
            Ok(())
        }
    }
}

#[tactic(auto, using(check_steps::proofs::Runs::steps))]
fn release_if(work: &mut Work, variable: Option<u32>)
    ensures { Does (release_if variable) tt work.old work.new }
{
    match variable {
        None => {}
        Some(_) => work.release(),
    }
}

/// Goes into a for statement, of which the bounds are inside: the control variable at its name is given.
#[tactic(auto, using(check_steps::proofs::Runs::steps), unfolding(crate::specs::Loops::enter_for))]
pub fn enter_for(work: &mut Work, frame: u32, name: u32) -> Result<Control, AllocError>
    ensures { IfOk result (λ c. Does (enter_for frame name) c work.old work.new) }
{
    let control = check_control(work, frame, name);
    hold_if(work, held_by(control))?;
    Ok(control)
}

/// Goes out of a for statement with this control variable.
pub fn leave_for(work: &mut Work, control: Control)
    ensures { Does (leave_for control) tt work.old work.new }
{
    release_if(work, held_by(control));
}

/// A bound of a for statement, which begins at a first token.
#[tactic(auto, using(check_steps::proofs::Runs::steps), unfolding(crate::specs::Loops::bound))]
pub fn check_bound(work: &mut Work, control: Control, first: u32, value: Typed)
    ensures { Does (bound control first value) tt work.old work.new }
{
    let shape = shape_of(&work.tables, control_type(control));
    let fine = agree(shape, shape_of(&work.tables, value.of));
    work.late(21, first, fine);
}

fn direction_of(direction: &DirectionTree) -> Direction
    ensures { result ≡ direction_of direction.now }
{
    match direction {
        DirectionTree::To(_) => Direction::Up,
        DirectionTree::Downto(_) => Direction::Down,
    }
}

fn place_of(control: Control) -> u32
    ensures { result ≡ place_of control }
{
    match control {
        Control::Own { place, .. } => place,
        _ => 0,
    }
}

fn control_type_number(control: Control) -> u32
    ensures { result ≡ control_type_number control }
{
    match control {
        Control::Own { of, .. } => of,
        Control::Other { of, .. } => of,
        _ => 0,
    }
}

/// The turns of a for statement, at `to` or `downto`: up or down to a last value, with a body.
#[tactic(auto, using(check_steps::proofs::Runs::steps), unfolding(crate::specs::Loops::put_turns))]
pub fn put_turns(
    work: &mut Work,
    direction: &DirectionTree,
    last: u32,
    control: Control,
    body: u32,
) -> u32
    ensures { Does (put_turns direction.now last control body) result work.old work.new }
{
    let row = StatementRow::Turns {
        direction: direction_of(direction),
        last,
        place: place_of(control),
        of: control_type_number(control),
        body,
    };
    put_statement(work, direction_token(direction), row)
}

/// A for statement, at its word: its first value and its turns.
#[tactic(auto, using(check_steps::proofs::Runs::steps), unfolding(crate::specs::Loops::for_row))]
pub fn put_for(work: &mut Work, label: Option<u32>, word: u32, initial: u32, turns: u32) -> u32
    ensures { Does (for_row label word initial turns) result work.old work.new }
{
    let line = line_of(&work.tables, label, word);
    let row = StatementRow::For {
        line,
        initial,
        turns,
    };
    put_statement(work, word, row)
}
