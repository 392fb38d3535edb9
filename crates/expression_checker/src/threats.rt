//! Threats of control variables (6.8.3.9).

ghost use Rattle.std.specs.Prelude.{◌≡◌};
ghost use Rattle.check_steps.specs.Steps.{Does};
ghost use Rattle.expression_checker.specs.Threats.{is_outer, threat, threat_alone, threat_to, threatened, whole_in};
ghost use Rattle.expression_checker.specs.Threats.{whole_of, whole_variable};

use check_steps::{Found, Tables, Work};
use core_program::rows::{NameRow, Row};

/// A variable or a parameter as a whole (6.5.2), for which a name alone stands.
#[derive(Clone, Copy)]
pub struct Whole {
    /// The token of its definition.
    pub variable: u32,
    /// How many blocks are around the one that declares it.
    pub level: u32,
}

fn whole_in(found: Found, row: Row) -> Option<Whole>
    ensures { result ≡ whole_in found row }
{
    match row {
        Row::Name(NameRow::Variable { level, .. }) => Some(Whole {
            variable: found.definition.token,
            level,
        }),
        _ => None,
    }
}

fn whole_of(tables: &Tables, found: Option<Found>) -> Option<Whole>
    ensures { result ≡ whole_of tables.now found }
{
    match found {
        None => None,
        Some(found) => whole_in(found, tables.row(found.definition.token)),
    }
}

/// The variable or parameter as a whole that a name alone stands for, seen from a frame.
pub fn whole_variable(tables: &Tables, frame: u32, name: u32) -> Option<Whole>
    ensures { result ≡ whole_variable tables.now frame name }
{
    whole_of(tables, tables.usable(frame, name, name))
}

fn is_outer(tables: &Tables, frame: u32, whole: Whole) -> bool
    ensures { result ≡ is_outer tables.now frame whole }
{
    whole.level < tables.frame(frame).level
}

#[tactic(auto, using(check_steps::proofs::Runs::steps), unfolding(crate::specs::Threats::threatened, check_steps::specs::Steps::when))]
fn check_threatened(work: &mut Work, frame: u32, name: u32, whole: Whole)
    ensures { Does (threatened frame name whole) tt work.old work.new }
{
    let held = work.tables.is_control(whole.variable);
    work.late(20, name, !held);
    let outer = is_outer(&work.tables, frame, whole);
    if outer {
        work.threaten(whole.variable, name);
    }
}

#[tactic(auto, using(check_steps::proofs::Runs::steps))]
fn check_threat_to(work: &mut Work, frame: u32, name: u32, whole: Option<Whole>)
    ensures { Does (threat_to frame name whole) tt work.old work.new }
{
    match whole {
        None => {}
        Some(whole) => check_threatened(work, frame, name, whole),
    }
}

/// A name alone, seen from a frame, threatens the variable or parameter that it stands for, if it does for one.
#[tactic(auto, using(check_steps::proofs::Runs::steps), unfolding(crate::specs::Threats::threat))]
pub fn check_threat(work: &mut Work, frame: u32, name: u32)
    ensures { Does (threat frame name) tt work.old work.new }
{
    work.come_to(frame);
    let whole = whole_variable(&work.tables, frame, name);
    check_threat_to(work, frame, name, whole);
}

/// The same of what may be a name alone.
#[tactic(auto, using(check_steps::proofs::Runs::steps))]
pub fn check_threat_alone(work: &mut Work, frame: u32, name: Option<u32>)
    ensures { Does (threat_alone frame name) tt work.old work.new }
{
    match name {
        None => {}
        Some(name) => check_threat(work, frame, name),
    }
}
