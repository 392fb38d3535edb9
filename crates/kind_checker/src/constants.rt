//! Constants (6.3).

ghost use Rattle.std.specs.Prelude.{◌≡◌, IfOk};
ghost use Rattle.pas_tree.specs.BlockTrees.{constant_part_tree};
ghost use Rattle.check_steps.specs.{Known.spelled_at, Steps.Does, Steps.each};
ghost use Rattle.kind_checker.specs.Constants.{constant, constant_again, constant_part, constants_in, define_constant};
ghost use Rattle.kind_checker.specs.Constants.{integer_in, is_constant, is_integer, named_again, named_constant};
ghost use Rattle.kind_checker.specs.Constants.{opposite, sign_again, sign_before, signed, signed_again, signed_value};
ghost use Rattle.kind_checker.specs.Constants.{text_value, value_in, value_of, value_row, with_sign};

use check_steps::{Def, Definition, Found, Spelled, Tables, Work};
use core_program::rows::{CHAR, INTEGER, NameRow, Row};
use pas_tree::blocks::{ConstantDefinition, ConstantPart};
use pas_tree::constants::Constant;
use pas_tree::operators::Sign;
use pas_tree::sign_token;
use std::alloc::AllocError;

/// What a constant stands for.
#[derive(Clone, Copy, PartialEq, Eq)]
pub enum ConstantValue {
    /// An ordinal of a host type.
    Ordinal { of: u32, value: i32 },
    /// The string that this token spells, of at least two characters.
    Text { token: u32 },
}

fn is_integer(value: Option<ConstantValue>) -> bool
    ensures { result ≡ is_integer value }
{
    match value {
        None => true,
        Some(ConstantValue::Ordinal { of, .. }) => of == INTEGER,
        Some(ConstantValue::Text { .. }) => false,
    }
}

fn opposite(value: i32) -> i32
    ensures { result ≡ opposite value }
{
    if value > i32::MIN { -value } else { value }
}

fn with_sign(sign: &Sign, value: i32) -> i32
    ensures { result ≡ with_sign sign.now value }
{
    match sign {
        Sign::Plus(_) => value,
        Sign::Minus(_) => opposite(value),
    }
}

fn signed_value(sign: &Sign, value: Option<ConstantValue>) -> Option<ConstantValue>
    ensures { result ≡ signed_value sign.now value }
{
    match value {
        Some(ConstantValue::Ordinal { of, value }) => {
            if of == INTEGER {
                Some(ConstantValue::Ordinal {
                    of,
                    value: with_sign(sign, value),
                })
            } else {
                None
            }
        }
        _ => None,
    }
}

#[tactic(auto, using(check_steps::proofs::Runs::steps), unfolding(crate::specs::Constants::sign_before))]
fn check_sign_before(
    work: &mut Work,
    sign: &Sign,
    value: Option<ConstantValue>,
) -> Option<ConstantValue>
    ensures { Does (sign_before sign.now value) result work.old work.new }
{
    work.early(4, sign_token(sign), is_integer(value));
    signed_value(sign, value)
}

#[tactic(auto, using(check_steps::proofs::Runs::steps))]
fn check_signed(
    work: &mut Work,
    sign: &Option<Sign>,
    value: Option<ConstantValue>,
) -> Option<ConstantValue>
    ensures { Does (signed sign.now value) result work.old work.new }
{
    match sign {
        None => value,
        Some(sign) => check_sign_before(work, sign, value),
    }
}

fn integer_in(spelled: Spelled) -> Option<ConstantValue>
    ensures { result ≡ integer_in spelled }
{
    match spelled {
        Spelled::Number(n) => {
            if n <= 2_147_483_647 {
                Some(ConstantValue::Ordinal {
                    of: INTEGER,
                    value: n as i32,
                })
            } else {
                None
            }
        }
        _ => None,
    }
}

/// What a string of these characters stands for.
fn text_value(token: u32, text: &[u8]) -> ConstantValue
    ensures { result ≡ text_value token text.now }
{
    match text {
        [c] => ConstantValue::Ordinal {
            of: CHAR,
            value: i32::from(*c),
        },
        _ => ConstantValue::Text { token },
    }
}

fn is_constant(found: Option<Found>) -> bool
    ensures { result ≡ is_constant found }
{
    match found {
        None => true,
        Some(found) => match found.definition.def {
            Def::Constant(_) => true,
            _ => false,
        },
    }
}

fn value_in(row: Row) -> Option<ConstantValue>
    ensures { result ≡ value_in row }
{
    match row {
        Row::Name(NameRow::Constant { of, value }) => Some(ConstantValue::Ordinal { of, value }),
        Row::Name(NameRow::Text { token }) => Some(ConstantValue::Text { token }),
        _ => None,
    }
}

fn value_of(tables: &Tables, found: Option<Found>) -> Option<ConstantValue>
    ensures { result ≡ value_of tables.now found }
{
    match found {
        None => None,
        Some(found) => value_in(tables.row(found.definition.token)),
    }
}

#[tactic(auto, using(check_steps::proofs::Runs::steps), unfolding(crate::specs::Constants::named_constant))]
fn check_named_constant(work: &mut Work, frame: u32, token: u32) -> Option<ConstantValue>
    ensures { Does (named_constant frame token) result work.old work.new }
{
    let found = work.use_at(frame, token, token);
    work.late(3, token, is_constant(found));
    value_of(&work.tables, found)
}

/// What a constant stands for, seen from a frame.
#[tactic(auto, using(check_steps::proofs::Runs::steps))]
pub fn check_constant(work: &mut Work, frame: u32, c: &Constant) -> Option<ConstantValue>
    ensures { Does (constant frame c.now) result work.old work.new }
{
    match c {
        Constant::Number(sign, token) => {
            let value = integer_in(work.tables.spelled(*token));
            check_signed(work, sign, value)
        }
        Constant::Name(sign, token) => {
            let value = check_named_constant(work, frame, *token);
            check_signed(work, sign, value)
        }
        Constant::Text(token) => Some(text_value(*token, work.tables.program().text(*token))),
    }
}

#[tactic(auto, using(check_steps::proofs::Runs::steps), unfolding(crate::specs::Constants::sign_again))]
fn check_sign_again(
    work: &mut Work,
    sign: &Sign,
    value: Option<ConstantValue>,
) -> Option<ConstantValue>
    ensures { Does (sign_again sign.now value) result work.old work.new }
{
    work.late(30, sign_token(sign), is_integer(value));
    signed_value(sign, value)
}

#[tactic(auto, using(check_steps::proofs::Runs::steps))]
fn check_signed_again(
    work: &mut Work,
    sign: &Option<Sign>,
    value: Option<ConstantValue>,
) -> Option<ConstantValue>
    ensures { Does (signed_again sign.now value) result work.old work.new }
{
    match sign {
        None => value,
        Some(sign) => check_sign_again(work, sign, value),
    }
}

#[tactic(auto, using(check_steps::proofs::Runs::steps), unfolding(crate::specs::Constants::named_again))]
fn check_named_again(work: &mut Work, frame: u32, token: u32) -> Option<ConstantValue>
    ensures { Does (named_again frame token) result work.old work.new }
{
    let found = work.use_again(frame, token);
    work.late(3, token, is_constant(found));
    value_of(&work.tables, found)
}

/// What a constant stands for, seen from a frame, if its name and its sign were looked at before.
#[tactic(auto, using(check_steps::proofs::Runs::steps))]
pub fn check_constant_again(work: &mut Work, frame: u32, c: &Constant) -> Option<ConstantValue>
    ensures { Does (constant_again frame c.now) result work.old work.new }
{
    match c {
        Constant::Number(sign, token) => {
            let value = integer_in(work.tables.spelled(*token));
            check_signed_again(work, sign, value)
        }
        Constant::Name(sign, token) => {
            let value = check_named_again(work, frame, *token);
            check_signed_again(work, sign, value)
        }
        Constant::Text(token) => Some(text_value(*token, work.tables.program().text(*token))),
    }
}

#[tactic(auto, unfolding(crate::specs::Constants::define_constant))]
fn define_constant(work: &mut Work, region: u32, d: &ConstantDefinition) -> Result<(), AllocError>
    ensures { IfOk result (λ _. Does (define_constant region tt d.now) tt work.old work.new) }
{
    let definition = Definition {
        def: Def::Constant(d.name),
        token: d.name,
        end: d.semicolon,
    };
    work.define_in(region, definition)
}

#[tactic(auto, using(check_steps::proofs::Runs::read_loops))]
fn define_more_constants(
    work: &mut Work,
    region: u32,
    parts: &[ConstantDefinition],
) -> Result<(), AllocError>
    ensures { IfOk result (λ _. Does (each (define_constant region) tt parts.now) tt work.old work.new) }
{
    'parts: for part in parts {
        define_constant(work, region, part)?;
    }
    Ok(())
}

/// Defines the constants of a part.
#[tactic(auto, using(check_steps::proofs::Runs::steps))]
pub fn define_constants(work: &mut Work, region: u32, part: &ConstantPart) -> Result<(), AllocError>
    ensures { IfOk result (λ _. Does (each (define_constant region) tt (constants_in (constant_part_tree part.now))) tt
        work.old work.new) }
{
    define_constant(work, region, &part.first)?;
    define_more_constants(work, region, &part.others)?;
    Ok(())
}

/// The row of a constant of this value.
fn value_row(value: Option<ConstantValue>) -> Row
    ensures { result ≡ value_row value }
{
    match value {
        None => Row::Nothing,
        Some(ConstantValue::Ordinal { of, value }) => Row::Name(NameRow::Constant { of, value }),
        Some(ConstantValue::Text { token }) => Row::Name(NameRow::Text { token }),
    }
}

#[tactic(auto, using(check_steps::proofs::Runs::steps), unfolding(crate::specs::Constants::constant_part))]
fn check_constant_part(work: &mut Work, frame: u32, part: &ConstantDefinition)
    ensures { Does (constant_part frame tt part.now) tt work.old work.new }
{
    let value = check_constant(work, frame, &part.constant);
    work.put(part.name, value_row(value));
}

#[tactic(auto, using(check_steps::proofs::Runs::read_loops))]
fn check_more_constants(work: &mut Work, frame: u32, parts: &[ConstantDefinition])
    ensures { Does (each (constant_part frame) tt parts.now) tt work.old work.new }
{
    'parts: for part in parts {
        check_constant_part(work, frame, part);
    }
}

/// What the constants of a part stand for.
#[tactic(auto, using(check_steps::proofs::Runs::steps))]
pub fn check_constants(work: &mut Work, frame: u32, part: &ConstantPart)
    ensures { Does (each (constant_part frame) tt (constants_in (constant_part_tree part.now))) tt work.old work.new }
{
    check_constant_part(work, frame, &part.first);
    check_more_constants(work, frame, &part.others);
}
