//! The pairs of types that have to match so that one pair does, each looked at once.

ghost use Rattle.std.specs.Prelude.{◌≡◌, IfOk, OnOk, Some, length, slice_get};
ghost use Rattle.std.specs.{HashMap.get, Map.update};
ghost use Rattle.reference_oracle.specs.{PairsKept.ArePairs, PairsOfTypes.same_pair, PartsKept.AreBothParts};
ghost use Rattle.reference_oracle.specs.{Shapes.programs, Shapes.same_shape, declared.parts.TypePair.TypePair};
ghost use Rattle.reference_oracle.specs.PairsOfTypes.{AreInside, AreNoted, AreNumbers, Extends, StandAt, pairs_in};

use crate::levels::{add_levels, is_within, level_at, settle};
use crate::parts::{BothParts, TypePair};
use crate::shapes::pairs_inside;
use cell_value::Memory;
use core_program::Program;
use std::alloc::{AllocError, Global};
use std::collections::HashMap;

/// Notes the number of a pair.
fn note(known: &mut HashMap<TypePair, u32>, pair: TypePair, number: u32) -> Result<(), Memory>
    ensures { OnOk result ((q : TypePair) → get same_pair known.new q
        ≡ update same_pair (get same_pair known.old) pair (Some number) q) }
{
    known.insert(pair, number)?;
    Ok(())
}

/// The number of a pair in the list of pairs: the one that it has, or else the next, at which it then stands.
fn number_of(
    pairs: &mut Vec<TypePair>,
    known: &mut HashMap<TypePair, u32>,
    pair: TypePair,
) -> Result<u32, Memory>
    requires numbers { AreNumbers (get same_pair known.old) pairs.old.items }
    ensures there { IfOk result (λ n. slice_get pairs.new.items n ≡ Some pair) }
    ensures more { OnOk result (Extends pairs.old.items pairs.new.items) }
    ensures numbers { OnOk result (AreNumbers (get same_pair known.new) pairs.new.items) }
{
    let found = known.get(&pair).copied();
    match found {
        Some(number) => Ok(number),
        None => {
            let Ok(number) = u32::try_from(pairs.len()) else {
                return Err(AllocError);
            };
            note(known, pair, number)?;
            pairs.push(pair)?;
            Ok(number)
        }
    }
}

/// The numbers of these pairs.
fn numbers_of(
    alloc: Global,
    pairs: &mut Vec<TypePair>,
    known: &mut HashMap<TypePair, u32>,
    inside: &[TypePair],
) -> Result<Vec<u32>, Memory>
    requires numbers { AreNumbers (get same_pair known.old) pairs.old.items }
    ensures stand { IfOk result (λ ns. StandAt pairs.new.items ns.items inside.now) }
    ensures more { OnOk result (Extends pairs.old.items pairs.new.items) }
    ensures numbers { OnOk result (AreNumbers (get same_pair known.new) pairs.new.items) }
{
    let mut numbers = Vec::new(alloc);
    'each: for i in 0..inside.len() {
        let number = number_of(pairs, known, inside[i])?;
        numbers.push(number)?;
    }
    Ok(numbers)
}

/// The numbers of the pairs inside of one, if there are any.
fn inside_of(
    alloc: Global,
    pairs: &mut Vec<TypePair>,
    known: &mut HashMap<TypePair, u32>,
    inside: Option<Vec<TypePair>>,
) -> Result<Option<Vec<u32>>, Memory>
    requires numbers { AreNumbers (get same_pair known.old) pairs.old.items }
    ensures inside { IfOk result (λ ns. AreInside pairs.new.items ns (pairs_in inside)) }
    ensures more { OnOk result (Extends pairs.old.items pairs.new.items) }
    ensures numbers { OnOk result (AreNumbers (get same_pair known.new) pairs.new.items) }
{
    match inside {
        None => Ok(None),
        Some(inside) => {
            let numbers = numbers_of(alloc, pairs, known, &inside)?;
            Ok(Some(numbers))
        }
    }
}

/// Of each pair from the first without on, the numbers of those inside of it. More of them than can be counted are out
/// of memory.
fn look_inside(
    alloc: Global,
    subject: &Program,
    reference: &Program,
    parts: &BothParts,
    list: &mut Vec<TypePair>,
    known: &mut HashMap<TypePair, u32>,
    inside: &mut Vec<Option<Vec<u32>>>,
) -> Result<(), Memory>
    requires parts { AreBothParts (programs subject.now reference.now) parts.now }
    requires numbers { AreNumbers (get same_pair known.old) list.old.items }
    requires noted { AreNoted (programs subject.now reference.now) list.old.items inside.old.items }
    ensures noted { OnOk result (AreNoted (programs subject.now reference.now) list.new.items inside.new.items) }
    ensures all { OnOk result (length inside.new.items ≡ length list.new.items) }
    ensures more { OnOk result (Extends list.old.items list.new.items) }
    ensures numbers { OnOk result (AreNumbers (get same_pair known.new) list.new.items) }
{
    'pairs: for at in inside.len()..usize::MAX {
        if at >= list.len() {
            return Ok(());
        }
        let found = pairs_inside(alloc, subject, reference, parts, list[at])?;
        let numbers = inside_of(alloc, list, known, found)?;
        inside.push(numbers)?;
    }
    Err(AllocError)
}

/// The pairs of types that were looked at: all that one of them leads to are among them.
#[derive(Drop)]
pub(crate) struct Pairs {
    parts: BothParts,
    list: Vec<TypePair>,
    known: HashMap<TypePair, u32>,
    // Of each pair the numbers of those inside of it, if it can match.
    inside: Vec<Option<Vec<u32>>>,
    // Of each pair its level, if it matches.
    levels: Vec<Option<u32>>,
}

impl Pairs {
    /// None so far.
    pub(crate) fn new(alloc: Global, subject: &Program, reference: &Program) -> Result<Self, Memory>
        ensures { IfOk result (ArePairs (programs subject.now reference.now)) }
    {
        let parts = BothParts::of(alloc, subject, reference)?;
        Ok(Pairs {
            parts,
            list: Vec::new(alloc),
            known: HashMap::new(alloc),
            inside: Vec::new(alloc),
            levels: Vec::new(alloc),
        })
    }

    /// The number of a pair, which is looked at, with all that it leads to, if it was not before.
    fn look_at(
        &mut self,
        alloc: Global,
        subject: &Program,
        reference: &Program,
        pair: TypePair,
    ) -> Result<u32, Memory>
        requires pairs { ArePairs (programs subject.now reference.now) self.old }
        ensures there { IfOk result (λ n. slice_get self.new.list.items n ≡ Some pair) }
        ensures pairs { OnOk result (ArePairs (programs subject.now reference.now) self.new) }
    {
        let start = self.inside.len();
        let number = number_of(&mut self.list, &mut self.known, pair)?;
        look_inside(
            alloc,
            subject,
            reference,
            &self.parts,
            &mut self.list,
            &mut self.known,
            &mut self.inside,
        )?;
        add_levels(&mut self.levels, self.inside.len())?;
        settle(alloc, &mut self.levels, &self.inside, start, number)?;
        Ok(number)
    }

    /// Whether a type of the subject and one of the reference have one shape.
    pub(crate) fn same_shape(
        &mut self,
        alloc: Global,
        subject: &Program,
        reference: &Program,
        a: u32,
        b: u32,
    ) -> Result<bool, Memory>
        requires pairs { ArePairs (programs subject.now reference.now) self.old }
        ensures same { IfOk result (λ same. same ≡ same_shape (programs subject.now reference.now) a b) }
        ensures pairs { OnOk result (ArePairs (programs subject.now reference.now) self.new) }
    {
        let pair = TypePair {
            subject: a,
            reference: b,
        };
        let number = self.look_at(alloc, subject, reference, pair)?;
        Ok(is_within(subject.rows(), level_at(&self.levels, number)))
    }
}
