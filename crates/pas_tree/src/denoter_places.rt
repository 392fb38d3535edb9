//! Where constants and type denoters begin.

ghost use Rattle.std.specs.Prelude.{◌≡◌};
ghost use Rattle.pas_tree.specs.DenoterPlaces.{first_of_constant, first_of_denoter, first_of_signed};
ghost use Rattle.pas_tree.specs.DenoterPlaces.{first_of_structure};
ghost use Rattle.pas_tree.specs.DenoterTrees.{denoter_tree, structure_tree};

use crate::constants::Constant;
use crate::denoters::{Denoter, Structure};
use crate::operator_places::sign_token;
use crate::operators::Sign;

/// The token of the sign, or else this one.
pub(crate) fn first_of_signed(sign: &Option<Sign>, token: u32) -> u32
    ensures { result ≡ first_of_signed sign.now token }
{
    match sign {
        None => token,
        Some(sign) => sign_token(sign),
    }
}

/// The first token of a constant.
pub fn first_of_constant(constant: &Constant) -> u32
    ensures { result ≡ first_of_constant constant.now }
{
    match constant {
        Constant::Number(sign, token) => first_of_signed(sign, *token),
        Constant::Name(sign, token) => first_of_signed(sign, *token),
        Constant::Text(token) => *token,
    }
}

/// The first token of what is structured, the word `packed` aside.
#[tactic(auto, using(crate::proofs::DenoterViews::array_view))]
pub fn first_of_structure(structure: &Structure) -> u32
    ensures { result ≡ first_of_structure (structure_tree structure.now) }
{
    match structure {
        Structure::Array(array) => array.word,
        Structure::Record(record) => record.word,
        Structure::Set(set) => set.word,
    }
}

/// The first token of a type denoter.
pub fn first_of_denoter(denoter: &Denoter) -> u32
    ensures { result ≡ first_of_denoter (denoter_tree denoter.now) }
{
    match denoter {
        Denoter::Name(token) => *token,
        Denoter::Enumeration(enumeration) => enumeration.open,
        Denoter::Subrange(first, _, _) => first_of_constant(first),
        Denoter::Pointer(caret, _) => *caret,
        Denoter::Structure(packed, structure) => match packed {
            Some(packed) => *packed,
            None => first_of_structure(structure),
        },
    }
}
