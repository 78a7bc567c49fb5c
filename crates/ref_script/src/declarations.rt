//! A line of a graph text, read as a root or as an object and what it refers to.

ghost use Rattle.std.specs.Prelude.{◌≡◌, ℕ, List, Option, [], ◌∷◌, Some, false, codes, IfOk, IfErr, MatchResult};
ghost use Rattle.ref_script.specs.Declarations.{SpellsObject, SpellsObjectOrNone, SpellsDeclared};
ghost use Rattle.ref_base.specs.Steps.{strength_name};
ghost use Rattle.ref_script.specs.DeclarationFaults.{is_object, is_object_or_none, words_fault, declaration_fault};
ghost use Rattle.ref_script.specs.DeclarationViews.{declared_by, ReadsFields, IsBadField};
ghost use Rattle.ref_script.specs.Lines.{words_of};

use crate::lines::{is_name, next_word};
use crate::numerals::{Numeral, next_numeral};
use crate::operands::ends;
use arrayvec::ArrayVec;
use ref_base::{MOST_FIELDS, ObjNo, Strength};
use ref_text::LineFault;

/// The fields of an object, kept in place.
pub type Fields = ArrayVec<Option<ObjNo>, MOST_FIELDS>;

/// What a line of a graph text says, but for the fields of its object.
#[derive(Clone, Copy)]
pub enum Declaration {
    /// A program reaches the object of this number by itself.
    Root {
        no: ObjNo,
    },
    /// A plain object.
    Plain {
        no: ObjNo,
    },
    /// A soft, weak or phantom reference.
    Reference {
        no: ObjNo,
        strength: Strength,
        referent: Option<ObjNo>,
    },
}

/// What a line says, or the first of its faults by kind. The fields of its object come in the place of those of a line
/// before.
pub fn declaration_of(line: &[u8], fields: &mut Fields) -> Result<Declaration, LineFault>
    ensures found { IfOk result (λ d. SpellsDeclared (words_of line.now) (declared_by d fields.new.items)) }
    ensures fault { IfErr result (λ fault. declaration_fault (words_of line.now) ≡ Some fault) }
{
    let (name, operands) = next_word(line).ok_or(LineFault::UnknownLine)?;
    if is_name(name, b"root") {
        return root_of(operands);
    }
    if is_name(name, b"plain") {
        return plain_of(operands, fields);
    }
    if is_name(name, b"soft") {
        return reference_of(Strength::Soft, operands, fields);
    }
    if is_name(name, b"weak") {
        return reference_of(Strength::Weak, operands, fields);
    }
    if is_name(name, b"phantom") {
        return reference_of(Strength::Phantom, operands, fields);
    }
    Err(LineFault::UnknownLine)
}

fn root_of(operands: &[u8]) -> Result<Declaration, LineFault>
    ensures found { IfOk result (λ d. (fields : List (Option ℕ)) → SpellsDeclared
        (codes "root" ∷ words_of operands.now) (declared_by d fields)) }
    ensures fault { IfErr result (λ fault. words_fault 1 0 (words_of operands.now) ≡ Some fault) }
{
    let (no, rest) = number_operand(operands)?;
    let no = object_of(no)?;
    ends(rest)?;
    Ok(Declaration::Root { no })
}

fn plain_of(operands: &[u8], fields: &mut Fields) -> Result<Declaration, LineFault>
    ensures found { IfOk result (λ d. SpellsDeclared (codes "plain" ∷ words_of operands.now)
        (declared_by d fields.new.items)) }
    ensures fault { IfErr result (λ fault. words_fault 1 8 (words_of operands.now) ≡ Some fault) }
{
    let (no, rest) = number_operand(operands)?;
    let no = object_of(no)?;
    let rest = read_fields(rest, fields)?;
    ends(rest)?;
    Ok(Declaration::Plain { no })
}

fn reference_of(
    strength: Strength,
    operands: &[u8],
    fields: &mut Fields,
) -> Result<Declaration, LineFault>
    ensures found { IfOk result (λ d. SpellsDeclared (strength_name strength ∷ words_of operands.now)
        (declared_by d fields.new.items)) }
    ensures fault { IfErr result (λ fault. words_fault 2 8 (words_of operands.now) ≡ Some fault) }
{
    let (no, rest) = number_operand(operands)?;
    let (referent, rest) = number_operand(rest)?;
    let no = object_of(no)?;
    let referent = object_or_none_of(referent)?;
    let rest = read_fields(rest, fields)?;
    ends(rest)?;
    Ok(Declaration::Reference {
        no,
        strength,
        referent,
    })
}

/// Reads the fields that the first words spell, at most 8 of them, in the place of what was read before. Answers the
/// line behind them.
fn read_fields<'a>(operands: &'a [u8], fields: &mut Fields) -> Result<&'a [u8], LineFault>
    ensures found { IfOk result (λ rest. ReadsFields (words_of operands.now) fields.new.items (words_of rest.now)) }
    ensures fault { IfErr result (IsBadField (words_of operands.now)) }
{
    fields.clear();
    let mut rest = operands;
    while fields.len() < MOST_FIELDS {
        let Some((numeral, behind)) = next_numeral(rest) else {
            break;
        };
        fields.push(object_or_none_of(numeral)?);
        rest = behind;
    }
    Ok(rest)
}

/// The next operand with its number, and the line behind it.
fn number_operand(line: &[u8]) -> Result<(Numeral<'_>, &[u8]), LineFault>
    ensures { MatchResult result (λ r. words_of line.now ≡ r.0.word.now ∷ words_of r.1.now)
        (λ fault. (words_of line.now ≡ []) × (fault ≡ LineFault.MissingWord)) }
{
    next_numeral(line).ok_or(LineFault::MissingWord)
}

/// The object's number that a word spells.
fn object_of(numeral: Numeral<'_>) -> Result<ObjNo, LineFault>
    ensures { MatchResult result (λ n. SpellsObject numeral.entry.word.now n)
        (λ fault. (is_object numeral.entry.word.now ≡ false) × (fault ≡ LineFault.BadWord)) }
{
    match numeral.number {
        Some(number) if number > 0 => Ok(ObjNo(number)),
        _ => Err(LineFault::BadWord),
    }
}

/// The object's number that a word spells, or `None` where it is `-`.
fn object_or_none_of(numeral: Numeral<'_>) -> Result<Option<ObjNo>, LineFault>
    ensures { MatchResult result (λ n. SpellsObjectOrNone numeral.entry.word.now n)
        (λ fault. (is_object_or_none numeral.entry.word.now ≡ false) × (fault ≡ LineFault.BadWord)) }
{
    if is_name(numeral.word, b"-") {
        return Ok(None);
    }
    Ok(Some(object_of(numeral)?))
}
