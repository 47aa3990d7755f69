ghost use Rattle.std.specs.Prelude.{◌≡◌, MatchOption, MatchResult};
ghost use Rattle.sl_top.specs.Reading.{SpellsOperator, SpellsTerm, SpellsTerms, SpellsChain, IsRead, NoneRead};

use crate::chain::{Chain, Term};
use crate::operator::Operator;
use crate::reading::fault::ReadFault;
use crate::reading::literal::literal;
use crate::reading::text::behind;
use sqlite_items::Items;
use std::alloc::Global;

/// The operator at the front, with its spaces.
fn operator(bytes: &[u8]) -> Option<(Operator, &[u8])>
    ensures { MatchOption result (NoneRead SpellsOperator bytes.now)
        (λ r. IsRead SpellsOperator bytes.now r.0 r.1.now) }
{
    if let Some(rest) = behind(bytes, b" + ") {
        return Some((Operator::Add, rest));
    }
    if let Some(rest) = behind(bytes, b" - ") {
        return Some((Operator::Sub, rest));
    }
    let rest = behind(bytes, b" * ")?;
    Some((Operator::Mul, rest))
}

// A term at the front, and the rest.
fn term(bytes: &[u8]) -> Option<(Term, &[u8])>
    ensures { MatchOption result (NoneRead SpellsTerm bytes.now)
        (λ r. IsRead SpellsTerm bytes.now r.0 r.1.now) }
{
    let (op, rest) = operator(bytes)?;
    let (literal, rest) = literal(rest)?;
    Some((Term { op, literal }, rest))
}

/// The terms up to the end of the line.
fn terms(alloc: Global, bytes: &[u8]) -> Result<(Items<Term>, &[u8]), ReadFault>
    ensures { MatchResult result (λ r. IsRead SpellsTerms bytes.now r.0 r.1.now)
        (λ e. e ≡ ReadFault.NotBuilt → NoneRead SpellsTerms bytes.now) }
{
    let mut terms = Items::new(alloc);
    let mut rest = bytes;
    'terms: while let Some((next, after)) = term(rest) {
        terms.push(next)?;
        rest = after;
    }
    match behind(rest, b")\n") {
        Some(after) => Ok((terms, after)),
        None => Err(ReadFault::NotBuilt),
    }
}

/// The chain up to the end of the line.
pub fn chain(alloc: Global, bytes: &[u8]) -> Result<(Chain, &[u8]), ReadFault>
    ensures { MatchResult result (λ r. IsRead SpellsChain bytes.now r.0 r.1.now)
        (λ e. e ≡ ReadFault.NotBuilt → NoneRead SpellsChain bytes.now) }
{
    let Some((first, rest)) = literal(bytes) else {
        return Err(ReadFault::NotBuilt);
    };
    let (rest, after) = terms(alloc, rest)?;
    Ok((Chain { first, rest }, after))
}
