//! What parts do with a local, put together.
#![tactic(auto, unfolding(crate::specs::Uses::either_way, crate::specs::Uses::negated, crate::specs::Uses::followed, crate::specs::Uses::chosen, crate::specs::Uses::looped, crate::specs::Uses::tried, crate::specs::Uses::tested, crate::specs::Uses::or_else, crate::specs::Uses::bound))]

ghost use Rattle.std.specs.Prelude.{◌≡◌, [], ◌∷◌, option_map, option_to_list};
ghost use Rattle.std.specs.Option.{unwrap_or};
ghost use Rattle.ty_flow.specs.Uses.{untouched, literal, either_way, negated, followed, chosen, both, one_of, in_order, looped, tried, tested, or_else, guarded, operated, stored, read, bound};

use crate::passage::{CasePassage, Passage};
use ty_prog::PrimOp;

/// The local isn't touched.
pub(crate) const UNTOUCHED: Passage = Passage {
    reads: false,
    on_true: false,
    on_false: false,
};

/// No way ends normally.
pub(crate) const LEAVES: Passage = Passage {
    reads: false,
    on_true: true,
    on_false: true,
};

/// A case that is never taken.
pub(crate) const NO_CASE: CasePassage = CasePassage {
    taken: LEAVES,
    failed: false,
};

/// A literal: no way gives the other value.
pub(crate) fn literal(b: bool) -> Passage
    ensures { result ≡ literal b }
{
    Passage {
        reads: false,
        on_true: !b,
        on_false: b,
    }
}

/// Parts whose values aren't that of the whole.
pub(crate) fn either_way(parts: Passage) -> Passage
    ensures { result ≡ either_way parts }
{
    let sets = parts.on_true && parts.on_false;
    Passage {
        reads: parts.reads,
        on_true: sets,
        on_false: sets,
    }
}

/// `!`.
pub(crate) fn negated(of: Passage) -> Passage
    ensures { result ≡ negated of }
{
    Passage {
        reads: of.reads,
        on_true: of.on_false,
        on_false: of.on_true,
    }
}

/// An operator, by what its operands do one after the other.
pub(crate) fn operated(op: PrimOp, parts: Passage) -> Passage
    ensures { result ≡ operated op parts }
{
    match op {
        PrimOp::Not => negated(parts),
        _ => either_way(parts),
    }
}

/// One after the other, which gives the value.
pub(crate) fn followed(one: Passage, next: Passage) -> Passage
    ensures { result ≡ followed one next }
{
    let sets = one.on_true && one.on_false;
    Passage {
        reads: one.reads || (!sets && next.reads),
        on_true: sets || next.on_true,
        on_false: sets || next.on_false,
    }
}

/// A condition, and what follows where it is true, and where it is false.
pub(crate) fn chosen(condition: Passage, one: Passage, other: Passage) -> Passage
    ensures { result ≡ chosen condition one other }
{
    Passage {
        reads: condition.reads
            || (!condition.on_true && one.reads)
            || (!condition.on_false && other.reads),
        on_true: (condition.on_true || one.on_true) && (condition.on_false || other.on_true),
        on_false: (condition.on_true || one.on_false) && (condition.on_false || other.on_false),
    }
}

/// Both of two conditions, as `&&`.
pub(crate) fn both(one: Passage, other: Passage) -> Passage
    ensures { result ≡ both one other }
{
    chosen(one, other, literal(false))
}

/// One of two conditions, as `||`.
pub(crate) fn one_of(one: Passage, other: Passage) -> Passage
    ensures { result ≡ one_of one other }
{
    chosen(one, literal(true), other)
}

/// No operand.
pub(crate) fn none() -> Passage
    ensures { result ≡ in_order [] }
{
    UNTOUCHED
}

/// One operand.
pub(crate) fn alone(only: Passage) -> Passage
    ensures { result ≡ in_order (only ∷ []) }
{
    either_way(only)
}

/// Two operands.
pub(crate) fn two(one: Passage, next: Passage) -> Passage
    ensures { result ≡ in_order (one ∷ next ∷ []) }
{
    either_way(followed(one, next))
}

/// Three operands.
pub(crate) fn three(one: Passage, next: Passage, last: Passage) -> Passage
    ensures { result ≡ in_order (one ∷ next ∷ last ∷ []) }
{
    either_way(followed(followed(one, next), last))
}

/// An operand that may be there.
pub(crate) fn printed(part: Option<Passage>) -> Passage
    ensures { result ≡ in_order (option_to_list (option_map (λ u. u) part)) }
{
    match part {
        Some(only) => alone(only),
        None => UNTOUCHED,
    }
}

/// A `finally` that may be there.
pub(crate) fn ended(last: Option<Passage>) -> Passage
    ensures { result ≡ unwrap_or last untouched }
{
    match last {
        Some(last) => last,
        None => UNTOUCHED,
    }
}

/// The condition, and while it is true the body and the condition again.
pub(crate) fn looped(condition: Passage, body: Passage) -> Passage
    ensures { result ≡ looped condition body }
{
    Passage {
        reads: condition.reads || (!condition.on_true && body.reads),
        on_true: condition.on_false,
        on_false: condition.on_false,
    }
}

/// The body, or a part of it and then the handler; and on each way the `finally`.
pub(crate) fn tried(body: Passage, handler: Passage, last: Passage) -> Passage
    ensures { result ≡ tried body handler last }
{
    let sets = (body.on_true && body.on_false && handler.on_true && handler.on_false)
        || (last.on_true && last.on_false);
    Passage {
        reads: body.reads || handler.reads || last.reads,
        on_true: sets,
        on_false: sets,
    }
}

/// A pattern, and its guard if it has one.
pub(crate) fn guarded(pattern: Passage, guard: Option<Passage>) -> Passage
    ensures { result ≡ guarded pattern guard }
{
    match guard {
        Some(guard) => both(pattern, guard),
        None => pattern,
    }
}

/// A case: what decides whether it is taken, and its body.
pub(crate) fn tested(test: Passage, body: Passage) -> CasePassage
    ensures { result ≡ tested test body }
{
    CasePassage {
        taken: chosen(test, body, LEAVES),
        failed: test.on_false,
    }
}

/// A case, and another where it isn't taken.
pub(crate) fn or_else(one: CasePassage, other: CasePassage) -> CasePassage
    ensures { result ≡ or_else one other }
{
    let taken = Passage {
        reads: one.taken.reads || (!one.failed && other.taken.reads),
        on_true: one.taken.on_true && (one.failed || other.taken.on_true),
        on_false: one.taken.on_false && (one.failed || other.taken.on_false),
    };
    CasePassage {
        taken,
        failed: one.failed || other.failed,
    }
}

/// A local is stored into.
pub(crate) fn stored(local: u32, other: u32) -> Passage
    ensures { result ≡ stored local other }
{
    if other == local { LEAVES } else { UNTOUCHED }
}

/// A local is read.
pub(crate) fn read(local: u32, other: u32) -> Passage
    ensures { result ≡ read local other }
{
    Passage {
        reads: other == local,
        on_true: false,
        on_false: false,
    }
}

/// What matches is stored into a local.
pub(crate) fn bound(local: u32, other: u32, pattern: Passage) -> Passage
    ensures { result ≡ bound local other pattern }
{
    Passage {
        reads: pattern.reads,
        on_true: pattern.on_true || other == local,
        on_false: pattern.on_false,
    }
}
