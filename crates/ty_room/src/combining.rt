//! Sizes put together.

ghost use Rattle.std.specs.Prelude.{◌≡◌, ◌≤◌, ℕ};
ghost use Rattle.ty_room.specs.declared.size.Size.{Size};
ghost use Rattle.ty_room.specs.declared.numbers.Numbers.{Numbers};
ghost use Rattle.ty_room.specs.Capped.{IsSize};
ghost use Rattle.ty_room.specs.Sizing.{nothing, beside, merged, closed, keeping, node_size, bool_size, choice_test, choice_size, loop_size, behind, covered, heavier, trying, deciding_size, make_size};
ghost use Rattle.ty_room.specs.Capped.{capped};

use crate::capping::plus;
use crate::numbers::{MADE_BYTES, MAKE_BYTES, Numbers, form, kept_bytes};
use crate::size::Size;

/// No parts.
pub(crate) fn nothing() -> Size
    ensures { IsSize result nothing }
{
    Size {
        value: 0,
        test: 0,
        fixed: None,
        tries: 0,
        kept: 0,
        entries: 0,
        supers: 0,
    }
}

/// Some parts, and one more.
#[tactic(auto, unfolding(crate::specs::Sizing::beside))]
pub(crate) fn beside(parts: Size, part: Size) -> Size
    ensures { (x y : Size) → IsSize parts x → IsSize part y → IsSize result (beside x y) }
{
    let value = plus(parts.value, part.value);
    let test = plus(parts.test, part.test);
    let tries = plus(parts.tries, part.tries);
    let entries = plus(parts.entries, part.entries);
    let supers = plus(parts.supers, part.supers);
    let kept = plus(parts.kept, 8);
    Size {
        value,
        test,
        fixed: None,
        tries,
        kept,
        entries,
        supers,
    }
}

/// Two lots of parts.
#[tactic(auto, unfolding(crate::specs::Sizing::merged))]
pub(crate) fn merged(parts: Size, others: Size) -> Size
    ensures { (x y : Size) → IsSize parts x → IsSize others y → IsSize result (merged x y) }
{
    let value = plus(parts.value, others.value);
    let test = plus(parts.test, others.test);
    let tries = plus(parts.tries, others.tries);
    let kept = plus(parts.kept, others.kept);
    let entries = plus(parts.entries, others.entries);
    let supers = plus(parts.supers, others.supers);
    Size {
        value,
        test,
        fixed: None,
        tries,
        kept,
        entries,
        supers,
    }
}

/// Some statements, and one more.
#[tactic(auto, unfolding(crate::specs::Sizing::behind))]
pub(crate) fn behind(statements: Size, e: Size) -> Size
    ensures { (x y : Size) → IsSize statements x → IsSize e y → IsSize result (behind x y) }
{
    let dropped = plus(statements.value, statements.kept);
    let value = plus(dropped, e.value);
    let test = plus(dropped, e.test);
    let tries = plus(statements.tries, e.tries);
    let entries = plus(statements.entries, e.entries);
    let supers = plus(statements.supers, e.supers);
    Size {
        value,
        test,
        fixed: None,
        tries,
        kept: 1,
        entries,
        supers,
    }
}

/// A loop.
#[tactic(auto, unfolding(crate::specs::Sizing::loop_size))]
pub(crate) fn loop_size(c: Size, b: Size) -> Size
    ensures { (x y : Size) → IsSize c x → IsSize b y → IsSize result (loop_size x y) }
{
    let parts = plus(c.test, b.value);
    let value = plus(parts, 5);
    let test = plus(parts, 8);
    let tries = plus(c.tries, b.tries);
    let entries = plus(c.entries, b.entries);
    let supers = plus(c.supers, b.supers);
    Size {
        value,
        test,
        fixed: None,
        tries,
        kept: 0,
        entries,
        supers,
    }
}

/// The same size of what is no literal.
#[tactic(auto, unfolding(crate::specs::Sizing::covered))]
pub(crate) fn covered(s: Size) -> Size
    ensures { (x : Size) → IsSize s x → IsSize result (covered x) }
{
    Size {
        fixed: None,
        kept: 0,
        ..s
    }
}

/// Some statements as a block.
pub(crate) fn closed(statements: Size) -> Size
    ensures { (x : Size) → IsSize statements x → IsSize result (closed x) }
{
    if statements.kept == 0 {
        node_size(form(1, 0), nothing())
    } else {
        covered(statements)
    }
}

/// So many bytes more.
#[tactic(auto, unfolding(crate::specs::Sizing::heavier))]
pub(crate) fn heavier(bytes: u32, parts: Size) -> Size
    requires { bytes ≤ 100 }
    ensures { (x : Size) → IsSize parts x → IsSize result (heavier bytes x) }
{
    let value = plus(parts.value, bytes);
    Size {
        value,
        fixed: None,
        ..parts
    }
}

/// A `try` is one more.
#[tactic(auto, unfolding(crate::specs::Sizing::trying))]
pub(crate) fn trying(parts: Size) -> Size
    ensures { (x : Size) → IsSize parts x → IsSize result (trying x) }
{
    let test = plus(parts.value, 3);
    let tries = plus(parts.tries, 1);
    Size {
        test,
        fixed: None,
        tries,
        kept: 0,
        ..parts
    }
}

/// An expression as a test.
#[tactic(auto, unfolding(crate::specs::Sizing::deciding_size))]
pub(crate) fn deciding_size(e: Size) -> Size
    ensures { (x : Size) → IsSize e x → IsSize result (deciding_size x) }
{
    Size {
        value: e.test,
        fixed: None,
        kept: 0,
        ..e
    }
}

/// A pattern of a case class.
#[tactic(auto, unfolding(crate::specs::Sizing::make_size))]
pub(crate) fn make_size(parts: Size) -> Size
    ensures { (x : Size) → IsSize parts x → IsSize result (make_size x) }
{
    let made = plus(parts.value, MADE_BYTES);
    let read = parts.test.min(made);
    let value = plus(MAKE_BYTES, read);
    let test = plus(MAKE_BYTES + 3, read);
    let entries = plus(3, parts.entries);
    Size {
        value,
        test,
        fixed: None,
        kept: 0,
        entries,
        ..parts
    }
}

/// A literal.
#[tactic(auto, unfolding(crate::specs::Sizing::bool_size))]
pub(crate) fn bool_size(b: bool) -> Size
    ensures { IsSize result (bool_size b) }
{
    Size {
        value: 1,
        test: if b { 0 } else { 3 },
        fixed: Some(b),
        tries: 0,
        kept: 0,
        entries: 0,
        supers: 0,
    }
}

// What it takes to keep operands.
fn keeping(form: Numbers, parts: Size) -> u32
    ensures { (f : Numbers) (x : Size) → form ≡ f → IsSize parts x → result ≡ capped (keeping f x) }
{
    if form.keeps && parts.tries != 0 {
        kept_bytes(plus(parts.kept, form.more))
    } else {
        0
    }
}

/// A form with its parts.
#[tactic(auto, unfolding(crate::specs::Sizing::node_size))]
pub(crate) fn node_size(form: Numbers, parts: Size) -> Size
    ensures { (f : Numbers) (x : Size) → form ≡ f → IsSize parts x → IsSize result (node_size f x) }
{
    let kept = keeping(form, parts);
    let own = plus(kept, parts.value);
    let value = plus(form.bytes, own);
    let test = plus(form.jump, own);
    let entries = plus(form.entries, parts.entries);
    let supers = plus(form.supers, parts.supers);
    Size {
        value,
        test,
        fixed: None,
        kept: 0,
        entries,
        supers,
        ..parts
    }
}

// A conditional as a test, of which the value is given.
fn choice_test(value: u32, c: Size, a: Size, b: Size) -> u32
    ensures { (n : ℕ) (x y z : Size) → value ≡ capped n → IsSize c x → IsSize a y → IsSize b z
        → result ≡ capped (choice_test n x y z y.fixed z.fixed) }
{
    if b.fixed == Some(false) {
        return plus(c.test, a.test);
    }
    if a.fixed == Some(true) {
        return plus(plus(c.test, 3), b.test);
    }
    plus(value, 3)
}

/// A conditional.
#[tactic(auto, unfolding(crate::specs::Sizing::choice_size))]
pub(crate) fn choice_size(c: Size, a: Size, b: Size) -> Size
    ensures { (x y z : Size) → IsSize c x → IsSize a y → IsSize b z → IsSize result (choice_size x y z) }
{
    let tested = plus(c.test, a.value);
    let both = plus(tested, b.value);
    let value = plus(both, 3);
    let test = choice_test(value, c, a, b);
    let two_tries = plus(c.tries, a.tries);
    let tries = plus(two_tries, b.tries);
    let two_entries = plus(c.entries, a.entries);
    let entries = plus(two_entries, b.entries);
    let two_supers = plus(c.supers, a.supers);
    let supers = plus(two_supers, b.supers);
    Size {
        value,
        test,
        fixed: None,
        tries,
        kept: 0,
        entries,
        supers,
    }
}
