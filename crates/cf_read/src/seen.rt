//! The fields or methods that were read, by numbers of their names and descriptors.

ghost use Rattle.std.specs.Prelude.{◌≡◌, ◌≢◌, ◌++◌, ◌∷◌, ◌+◌, ◌*◌, ◌==◌, ◌||◌, [], List, ℕ, map, slice_index, IfOk, OnOk};
ghost use Rattle.std.specs.BTreeSet.{contains};
ghost use Rattle.std.specs.List.{list_any};
ghost use Rattle.std.specs.Ordering.{nat_cmp};
ghost use Rattle.cf_read.specs.Reading.{key_of, same_key};
ghost use Rattle.cf_read.specs.Seen.{text_number, has_numbers, NumbersTexts, AreKept, AreSeen};
ghost use Rattle.cf_read.specs.Views.{key_at};

use cf_form::Const;
use std::alloc::{AllocError, Global};
use std::collections::BTreeSet;

/// Members that were read. Names and descriptors are told apart by their numbers among these texts.
#[derive(Drop)]
pub(crate) struct Members {
    // For the number of a name the number of the first descriptor with it, and one; 0 where there is none yet.
    firsts: Vec<u32>,
    // The other members: one number for each name and descriptor.
    others: BTreeSet<u32>,
    // The indexes of all.
    keys: Vec<(u16, u16)>,
}

/// No member, with room for so many.
pub(crate) fn no_members(alloc: Global, texts: &[u16], count: usize) -> Result<Members, AllocError>
    ensures keys { IfOk result (λ members. members.keys.items ≡ []) }
    ensures seen { IfOk result (λ members. (texts : List ℕ) → AreSeen texts members.firsts.items members.others []) }
{
    Ok(Members {
        firsts: vec![in alloc; 0; texts.len()]?,
        others: BTreeSet::new(alloc),
        keys: Vec::with_capacity(alloc, count)?,
    })
}

/// How many of so many members the bytes have room for: each takes eight bytes at least.
pub(crate) fn room_for(count: u16, bytes: &[u8]) -> usize {
    usize::from(count).min(bytes.len() / 8)
}

/// Whether one of the members has this name and this descriptor, as texts. The pool is for the contract alone.
pub(crate) fn is_among(
    pool: &[Const],
    texts: &[u16],
    members: &Members,
    name: u16,
    descriptor: u16,
) -> bool
    requires { AreKept pool.now texts.now members.now }
    ensures { result ≡ list_any (same_key (key_of pool.now name descriptor)) (map (key_at pool.now) members.now.keys.items) }
{
    is_seen(
        pool,
        texts,
        &members.keys,
        &members.firsts,
        &members.others,
        name,
        descriptor,
    )
}

/// Adds a member, unless memory is wanting.
pub(crate) fn keep(
    texts: &[u16],
    members: &mut Members,
    name: u16,
    descriptor: u16,
) -> Result<(), AllocError>
    ensures keys { OnOk result (members.new.keys.items ≡ members.old.keys.items ++ (name, descriptor) ∷ []) }
    ensures seen { OnOk result (AreSeen texts.now members.old.firsts.items members.old.others members.old.keys.items → AreSeen texts.now members.new.firsts.items members.new.others members.new.keys.items) }
{
    see(
        texts,
        &mut members.firsts,
        &mut members.others,
        name,
        descriptor,
    )?;
    members.keys.push((name, descriptor))?;
    Ok(())
}

// Whether one of the members that were seen has this name and this descriptor, as texts. The pool and the indexes of
// these members are for the contract alone.
fn is_seen(
    pool: &[Const],
    texts: &[u16],
    keys: &[(u16, u16)],
    firsts: &[u32],
    others: &BTreeSet<u32>,
    name: u16,
    descriptor: u16,
) -> bool
    requires numbered { keys.now ≢ [] → NumbersTexts pool.now texts.now }
    requires seen { AreSeen texts.now firsts.now others.now keys.now }
    ensures { result ≡ list_any (same_key (key_of pool.now name descriptor)) (map (key_at pool.now) keys.now) }
{
    has_numbers(
        firsts,
        others,
        text_number(texts, name),
        text_number(texts, descriptor),
    )
}

// Whether a name and a descriptor of these numbers were seen.
fn has_numbers(firsts: &[u32], others: &BTreeSet<u32>, name: u16, descriptor: u16) -> bool
    ensures { result ≡ has_numbers firsts.now others.now name descriptor }
{
    is_first(firsts, name, descriptor) || others.contains(&member_number(name, descriptor))
}

// Whether the first descriptor with the name of this number has that number.
fn is_first(firsts: &[u32], name: u16, descriptor: u16) -> bool
    ensures { result ≡ (slice_index firsts.now name == descriptor + 1) }
{
    match firsts.get(usize::from(name)) {
        Some(first) => *first == u32::from(descriptor) + 1,
        None => false,
    }
}

// Adds a member to those that were seen, unless memory is wanting.
fn see(
    texts: &[u16],
    firsts: &mut [u32],
    others: &mut BTreeSet<u32>,
    name: u16,
    descriptor: u16,
) -> Result<(), AllocError>
    ensures { OnOk result ((keys : List (ℕ × ℕ)) → AreSeen texts.now firsts.old others.old keys → AreSeen texts.now firsts.new others.new (keys ++ (name, descriptor) ∷ [])) }
{
    let name = text_number(texts, name);
    let descriptor = text_number(texts, descriptor);
    let at = usize::from(name);
    if at < firsts.len() && firsts[at] == 0 {
        firsts[at] = u32::from(descriptor) + 1;
        return Ok(());
    }
    add(others, member_number(name, descriptor))
}

// Adds a number, unless memory is wanting.
fn add(numbers: &mut BTreeSet<u32>, number: u32) -> Result<(), AllocError>
    ensures { OnOk result ((k : ℕ) → contains nat_cmp numbers.new k ≡ (number == k || contains nat_cmp numbers.old k)) }
{
    numbers.insert(number)?;
    Ok(())
}

// One number for the numbers of a name and a descriptor.
fn member_number(name: u16, descriptor: u16) -> u32
    ensures { result ≡ name * 65536 + descriptor }
{
    u32::from(name) * 65536 + u32::from(descriptor)
}

// The number of the text at an index, 0 past the end.
fn text_number(texts: &[u16], index: u16) -> u16
    ensures { result ≡ text_number texts.now index }
{
    texts.get(usize::from(index)).copied().unwrap_or(0)
}
