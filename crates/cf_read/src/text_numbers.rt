//! The texts of a pool as numbers, made once, for the first list of two members or more.

ghost use Rattle.std.specs.Prelude.{◌≡◌, ◌^◌, ◌<◌, List, ℕ, length, Some, IfOk, OnOk};
ghost use Rattle.std.specs.Map.{update};
ghost use Rattle.std.specs.Option.{unwrap_or};
ghost use Rattle.std.specs.Str.{bytes_eq};
ghost use Rattle.cf_form.specs.Pool.{text_by};
ghost use Rattle.cf_read.specs.Seen.{NumbersTexts, NumbersIfAny, first_of, IsNumber};

use cf_form::Const;
use std::alloc::{AllocError, Global};
use std::collections::BTreeMap;

/// Numbers the texts of a pool for a list of so many members, unless no two can be equal or it is done. A pool of more than
/// 65,535 entries is answered as want of memory; no class file has one.
pub(crate) fn number_for(
    alloc: Global,
    pool: &[Const],
    count: u16,
    texts: &mut Vec<u16>,
) -> Result<(), AllocError>
    requires { NumbersIfAny pool.now texts.old.items }
    ensures many { OnOk result (1 < count → NumbersTexts pool.now texts.new.items) }
    ensures any { OnOk result (NumbersIfAny pool.now texts.new.items) }
{
    if count < 2 || !texts.is_empty() {
        return Ok(());
    }
    if pool.len() > 65535 {
        return Err(AllocError);
    }
    *texts = text_numbers(alloc, pool)?;
    Ok(())
}

// A number for each index of the pool: the first index with the same text, and 0 where the index names no text.
fn text_numbers(alloc: Global, pool: &[Const]) -> Result<Vec<u16>, AllocError>
    requires { length pool.now < 2 ^ 16 }
    ensures { IfOk result (λ texts. NumbersTexts pool.now texts.items) }
{
    let mut firsts = BTreeMap::new(alloc);
    let mut texts = Vec::with_capacity(alloc, pool.len() + 1)?;
    texts.push(0)?;
    for (i, constant) in pool.iter().enumerate() {
        let number = number_of(&mut firsts, constant, i as u16 + 1)?;
        texts.push(number)?;
    }
    Ok(texts)
}

// The first index that has the text of the constant at this index.
fn number_of<'a>(
    firsts: &mut BTreeMap<&'a str, u16>,
    constant: &'a Const,
    index: u16,
) -> Result<u16, AllocError>
    ensures { IfOk result (IsNumber firsts.old firsts.new index (text_by (Some constant.now))) }
{
    match constant {
        Const::Utf8(name) => first_index(firsts, name.as_str(), index),
        _ => Ok(0),
    }
}

// The index at which the map has a text, which is this one if it has none.
fn first_index<'a>(
    firsts: &mut BTreeMap<&'a str, u16>,
    text: &'a str,
    index: u16,
) -> Result<u16, AllocError>
    ensures value { IfOk result (λ n. n ≡ unwrap_or (first_of firsts.old text.now) index) }
    ensures updates { IfOk result (λ n. (bytes : List ℕ) → first_of firsts.new bytes ≡ update bytes_eq (first_of firsts.old) text.now (Some n) bytes) }
{
    Ok(*firsts.entry(text)?.or_insert(index))
}
