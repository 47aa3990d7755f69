//! The texts that String entries name.

ghost use Rattle.std.specs.Prelude.{◌≡◌, IfOk, OnOk};
ghost use Rattle.std.specs.List.{flat_map};
ghost use Rattle.cf_link.specs.OfFiles.{each_once, string_text, texts_of};

use cf_form::{ClassFile, Const};
use cf_set::{Names, text_at};
use std::alloc::{AllocError, Global};

/// The texts that String entries name, each once, in the order of the files and of their pools.
pub fn texts_of(alloc: Global, files: &[ClassFile]) -> Result<Names, AllocError>
    ensures { IfOk result (λ texts. texts ≡ texts_of files.now) }
{
    let mut texts = Names::new(alloc);
    for file in files {
        put_texts(alloc, file.pool.as_slice(), &mut texts)?;
    }
    Ok(texts)
}

// Puts the texts of a pool behind others.
fn put_texts(alloc: Global, pool: &[Const], texts: &mut Names) -> Result<(), AllocError>
    ensures { OnOk result (texts.new ≡ each_once texts.old (flat_map (string_text pool.now) pool.now)) }
{
    for constant in pool {
        put_text(alloc, pool, constant, texts)?;
    }
    Ok(())
}

// Puts the text of a String entry behind others.
fn put_text(
    alloc: Global,
    pool: &[Const],
    constant: &Const,
    texts: &mut Names,
) -> Result<(), AllocError>
    ensures { OnOk result (texts.new ≡ each_once texts.old (string_text pool.now constant.now)) }
{
    match constant {
        Const::Text(index) => match text_at(pool, *index) {
            Some(text) => {
                texts.add(alloc, text.as_str())?;
                Ok(())
            }
            None => Ok(()),
        },
        _ => Ok(()),
    }
}
