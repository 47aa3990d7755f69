//! Texts in which a part stands many times.

use std::alloc::{AllocError, Global};

/// `COUNT|BEFORE|PART|MIDDLE|PART|BEHIND` with each part so many times.
pub(crate) fn repeated(alloc: Global, text: &str) -> Result<String, AllocError> {
    let mut made = String::new(alloc);
    let mut count = 0;
    let mut is_part = true;
    for piece in text.split('|') {
        if made.is_empty() && count == 0 {
            count = piece.parse::<u32>().unwrap_or(1);
            is_part = false;
            continue;
        }
        let times = if is_part { count } else { 1 };
        for _ in 0..times {
            made.push_str(piece)?;
        }
        is_part = !is_part;
    }
    Ok(made)
}
