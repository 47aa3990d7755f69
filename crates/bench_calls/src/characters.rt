use sl_text::chars_of;
use std::alloc::Global;

/// How many characters the bytes have, found so often; 0 where they are no text of at most 1 MiB.
pub fn decoded(alloc: Global, bytes: &[u8], times: u32) -> u32 {
    if bytes.len() > 1_048_576 {
        return 0;
    }
    let mut length = 0;
    for _ in 0..times {
        length = match chars_of(alloc, bytes) {
            Ok(text) => text.len(),
            Err(_) => 0,
        };
    }
    length
}
