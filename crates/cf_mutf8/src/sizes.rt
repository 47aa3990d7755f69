//! How many bytes a text takes.

ghost use Rattle.std.specs.Prelude.{◌≡◌, length};
ghost use Rattle.std.specs.Str.{chars};
ghost use Rattle.cf_mutf8.specs.ModifiedUtf8.{encoded};
ghost use Rattle.cf_mutf8.specs.Share.{share};

/// The number of bytes of the text's modified UTF-8 (JVMS 4.4.7). It allocates nothing.
pub fn length(text: &str) -> u64
    ensures { result ≡ length (encoded (chars text.now)) }
{
    let mut count = 0;
    for byte in text.as_bytes() {
        count += share(*byte);
    }
    count
}

// How many bytes stand for this byte of UTF-8.
fn share(byte: u8) -> u64
    ensures { result ≡ share byte }
{
    match byte {
        0 => 2,
        1..=0xEF => 1,
        _ => 3,
    }
}
