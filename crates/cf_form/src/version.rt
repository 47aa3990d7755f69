//! Versions of class files.

ghost use Rattle.std.specs.Prelude.{◌≡◌};
ghost use Rattle.cf_form.specs.ClassFiles.{is_version};

/// Whether files of this major version are read and written (JVMS 4.1): 45 to 49, and 52.
pub fn is_version(major: u16) -> bool
    ensures { result ≡ is_version major }
{
    matches!(major, 45..=49 | 52)
}
