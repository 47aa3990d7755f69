//! What is kept of a class file until its codes are looked into.

use cf_form::{Const, FieldInfo};

/// A row of an exception table (JVMS 4.7.3), its ends as offsets in bytes.
#[derive(Clone, Copy)]
pub(crate) struct RowParts {
    pub(crate) from: u16,
    pub(crate) to: u16,
    pub(crate) target: u16,
    pub(crate) class: u16,
}

/// What a Code attribute has (JVMS 4.7.3), with the bytes from its first instruction on, and from its first row on.
#[derive(Drop)]
pub(crate) struct CodeParts<'a> {
    pub(crate) max_stack: u16,
    pub(crate) max_locals: u16,
    pub(crate) code: &'a [u8],
    pub(crate) code_from: &'a [u8],
    pub(crate) rows: Vec<RowParts>,
    pub(crate) rows_from: &'a [u8],
}

/// What a field or method begins with (JVMS 4.5, 4.6).
#[derive(Clone, Copy)]
pub(crate) struct FrontParts {
    pub(crate) access: u16,
    pub(crate) name: u16,
    pub(crate) descriptor: u16,
}

/// A method (JVMS 4.6).
#[derive(Drop)]
pub(crate) struct MethodParts<'a> {
    pub(crate) access: u16,
    pub(crate) name: u16,
    pub(crate) descriptor: u16,
    pub(crate) code: Option<CodeParts<'a>>,
}

/// A class file (JVMS 4.1).
#[derive(Drop)]
pub(crate) struct FileParts<'a> {
    pub(crate) minor: u16,
    pub(crate) major: u16,
    pub(crate) pool: Vec<Const>,
    pub(crate) access: u16,
    pub(crate) this: u16,
    pub(crate) parent: u16,
    pub(crate) interfaces: Vec<u16>,
    pub(crate) fields: Vec<FieldInfo>,
    pub(crate) methods: Vec<MethodParts<'a>>,
}
