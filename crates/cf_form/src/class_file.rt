//! Class files.

use crate::code::Code;
use crate::constant::Const;
use sqlite_items::Items;

/// A class file (JVMS 4.1), its attributes other than Code left out. Index 1 of the pool is `pool[0]`.
#[derive(Debug, Drop)]
pub struct ClassFile {
    pub minor: u16,
    pub major: u16,
    pub pool: Items<Const>,
    pub access: u16,
    pub this: u16,
    pub parent: u16,
    pub interfaces: Items<u16>,
    pub fields: Items<FieldInfo>,
    pub methods: Items<MethodInfo>,
}

/// A field (JVMS 4.5). `name` and `descriptor` are indexes of the pool.
#[derive(Debug, Drop)]
pub struct FieldInfo {
    pub access: u16,
    pub name: u16,
    pub descriptor: u16,
}

/// A method (JVMS 4.6). `name` and `descriptor` are indexes of the pool.
#[derive(Debug, Drop)]
pub struct MethodInfo {
    pub access: u16,
    pub name: u16,
    pub descriptor: u16,
    pub code: Option<Code>,
}
