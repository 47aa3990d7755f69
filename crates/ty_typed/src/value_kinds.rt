//! The kinds of values, which tell apart what a machine holds in different forms (JVMS 2.11.1).

/// The kind of the values of an expression. A `String`, null and each value of Any are references; an expression that
/// gives no value, as a `throw`, is of kind Never.
#[derive(Clone, Copy, Debug, PartialEq, Eq)]
pub enum ValueKind {
    Never,
    Reference,
    Unit,
    Boolean,
    Int,
    Long,
    Array,
}

/// For which kinds the values of an expression may stand.
#[derive(Clone, Copy, Debug, PartialEq, Eq)]
pub struct KindsFit {
    pub never: bool,
    pub reference: bool,
    pub unit: bool,
    pub boolean: bool,
    pub int: bool,
    pub long: bool,
    pub array: bool,
}
