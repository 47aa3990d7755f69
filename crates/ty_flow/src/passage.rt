//! What a tree does with a local.

/// What the ways through a tree do with one local.
#[derive(Clone, Copy, PartialEq, Eq)]
pub struct Passage {
    /// Some way reads it before it sets it.
    pub reads: bool,
    /// Each way on which the tree gives `true`, or ends normally where it is no condition, has set it.
    pub on_true: bool,
    /// Each way on which the tree gives `false`, or ends normally where it is no condition, has set it.
    pub on_false: bool,
}

/// What the ways through a case do with one local.
#[derive(Clone, Copy, PartialEq, Eq)]
pub struct CasePassage {
    /// Those on which the case is taken.
    pub taken: Passage,
    /// Each way on which its pattern or its guard fails has set it.
    pub failed: bool,
}
