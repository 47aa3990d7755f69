//! Heads of forms.

use ty_prog::{Kind, PrimOp, Ty};

/// An expression without children.
#[derive(Clone, Copy)]
pub(crate) enum Leaf {
    Int,
    Long,
    Bool,
    Text,
    Null,
    Unit,
    Local,
    This,
    ObjectGet,
    ModuleGet,
}

/// An expression with one child.
#[derive(Clone, Copy)]
pub(crate) enum Unary {
    SetLocal,
    Get,
    Convert,
    TextOf,
    Throw,
    Start,
    LazyGet,
    Test,
    NewLatch,
    OwnedHere,
    Await,
    CountDown,
    SetModule,
}

/// An expression with two children.
#[derive(Clone, Copy)]
pub(crate) enum Binary {
    Put,
    Equal,
    While,
}

/// An expression with three children.
#[derive(Clone, Copy)]
pub(crate) enum Ternary {
    If,
    Cas,
}

/// An expression with any number of children.
#[derive(Clone, Copy)]
pub(crate) enum Listed {
    Block,
    New,
    Prim,
    SuperCall,
    StaticCall,
}

/// An expression with other parts.
#[derive(Clone, Copy)]
pub(crate) enum Other {
    Println,
    Call,
    Match,
    Try,
}

#[derive(Clone, Copy)]
pub(crate) enum Shape {
    Any,
    Bind,
    OfType,
    Literal,
    Make,
    Either,
    Object,
}

/// A part of another form.
#[derive(Clone, Copy)]
pub(crate) enum Part {
    Case,
    /// A guard or a `finally`.
    Aside,
    Cases,
    Catch,
    Params,
    Locals,
}

/// A part of a class.
#[derive(Clone, Copy)]
pub(crate) enum Member {
    Linear,
    Mixins,
    Field,
    Param,
    Lazy,
    Method,
    Static,
    Super,
    Body,
}

/// What a form is.
#[derive(Clone, Copy)]
pub(crate) enum Head {
    Leaf(Leaf),
    Unary(Unary),
    Binary(Binary),
    Ternary(Ternary),
    Listed(Listed),
    Other(Other),
    Pattern(Shape),
    Part(Part),
    Member(Member),
    Class(Kind),
    Program,
}

static HEADS: [(&str, Head); 66] = [
    ("int", Head::Leaf(Leaf::Int)),
    ("long", Head::Leaf(Leaf::Long)),
    ("bool", Head::Leaf(Leaf::Bool)),
    ("text", Head::Leaf(Leaf::Text)),
    ("null", Head::Leaf(Leaf::Null)),
    ("unit", Head::Leaf(Leaf::Unit)),
    ("local", Head::Leaf(Leaf::Local)),
    ("this", Head::Leaf(Leaf::This)),
    ("object-get", Head::Leaf(Leaf::ObjectGet)),
    ("module-get", Head::Leaf(Leaf::ModuleGet)),
    ("set-local", Head::Unary(Unary::SetLocal)),
    ("get", Head::Unary(Unary::Get)),
    ("convert", Head::Unary(Unary::Convert)),
    ("text-of", Head::Unary(Unary::TextOf)),
    ("throw", Head::Unary(Unary::Throw)),
    ("start", Head::Unary(Unary::Start)),
    ("lazy-get", Head::Unary(Unary::LazyGet)),
    ("test", Head::Unary(Unary::Test)),
    ("new-latch", Head::Unary(Unary::NewLatch)),
    ("owned-here", Head::Unary(Unary::OwnedHere)),
    ("await", Head::Unary(Unary::Await)),
    ("count-down", Head::Unary(Unary::CountDown)),
    ("set-module", Head::Unary(Unary::SetModule)),
    ("put", Head::Binary(Binary::Put)),
    ("equal", Head::Binary(Binary::Equal)),
    ("while", Head::Binary(Binary::While)),
    ("if", Head::Ternary(Ternary::If)),
    ("cas", Head::Ternary(Ternary::Cas)),
    ("println", Head::Other(Other::Println)),
    ("block", Head::Listed(Listed::Block)),
    ("new", Head::Listed(Listed::New)),
    ("prim", Head::Listed(Listed::Prim)),
    ("call", Head::Other(Other::Call)),
    ("super-call", Head::Listed(Listed::SuperCall)),
    ("static-call", Head::Listed(Listed::StaticCall)),
    ("match", Head::Other(Other::Match)),
    ("try", Head::Other(Other::Try)),
    ("any", Head::Pattern(Shape::Any)),
    ("bind", Head::Pattern(Shape::Bind)),
    ("of-type", Head::Pattern(Shape::OfType)),
    ("literal", Head::Pattern(Shape::Literal)),
    ("make", Head::Pattern(Shape::Make)),
    ("either", Head::Pattern(Shape::Either)),
    ("is-object", Head::Pattern(Shape::Object)),
    ("case", Head::Part(Part::Case)),
    ("guard", Head::Part(Part::Aside)),
    ("finally", Head::Part(Part::Aside)),
    ("cases", Head::Part(Part::Cases)),
    ("catch", Head::Part(Part::Catch)),
    ("params", Head::Part(Part::Params)),
    ("locals", Head::Part(Part::Locals)),
    ("linear", Head::Member(Member::Linear)),
    ("mixins", Head::Member(Member::Mixins)),
    ("field", Head::Member(Member::Field)),
    ("param", Head::Member(Member::Param)),
    ("lazy", Head::Member(Member::Lazy)),
    ("method", Head::Member(Member::Method)),
    ("static", Head::Member(Member::Static)),
    ("super", Head::Member(Member::Super)),
    ("body", Head::Member(Member::Body)),
    ("class", Head::Class(Kind::Class)),
    ("abstract", Head::Class(Kind::Abstract)),
    ("trait", Head::Class(Kind::Trait)),
    ("object", Head::Class(Kind::Object)),
    ("program", Head::Program),
    ("bare", Head::Program),
];

/// The head with this name.
pub(crate) fn head_of(word: &str) -> Option<Head> {
    for (name, head) in &HEADS {
        if *name == word {
            return Some(*head);
        }
    }
    None
}

static OPERATORS: [(&str, PrimOp); 25] = [
    ("add", PrimOp::Add),
    ("sub", PrimOp::Sub),
    ("mul", PrimOp::Mul),
    ("div", PrimOp::Div),
    ("rem", PrimOp::Rem),
    ("and", PrimOp::And),
    ("or", PrimOp::Or),
    ("xor", PrimOp::Xor),
    ("shl", PrimOp::Shl),
    ("shr", PrimOp::Shr),
    ("ushr", PrimOp::Ushr),
    ("less", PrimOp::Less),
    ("at-most", PrimOp::AtMost),
    ("greater", PrimOp::Greater),
    ("at-least", PrimOp::AtLeast),
    ("not", PrimOp::Not),
    ("same", PrimOp::Same),
    ("concat", PrimOp::Concat),
    ("length", PrimOp::Length),
    ("is-empty", PrimOp::IsEmpty),
    ("equals", PrimOp::Equals),
    ("to-string", PrimOp::ToString),
    ("class-name", PrimOp::ClassName),
    ("evaluating", PrimOp::Evaluating),
    ("null-value", PrimOp::NullValue),
];

/// The operator with this name.
pub(crate) fn operator_of(word: &str) -> Option<PrimOp> {
    for (name, operator) in &OPERATORS {
        if *name == word {
            return Some(*operator);
        }
    }
    None
}

static TYPES: [(&str, Ty); 10] = [
    ("Any", Ty::Any),
    ("AnyRef", Ty::AnyRef),
    ("Nothing", Ty::Nothing),
    ("Null", Ty::Null),
    ("Unit", Ty::Unit),
    ("Boolean", Ty::Boolean),
    ("Int", Ty::Int),
    ("Long", Ty::Long),
    ("String", Ty::Text),
    ("Array", Ty::Array),
];

/// The type with this name that is no class.
pub(crate) fn plain_type_of(word: &str) -> Option<Ty> {
    for (name, ty) in &TYPES {
        if *name == word {
            return Some(*ty);
        }
    }
    None
}
