// Why something has no type, in the order of document 01's numbers, with what the message says of it.
use crate::ty::Ty;

// What has to be a bool.
#[derive(Clone, Copy, Debug, PartialEq, Eq)]
pub enum What {
    Operand,
    Left,
    Right,
    Formula,
    Guard,
}

// A name is the place where it stands in the document, and a path the place of its list.
#[derive(Clone, Copy, Debug, PartialEq, Eq)]
pub enum Cause {
    // 1: the group.
    UnknownEventGroup(usize),
    // 2: the variant, the group.
    UnknownEventVariant(usize, usize),
    // 3: the variant, its fields, the pattern's.
    FieldCount(usize, u64, u64),
    // 4: the name.
    DuplicateBinding(usize),
    // 5: the variant.
    UnitWithFields(usize),
    // 6: the variant.
    FieldsWithout(usize),
    // 7: the literal, the width.
    DoesNotFit(u64, u32),
    // 8.
    IntegerOnBool,
    // 9.
    IntegerOnEnum,
    // 10.
    BooleanLiteral,
    // 11: the path, the enum.
    VariantPath(usize, usize),
    // 12.
    VariantOnNonEnum,
    // 13: the group.
    UnknownOutputGroup(usize),
    // 14: the group.
    BareOutput(usize),
    // 15: the variant, the group.
    UnknownOutputVariant(usize, usize),
    // 16: the variant, the arguments, the variant's fields.
    ArgumentCount(usize, u64, u64),
    // 17: what has to be one, and its type.
    MustBeBool(What, Ty),
    // 18.
    BitNot,
    // 19.
    Negation,
    // 20.
    EmptyPath,
    // 21: the name.
    UnknownIdentifier(usize),
    // 22: the enum.
    UnknownEnum(usize),
    // 23: the variant, the enum.
    UnknownVariant(usize, usize),
    // 24: the segments.
    PathLength(u64),
    // 25.
    ShiftLeft,
    // 26.
    ShiftRight,
    // 27: the widths.
    WidthMismatch(u32, u32),
    // 28.
    NeedsBitvectors,
    // 29.
    IntegerAsBool,
    // 30: the types.
    TypeMismatch(Ty, Ty),
    // 31.
    BindingInFormula,
}

// An expression's type and the place after it; or why it has none.
pub type Typed = Result<(Ty, usize), Cause>;

// The field or argument that a cause is about: the place of its name; or none of them.
#[derive(Clone, Copy, Debug, PartialEq, Eq)]
pub enum Within {
    Alone,
    Field(usize),
    Arg(usize),
}

// What is wrong with a pattern or an output, and in what.
#[derive(Clone, Copy, Debug, PartialEq, Eq)]
pub struct Blame {
    pub within: Within,
    pub cause: Cause,
}

// What is wrong with a pattern, if anything, and how many words of a table its bindings take.
#[derive(Clone, Copy, Debug, PartialEq, Eq)]
pub struct Bindings {
    pub blame: Result<(), Blame>,
    pub words: usize,
}
