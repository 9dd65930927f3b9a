// Declarations: enums, types, groups of events and outputs, variables.
ghost use Rattle.std.specs.Prelude.{◌≡◌};
ghost use Rattle.reading.specs.Decl.{read_enum_decl, read_ty, read_field_decl, read_constructor_variant, read_constructor_group, read_var_decl};
ghost use Rattle.reading.specs.Link.{stands};

use crate::cursor::Cursor;
use crate::expr::Expr;
use crate::fault::{Fault, Refusal};
use crate::limits;
use crate::list::{Item, Name, U32};

// An enum.
pub(crate) struct EnumDecl {}

impl EnumDecl {
    pub(crate) const FIELDS: u64 = 2;
}

impl Item for EnumDecl {
    ghost ends = { λ s at. stands (read_enum_decl s at) };

    fn pass(c: Cursor, doc: &[u8]) -> Result<Cursor, Refusal>
        ensures value { result ≡ stands (read_enum_decl doc.now c.at) }
        ensures fields { EnumDecl.FIELDS ≡ 2 }
    {
        c.fields(doc, EnumDecl::FIELDS)?
            .past::<Name>(doc)?
            .list_here::<Name>(doc, limits::LIST)
    }
}

// A type.
pub(crate) struct Ty {}

impl Item for Ty {
    ghost ends = { λ s at. stands (read_ty s at) };

    // Types are few: head by head.
    fn pass(c: Cursor, doc: &[u8]) -> Result<Cursor, Refusal> {
        let (tag, next) = c.any_tag(doc)?;
        match tag.case {
            0 => next.sized(tag, 1),
            1 => next.one::<U32>(doc, tag),
            2 => next.one::<Name>(doc, tag),
            3..=u64::MAX => Err(Fault::Unexpected.at(tag.place)),
        }
    }
}

// A field of an event or an output.
pub(crate) struct FieldDecl {}

impl FieldDecl {
    pub(crate) const FIELDS: u64 = 2;
}

impl Item for FieldDecl {
    ghost ends = { λ s at. stands (read_field_decl s at) };

    fn pass(c: Cursor, doc: &[u8]) -> Result<Cursor, Refusal>
        ensures value { result ≡ stands (read_field_decl doc.now c.at) }
        ensures fields { FieldDecl.FIELDS ≡ 2 }
    {
        c.fields(doc, FieldDecl::FIELDS)?
            .past::<Name>(doc)?
            .past::<Ty>(doc)
    }
}

// A variant of a group.
pub(crate) struct ConstructorVariant {}

impl Item for ConstructorVariant {
    ghost ends = { λ s at. stands (read_constructor_variant s at) };

    // Variants are few: head by head.
    fn pass(c: Cursor, doc: &[u8]) -> Result<Cursor, Refusal> {
        let (tag, next) = c.any_tag(doc)?;
        match tag.case {
            0 => next.one::<Name>(doc, tag),
            1 => next
                .sized(tag, 3)?
                .past::<Name>(doc)?
                .list::<FieldDecl>(doc, limits::LIST),
            2..=u64::MAX => Err(Fault::Unexpected.at(tag.place)),
        }
    }
}

// A group of events or outputs.
pub(crate) struct ConstructorGroup {}

impl ConstructorGroup {
    pub(crate) const FIELDS: u64 = 2;
}

impl Item for ConstructorGroup {
    ghost ends = { λ s at. stands (read_constructor_group s at) };

    fn pass(c: Cursor, doc: &[u8]) -> Result<Cursor, Refusal>
        ensures value { result ≡ stands (read_constructor_group doc.now c.at) }
        ensures fields { ConstructorGroup.FIELDS ≡ 2 }
    {
        c.fields(doc, ConstructorGroup::FIELDS)?
            .past::<Name>(doc)?
            .list::<ConstructorVariant>(doc, limits::LIST)
    }
}

// A variable.
pub(crate) struct VarDecl {}

impl VarDecl {
    pub(crate) const FIELDS: u64 = 3;
}

impl Item for VarDecl {
    ghost ends = { λ s at. stands (read_var_decl s at) };

    fn pass(c: Cursor, doc: &[u8]) -> Result<Cursor, Refusal>
        ensures value { result ≡ stands (read_var_decl doc.now c.at) }
        ensures fields { VarDecl.FIELDS ≡ 3 }
    {
        c.fields(doc, VarDecl::FIELDS)?
            .past::<Name>(doc)?
            .past::<Ty>(doc)?
            .past::<Expr>(doc)
    }
}
