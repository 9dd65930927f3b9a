// Properties, modules, and all of a document's content.
ghost use Rattle.std.specs.Prelude.{◌≡◌};
ghost use Rattle.reading.specs.Module.{read_property, read_module, read_ir};
ghost use Rattle.reading.specs.Link.{stands};

use crate::cursor::Cursor;
use crate::decl::{ConstructorGroup, EnumDecl, VarDecl};
use crate::fault::Refusal;
use crate::limits;
use crate::list::{IrVersion, Item, Name, Version};
use crate::transition::{OnError, Transition};

// A property or an assumption.
pub(crate) struct Property {}

impl Property {
    pub(crate) const FIELDS: u64 = 2;
}

impl Item for Property {
    ghost ends = { λ s at. stands (read_property s at) };

    fn pass(c: Cursor, doc: &[u8]) -> Result<Cursor, Refusal>
        ensures value { result ≡ stands (read_property doc.now c.at) }
        ensures fields { Property.FIELDS ≡ 2 }
    {
        c.fields(doc, Property::FIELDS)?
            .past::<Name>(doc)?
            .formula(doc, limits::DEPTH)
    }
}

// A module.
pub(crate) struct Module {}

impl Module {
    pub(crate) const FIELDS: u64 = 11;
}

impl Item for Module {
    ghost ends = { λ s at. stands (read_module s at) };

    fn pass(c: Cursor, doc: &[u8]) -> Result<Cursor, Refusal>
        ensures value { result ≡ stands (read_module doc.now c.at) }
        ensures fields { Module.FIELDS ≡ 11 }
    {
        c.fields(doc, Module::FIELDS)?
            .past::<Name>(doc)?
            .optional::<Version>(doc)?
            .optional::<OnError>(doc)?
            .list::<EnumDecl>(doc, limits::LIST)?
            .optional::<Name>(doc)?
            .list::<ConstructorGroup>(doc, limits::LIST)?
            .list::<ConstructorGroup>(doc, limits::LIST)?
            .list::<VarDecl>(doc, limits::LIST)?
            .list::<Transition>(doc, limits::LIST)?
            .list::<Property>(doc, limits::LIST)?
            .list::<Property>(doc, limits::LIST)
    }
}

// A document.
pub(crate) struct Ir {}

impl Ir {
    pub(crate) const FIELDS: u64 = 2;
}

impl Item for Ir {
    ghost ends = { λ s at. stands (read_ir s at) };

    fn pass(c: Cursor, doc: &[u8]) -> Result<Cursor, Refusal>
        ensures value { result ≡ stands (read_ir doc.now c.at) }
        ensures fields { Ir.FIELDS ≡ 2 }
    {
        c.fields(doc, Ir::FIELDS)?
            .past::<IrVersion>(doc)?
            .list::<Module>(doc, limits::MODULES)
    }
}
