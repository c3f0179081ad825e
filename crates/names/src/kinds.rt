// What the subsection with an id holds.
ghost use Rattle.std.specs.Prelude.{◌≡◌};
ghost use Rattle.format.specs.Names.{known_kind, wider_kind};
ghost use Rattle.names.specs.Contents.{kind_meant};
ghost use Rattle.names.specs.Promises.{NamesKindOf};

use format::{
    DATA_NAMES, ELEMENT_NAMES, Edition, FIELD_NAMES, FUNCTION_NAMES, GLOBAL_NAMES, LABEL_NAMES,
    LOCAL_NAMES, MEMORY_NAMES, MODULE_NAME, TABLE_NAMES, TAG_NAMES, TYPE_NAMES,
};

#[derive(Clone, Copy)]
pub enum Kind {
    OneName,
    NameMap,
    IndirectMap,
    Kept,
}

// The first edition's table of ids; any other is kept.
fn first_kind(id: u8) -> Kind
    ensures { kind_meant result ≡ known_kind id }
{
    match id {
        MODULE_NAME => Kind::OneName,
        FUNCTION_NAMES | TYPE_NAMES | TAG_NAMES => Kind::NameMap,
        LOCAL_NAMES | FIELD_NAMES => Kind::IndirectMap,
        _ => Kind::Kept,
    }
}

// The wider edition's: six more, and else what it was.
fn wider_kind(id: u8) -> Kind
    ensures { kind_meant result ≡ wider_kind id }
{
    match id {
        LABEL_NAMES => Kind::IndirectMap,
        TABLE_NAMES | MEMORY_NAMES | GLOBAL_NAMES | ELEMENT_NAMES | DATA_NAMES => Kind::NameMap,
        _ => first_kind(id),
    }
}

// The table of an edition.
pub fn kind_of(edition: Edition, id: u8) -> Kind
    ensures { NamesKindOf edition id result }
{
    match edition {
        Edition::First => first_kind(id),
        Edition::Wider => wider_kind(id),
    }
}
