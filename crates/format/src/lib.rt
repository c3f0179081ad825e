// The types that every crate shares. What they mean is written in specs/.
#![tactic(auto)]

ghost use Rattle.format.specs.Promises.{FormatRefusalOf, FormatReasonNumber, FormatQuestionId, FormatQuestionQuery};

// A byte offset, counted from the start of what was lent.
#[derive(Clone, Copy)]
pub struct Offset(pub usize);

// R5.7: one type for each index space, so that one is not accepted for another.
#[derive(Clone, Copy)]
pub struct FunctionIndex(pub u32);

#[derive(Clone, Copy)]
pub struct LocalIndex(pub u32);

#[derive(Clone, Copy)]
pub struct TypeIndex(pub u32);

#[derive(Clone, Copy)]
pub struct FieldIndex(pub u32);

#[derive(Clone, Copy)]
pub struct TagIndex(pub u32);

// K9: the index spaces that the wider edition names as well. A label is counted within its function.
#[derive(Clone, Copy)]
pub struct LabelIndex(pub u32);

#[derive(Clone, Copy)]
pub struct TableIndex(pub u32);

#[derive(Clone, Copy)]
pub struct MemoryIndex(pub u32);

#[derive(Clone, Copy)]
pub struct GlobalIndex(pub u32);

#[derive(Clone, Copy)]
pub struct ElementIndex(pub u32);

#[derive(Clone, Copy)]
pub struct DataIndex(pub u32);

// Where in a function a piece of code metadata belongs: a byte offset within that function.
#[derive(Clone, Copy)]
pub struct CodeOffset(pub u32);

// K2: the same counted from the function's first instruction, as the older edition of hints counts.
#[derive(Clone, Copy)]
pub struct InstructionOffset(pub u32);

// By which table of ids a name payload is read: the specification's, or the extended name section's as well (K9).
#[derive(Clone, Copy)]
pub enum Edition {
    First,
    Wider,
}

// The questions to a name payload, each index in a space of its own.
#[derive(Clone, Copy)]
pub enum Question {
    ModuleName,
    FunctionName(FunctionIndex),
    LocalName(FunctionIndex, LocalIndex),
    LabelName(FunctionIndex, LabelIndex),
    TypeName(TypeIndex),
    TableName(TableIndex),
    MemoryName(MemoryIndex),
    GlobalName(GlobalIndex),
    ElementName(ElementIndex),
    DataName(DataIndex),
    FieldName(TypeIndex, FieldIndex),
    TagName(TagIndex),
    KeptContents(u8),
}

// What can be asked of one subsection: its name, the name with an index, the name with an index within another, its
// contents if kept.
#[derive(Clone, Copy)]
pub enum Query {
    ItsName,
    NameOf(u32),
    NameWithin(u32, u32),
    ItsContents,
}

// The ids of the name payload's subsections that have a meaning, 3 and 5 to 9 in the wider edition alone.
pub const MODULE_NAME: u8 = 0;

pub const FUNCTION_NAMES: u8 = 1;

pub const LOCAL_NAMES: u8 = 2;

pub const LABEL_NAMES: u8 = 3;

pub const TYPE_NAMES: u8 = 4;

pub const TABLE_NAMES: u8 = 5;

pub const MEMORY_NAMES: u8 = 6;

pub const GLOBAL_NAMES: u8 = 7;

pub const ELEMENT_NAMES: u8 = 8;

pub const DATA_NAMES: u8 = 9;

pub const FIELD_NAMES: u8 = 10;

pub const TAG_NAMES: u8 = 11;

// Why an input is refused, in the order of the numbers, which are 1 to 30.
#[derive(Clone, Copy)]
pub enum Reason {
    NoPreamble,
    PastItsPart,
    NumberTooLarge,
    NotText,
    SectionUnknown,
    SectionOrder,
    SectionTwice,
    SectionTooLate,
    SubsectionOrder,
    LeftOver,
    NotAbove,
    NotHint,
    OutputTooShort,
    ListsDisagree,
    SubsectionTooLarge,
    InputTooLarge,
    NotZero,
    AfterFinish,
    NoBody,
    NotReadable,
    NotOnBranch,
    NotMarkers,
    NoCustomer,
    NotOpen,
    HoldsInUse,
    NoRoom,
    Damaged,
    TotalTooLarge,
    NotImport,
    NotTheStore,
}

#[derive(Clone, Copy)]
pub struct Refusal {
    pub reason: Reason,
    pub offset: Offset,
}

// Where a part of what was lent lies.
#[derive(Clone, Copy)]
pub struct Place {
    pub offset: Offset,
    pub length: usize,
}

// The answer to a question.
pub type Answer = Result<Option<Place>, Refusal>;

// K3: which of two payloads, the one that was sent apart or the module's own.
#[derive(Clone, Copy)]
pub enum Whose {
    Separate,
    Own,
}

// The answer to a question over the two: whose name was found, or which of them is refused.
pub type PairAnswer = Result<Option<(Whose, Place)>, (Whose, Refusal)>;

// Why two payloads are not joined: one of them is refused, or what is written.
#[derive(Clone, Copy)]
pub enum JoinRefusal {
    Payload(Whose, Refusal),
    Output(Refusal),
}

// The answer to writing the two as one: how many bytes it left at the front of the output, which of them is refused, or a
// refusal of what is written.
pub type JoinWritten = Result<usize, JoinRefusal>;

// What judging a payload whole comes to.
pub type Verdict = Result<(), Refusal>;

#[derive(Clone, Copy)]
pub enum Hint {
    Unlikely,
    Likely,
}

// The answer to a question for a hint.
pub type HintAnswer = Result<Option<Hint>, Refusal>;

// The answer to a write: how many bytes it left at the front of the output.
pub type Written = Result<usize, Refusal>;

// The refusal of a verdict that is one: a let .. else binds nothing in its other branch.
pub fn refusal_of(verdict: Verdict) -> Refusal
    ensures { FormatRefusalOf verdict result }
{
    match verdict {
        // field by field, since the bytes between the fields would be copied with the whole
        Err(r) => {
            let reason = r.reason;
            let offset = r.offset;
            Refusal { reason, offset }
        }
        // never asked for
        Ok(()) => Refusal {
            reason: Reason::NoPreamble,
            offset: Offset(0),
        },
    }
}

impl Reason {
    // The number that a host sees and may store.
    pub fn number(self) -> u32
        ensures { FormatReasonNumber self result }
    {
        match self {
            Reason::NoPreamble => 1,
            Reason::PastItsPart => 2,
            Reason::NumberTooLarge => 3,
            Reason::NotText => 4,
            Reason::SectionUnknown => 5,
            Reason::SectionOrder => 6,
            Reason::SectionTwice => 7,
            Reason::SectionTooLate => 8,
            Reason::SubsectionOrder => 9,
            Reason::LeftOver => 10,
            Reason::NotAbove => 11,
            Reason::NotHint => 12,
            Reason::OutputTooShort => 13,
            Reason::ListsDisagree => 14,
            Reason::SubsectionTooLarge => 15,
            Reason::InputTooLarge => 16,
            Reason::NotZero => 17,
            Reason::AfterFinish => 18,
            Reason::NoBody => 19,
            Reason::NotReadable => 20,
            Reason::NotOnBranch => 21,
            Reason::NotMarkers => 22,
            Reason::NoCustomer => 23,
            Reason::NotOpen => 24,
            Reason::HoldsInUse => 25,
            Reason::NoRoom => 26,
            Reason::Damaged => 27,
            Reason::TotalTooLarge => 28,
            Reason::NotImport => 29,
            Reason::NotTheStore => 30,
        }
    }
}

impl Question {
    // The id of the subsection that is asked.
    pub fn id(self) -> u8
        ensures { FormatQuestionId self result }
    {
        match self {
            Question::ModuleName => MODULE_NAME,
            Question::FunctionName(_) => FUNCTION_NAMES,
            Question::LocalName(_, _) => LOCAL_NAMES,
            Question::LabelName(_, _) => LABEL_NAMES,
            Question::TypeName(_) => TYPE_NAMES,
            Question::TableName(_) => TABLE_NAMES,
            Question::MemoryName(_) => MEMORY_NAMES,
            Question::GlobalName(_) => GLOBAL_NAMES,
            Question::ElementName(_) => ELEMENT_NAMES,
            Question::DataName(_) => DATA_NAMES,
            Question::FieldName(_, _) => FIELD_NAMES,
            Question::TagName(_) => TAG_NAMES,
            Question::KeptContents(id) => id,
        }
    }

    // What is asked of it.
    pub fn query(self) -> Query
        ensures { FormatQuestionQuery self result }
    {
        match self {
            Question::ModuleName => Query::ItsName,
            Question::FunctionName(f) => Query::NameOf(f.0),
            Question::LocalName(f, k) => Query::NameWithin(f.0, k.0),
            Question::LabelName(f, k) => Query::NameWithin(f.0, k.0),
            Question::TypeName(t) => Query::NameOf(t.0),
            Question::TableName(t) => Query::NameOf(t.0),
            Question::MemoryName(m) => Query::NameOf(m.0),
            Question::GlobalName(g) => Query::NameOf(g.0),
            Question::ElementName(e) => Query::NameOf(e.0),
            Question::DataName(d) => Query::NameOf(d.0),
            Question::FieldName(t, k) => Query::NameWithin(t.0, k.0),
            Question::TagName(t) => Query::NameOf(t.0),
            Question::KeptContents(_) => Query::ItsContents,
        }
    }
}
