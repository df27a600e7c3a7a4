//! The steps by which a text is read.

use crate::refusal::Problem;
use crate::spelling::Form;
use crate::token::Kind;

/// A part of a text. Of a list it is what may follow, and so is a part whose name ends in `Next`.
#[derive(Clone, Copy)]
pub(crate) enum Part {
    Items,
    Asking,
    AfterAuto,
    AfterFn,
    AfterImpl,
    Public,
    PublicItem,
    Used,
    UsedNext,
    UsedList,
    UsedListNext,
    Unsafe,
    Item,
    Attribute,
    OuterAttribute,
    InnerAttribute,
    Marked,
    MarkedPublic,
    MarkedItem,
    MarkedTrait,
    MarkedAttribute,
    MarkedOuterAttribute,
    Lints,
    LintsNext,
    AutoTrait,
    Traits,
    Above,
    Impl,
    Definition,
    Polarity,
    StructFields,
    StructBody,
    TupleFields,
    PublicField,
    PublicParenthesis,
    Fields,
    FieldVisibility,
    Variants,
    VariantFields,
    Function,
    Signature,
    Values,
    Declared,
    Pattern,
    Body,
    Statements,
    Never,
    Stopping,
    CallArguments,
    Given,
    GivenValue,
    GivenReference,
    Parameters,
    ParameterList,
    ParameterBounds,
    Outlives,
    WhereList,
    Bounds,
    Named,
    OneNamed,
    Asked,
    Type,
    NarrowType,
    PlainType,
    Parentheses,
    ParenthesesNext,
    Tuple,
    TupleNext,
    Brackets,
    Reference,
    Referent,
    Pointer,
    FunctionType,
    FunctionParts,
    FunctionNext,
    FunctionResult,
    Arguments,
    ArgumentList,
    ImplParameter,
    ImplNumbered,
}

/// What is made of the words of a type or of bounds. The word that is meant is the one that was passed last.
#[derive(Clone, Copy)]
pub(crate) enum Making {
    /// The word is a type's name, without arguments.
    Plain,
    /// A type begins: one of the word's name, or of another form.
    Begin,
    /// A type ends that is a name with arguments.
    EndPath,
    /// The word names the parameter of the function with whose name the type began.
    Constant,
    /// The word names the parameter of the impl whose number was passed last.
    ImplConstant,
    EndParentheses,
    EndTuple,
    EndFunction,
    End(Form),
    /// An array's type ends, whose length is the word.
    EndArray,
    /// `Self`
    Own,
    /// A `dyn` type of the traits that were named.
    Dyn,
    /// The word names a trait.
    Bound,
}

/// What is done with what was read. The word that is meant is the one that was passed last.
#[derive(Clone, Copy)]
pub(crate) enum Doing {
    BeginQuestion,
    /// An item begins.
    BeginItem,
    /// An item begins whose bounds say nothing.
    BeginType,
    /// The signature follows again, which says what holds in the body.
    BeginBody,
    /// The word is the item's name.
    NameItem,
    /// The name of the struct is a value, too, if it has no parameters.
    Unit,
    EndType,
    /// The word is the name of a trait: whether that is an auto trait, and whether it is coinductive.
    Trait(bool, bool),
    /// The bounds are those of the trait.
    SetAbove,
    /// The impl is a negative one.
    Negate,
    /// The word names the trait of the impl.
    SetTrait,
    /// The last type is that which the impl is for.
    SetHead,
    EndImpl,
    /// The word is the name of a parameter.
    Parameter,
    /// The bounds that follow are those of the last type.
    Subject,
    /// That type may have no size.
    Relax,
    EndBounds,
    Field,
    /// The last type is that of the value whose name, or `_`, stands before it.
    Value,
    EndSignature,
    Ask,
    /// The word names the function that is called.
    BeginCall,
    /// The word names a value that is given to the function.
    Give,
    /// It is a reference to that value that is given.
    Refer(Form),
    EndCall,
}

/// A step.
#[derive(Clone, Copy)]
pub(crate) enum Step {
    /// The word is passed, whatever it is.
    Pass,
    /// This word has to stand here, and is passed.
    Word(&'static str),
    /// A name has to stand here, and is passed.
    Name,
    Number,
    /// The number of an impl has to stand here, and is passed.
    ImplNumber,
    /// A number in quotes has to stand here, which is the limit on depth.
    Limit,
    /// An impl begins here.
    Keep,
    /// This place is kept.
    Mark,
    /// What follows is what stands at the place that was kept last.
    Back,
    Go(Part),
    /// If this word stands here, it is passed, and the part follows.
    If(&'static str, Part),
    Make(Making),
    Do(Doing),
    Refuse(Problem),
}

/// Where a part may be what a row says.
#[derive(Clone, Copy)]
pub(crate) enum When {
    At(&'static str),
    AtName,
    AtLifetime,
    AtNumber,
    AtEnd,
    Else,
}

impl When {
    /// Whether a word of this text and kind is one before which the part may be that.
    pub(crate) fn fits(self, text: &[u8], kind: Kind) -> bool {
        match self {
            When::At(word) => is_word(text, word),
            When::AtName => matches!(kind, Kind::Name),
            When::AtLifetime => matches!(kind, Kind::Lifetime),
            When::AtNumber => matches!(kind, Kind::Number),
            When::AtEnd => matches!(kind, Kind::End),
            When::Else => true,
        }
    }
}

/// Whether the text is this word. Mostly the first bytes differ.
pub(crate) fn is_word(text: &[u8], word: &'static str) -> bool {
    match (text, word.as_bytes()) {
        ([first, behind @ ..], [other, others @ ..]) => *first == *other && behind == others,
        _ => false,
    }
}

/// What a part may be: before which word, and the steps by which it is read. The first row that fits counts.
pub(crate) type Row = (When, &'static [Step]);
