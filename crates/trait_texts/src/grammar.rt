//! What each part of a text may be: items and questions.

use crate::refusal::Problem::{Attribute as NoAttribute, NoItem, NoValue};
use crate::spelling::Form;
use crate::step::Doing::*;
use crate::step::Making::*;
use crate::step::Part::*;
use crate::step::Step::*;
use crate::step::When::*;
use crate::step::{Part, Row, Step};

// Items and questions.

// The most begin with a name, which is mostly a question's.
const ITEMS: &[Row] = &[
    (At("auto"), &[Pass, Go(AfterAuto), Go(Items)]),
    (AtName, QUESTION),
    (AtEnd, &[Pass]),
    (At("#"), &[Pass, Go(Attribute), Go(Items)]),
    (At("pub"), &[Pass, Go(Public), Go(Items)]),
    (At("unsafe"), &[Pass, Go(Unsafe), Go(Items)]),
    (At("fn"), &[Pass, Go(AfterFn), Go(Items)]),
    (At("impl"), &[Pass, Go(AfterImpl), Go(Items)]),
    (At("use"), &[Pass, Go(Used), Word(";"), Go(Items)]),
    (At("("), QUESTION),
    (At("["), QUESTION),
    (At("&"), QUESTION),
    (At("*"), QUESTION),
    (At("!"), QUESTION),
    (At("dyn"), QUESTION),
    (Else, &[Go(Item), Go(Items)]),
];

const QUESTION: &[Step] = &[
    Do(BeginQuestion),
    Go(Type),
    Word(":"),
    Go(Asked),
    Do(Ask),
    Word("?"),
    Go(Items),
];

const ASKING: &[Row] = &[(Else, &[Word(":"), Go(Asked), Do(Ask), Word("?")])];

// `auto` may be a type's name, too, and `fn` and `impl` may begin a type.
const AFTER_AUTO: &[Row] = &[
    (At("trait"), &[Go(AutoTrait)]),
    (Else, &[Do(BeginQuestion), Go(Arguments), Go(Asking)]),
];

const AFTER_FN: &[Row] = &[
    (At("("), &[Do(BeginQuestion), Go(FunctionType), Go(Asking)]),
    (Else, &[Go(Function)]),
];

const AFTER_IMPL: &[Row] = &[
    (
        At("::"),
        &[Do(BeginQuestion), Mark, Go(ImplParameter), Go(Asking)],
    ),
    (Else, &[Go(Impl)]),
];

const PUBLIC: &[Row] = &[
    (At("("), &[Pass, Word("crate"), Word(")"), Go(PublicItem)]),
    (Else, &[Go(PublicItem)]),
];

const PUBLIC_ITEM: &[Row] = &[
    (At("unsafe"), &[Pass, Go(Unsafe)]),
    (At("auto"), &[Pass, Go(AutoTrait)]),
    (At("fn"), &[Pass, Go(Function)]),
    (At("use"), &[Pass, Go(Used), Word(";")]),
    (Else, &[Go(Item)]),
];

// What is brought in from elsewhere has to be declared all the same, under the same name.
const USED: &[Row] = &[
    (At("{"), &[Pass, Go(UsedList)]),
    (At("*"), &[Pass]),
    (At("crate"), &[Pass, Go(UsedNext)]),
    (At("self"), &[Pass, Go(UsedNext)]),
    (At("super"), &[Pass, Go(UsedNext)]),
    (Else, &[Name, Go(UsedNext)]),
];

const USED_NEXT: &[Row] = &[(At("::"), &[Pass, Go(Used)]), (Else, &[])];

const USED_LIST: &[Row] = &[(At("}"), &[Pass]), (Else, &[Go(Used), Go(UsedListNext)])];

const USED_LIST_NEXT: &[Row] = &[(At(","), &[Pass, Go(UsedList)]), (Else, &[Word("}")])];

const UNSAFE: &[Row] = &[
    (At("auto"), &[Pass, Go(AutoTrait)]),
    (At("trait"), &[Go(Item)]),
    (Else, &[Word("impl"), Go(Impl)]),
];

const ITEM: &[Row] = &[
    (
        At("trait"),
        &[
            Pass,
            Do(BeginType),
            Name,
            Do(Trait(false, false)),
            Go(Traits),
        ],
    ),
    (At("impl"), &[Pass, Go(Impl)]),
    (
        At("struct"),
        &[
            Pass,
            Do(BeginType),
            Name,
            Do(NameItem),
            Go(Parameters),
            Go(StructFields),
            Do(EndType),
        ],
    ),
    (
        At("enum"),
        &[
            Pass,
            Do(BeginType),
            Name,
            Do(NameItem),
            Go(Parameters),
            If("where", WhereList),
            Word("{"),
            Go(Variants),
            Word("}"),
            Do(EndType),
        ],
    ),
    (Else, &[Refuse(NoItem)]),
];

// Attributes. Behind one that marks a trait as coinductive, nothing may follow but others, and a trait.

// How lints are told says nothing here.
const LEVEL: &[Step] = &[Pass, Word("("), Go(Lints), Word("]")];

const ATTRIBUTE: &[Row] = &[
    (At("!"), &[Pass, Word("["), Go(InnerAttribute)]),
    (Else, &[Word("["), Go(OuterAttribute)]),
];

const INNER_ATTRIBUTE: &[Row] = &[
    (At("allow"), LEVEL),
    (At("warn"), LEVEL),
    (At("deny"), LEVEL),
    (At("forbid"), LEVEL),
    (At("feature"), &[Pass, Word("("), Go(Lints), Word("]")]),
    (At("recursion_limit"), &[Pass, Word("="), Limit, Word("]")]),
    (Else, &[Refuse(NoAttribute)]),
];

const OUTER_ATTRIBUTE: &[Row] = &[
    (At("allow"), LEVEL),
    (At("warn"), LEVEL),
    (At("deny"), LEVEL),
    (At("forbid"), LEVEL),
    (At("marker"), &[Pass, Word("]")]),
    (At("rustc_coinductive"), &[Pass, Word("]"), Go(Marked)]),
    (Else, &[Refuse(NoAttribute)]),
];

const MARKED: &[Row] = &[
    (At("#"), &[Pass, Go(MarkedAttribute), Go(Marked)]),
    (At("pub"), &[Pass, Go(MarkedPublic)]),
    (Else, &[Go(MarkedItem)]),
];

const MARKED_ATTRIBUTE: &[Row] = &[
    (At("!"), &[Pass, Word("["), Go(InnerAttribute)]),
    (Else, &[Word("["), Go(MarkedOuterAttribute)]),
];

const MARKED_OUTER_ATTRIBUTE: &[Row] = &[
    (At("allow"), LEVEL),
    (At("warn"), LEVEL),
    (At("deny"), LEVEL),
    (At("forbid"), LEVEL),
    (At("marker"), &[Pass, Word("]")]),
    (At("rustc_coinductive"), &[Pass, Word("]")]),
    (Else, &[Refuse(NoAttribute)]),
];

const MARKED_PUBLIC: &[Row] = &[
    (At("("), &[Pass, Word("crate"), Word(")"), Go(MarkedItem)]),
    (Else, &[Go(MarkedItem)]),
];

const MARKED_ITEM: &[Row] = &[
    (At("unsafe"), &[Pass, Go(MarkedTrait)]),
    (Else, &[Go(MarkedTrait)]),
];

const MARKED_TRAIT: &[Row] = &[
    (At("auto"), &[Pass, Go(AutoTrait)]),
    (
        Else,
        &[
            Word("trait"),
            Do(BeginType),
            Name,
            Do(Trait(false, true)),
            Go(Traits),
        ],
    ),
];

const LINTS: &[Row] = &[(At(")"), &[Pass]), (Else, &[Name, Go(LintsNext)])];

const LINTS_NEXT: &[Row] = &[
    (At("::"), &[Pass, Name, Go(LintsNext)]),
    (At(","), &[Pass, Go(Lints)]),
    (Else, &[Word(")")]),
];

// Traits and impls.

const AUTO_TRAIT: &[Row] = &[(
    Else,
    &[
        Word("trait"),
        Do(BeginType),
        Name,
        Do(Trait(true, true)),
        Go(Traits),
    ],
)];

const TRAITS: &[Row] = &[(Else, &[Go(Above), Word("{"), Word("}")])];

const ABOVE: &[Row] = &[(At(":"), &[Pass, Go(Bounds), Do(SetAbove)]), (Else, &[])];

const IMPL: &[Row] = &[(
    Else,
    &[
        Do(BeginItem),
        Keep,
        Go(Parameters),
        Go(Polarity),
        Name,
        Do(SetTrait),
        Word("for"),
        Go(Type),
        Do(SetHead),
        If("where", WhereList),
        Word("{"),
        Word("}"),
        Do(EndImpl),
    ],
)];

// What is read of a positive impl again, from behind `impl` on, if it is asked about.
const DEFINITION: &[Row] = &[(
    Else,
    &[
        Go(Parameters),
        Name,
        Do(SetTrait),
        Word("for"),
        Go(Type),
        Do(SetHead),
        If("where", WhereList),
    ],
)];

const POLARITY: &[Row] = &[(At("!"), &[Pass, Do(Negate)]), (Else, &[])];

// Structs and enums.

const STRUCT_FIELDS: &[Row] = &[
    (
        At("("),
        &[
            Pass,
            Go(TupleFields),
            Word(")"),
            If("where", WhereList),
            Word(";"),
        ],
    ),
    (Else, &[If("where", WhereList), Go(StructBody)]),
];

const STRUCT_BODY: &[Row] = &[
    (At("{"), &[Pass, Go(Fields), Word("}")]),
    (Else, &[Word(";"), Do(Unit)]),
];

const TUPLE_FIELDS: &[Row] = &[
    (At(")"), &[]),
    (At("pub"), &[Pass, Go(PublicField), If(",", TupleFields)]),
    (Else, &[Go(Type), Do(Field), If(",", TupleFields)]),
];

const PUBLIC_FIELD: &[Row] = &[
    (At("("), &[Pass, Go(PublicParenthesis)]),
    (Else, &[Go(Type), Do(Field)]),
];

const PUBLIC_PARENTHESIS: &[Row] = &[
    (At("crate"), &[Pass, Word(")"), Go(Type), Do(Field)]),
    (Else, &[Make(Begin), Go(Parentheses), Do(Field)]),
];

const FIELDS: &[Row] = &[
    (At("}"), &[]),
    (
        At("pub"),
        &[
            Pass,
            Go(FieldVisibility),
            Name,
            Word(":"),
            Go(Type),
            Do(Field),
            If(",", Fields),
        ],
    ),
    (
        Else,
        &[Name, Word(":"), Go(Type), Do(Field), If(",", Fields)],
    ),
];

const FIELD_VISIBILITY: &[Row] = &[(At("("), &[Pass, Word("crate"), Word(")")]), (Else, &[])];

const VARIANTS: &[Row] = &[
    (At("}"), &[]),
    (Else, &[Name, Go(VariantFields), If(",", Variants)]),
];

const VARIANT_FIELDS: &[Row] = &[
    (At("("), &[Pass, Go(TupleFields), Word(")")]),
    (At("{"), &[Pass, Go(Fields), Word("}")]),
    (Else, &[]),
];

// Functions. If there is something in the body, the signature is read once more: there its parameters are types of their own.

const FUNCTION: &[Row] = &[(
    Else,
    &[
        Do(BeginItem),
        Name,
        Do(NameItem),
        Mark,
        Go(Signature),
        Do(EndSignature),
        Go(Body),
    ],
)];

const SIGNATURE: &[Row] = &[(
    Else,
    &[
        Go(Parameters),
        Word("("),
        Go(Values),
        Word(")"),
        If("where", WhereList),
        Word("{"),
    ],
)];

const VALUES: &[Row] = &[(At(")"), &[]), (Else, &[Go(Declared), If(",", Values)])];

const DECLARED: &[Row] = &[(
    Else,
    &[Go(Pattern), Make(Begin), Word(":"), Go(Type), Do(Value)],
)];

const PATTERN: &[Row] = &[
    (At("_"), &[Pass]),
    (At("mut"), &[Pass, Name]),
    (Else, &[Name]),
];

const BODY: &[Row] = &[
    (At("}"), &[Pass]),
    (
        Else,
        &[
            Back,
            Do(BeginBody),
            Go(Signature),
            Go(Statements),
            Word("}"),
        ],
    ),
];

// The last call may stand without `;`.
const STATEMENTS: &[Row] = &[
    (At("}"), &[]),
    (
        At("let"),
        &[
            Pass,
            Go(Declared),
            Word("="),
            Go(Never),
            Word(";"),
            Go(Statements),
        ],
    ),
    (
        Else,
        &[
            Name,
            Do(BeginCall),
            Go(CallArguments),
            Word("("),
            Go(Given),
            Word(")"),
            Do(EndCall),
            If(";", Statements),
        ],
    ),
];
// What has any type, since it never comes to a value.
const NEVER: &[Row] = &[
    (At("loop"), &[Pass, Word("{"), Word("}")]),
    (At("panic"), &[Pass, Go(Stopping)]),
    (At("todo"), &[Pass, Go(Stopping)]),
    (At("unimplemented"), &[Pass, Go(Stopping)]),
    (At("unreachable"), &[Pass, Go(Stopping)]),
    (Else, &[Refuse(NoValue)]),
];

const STOPPING: &[Row] = &[(Else, &[Word("!"), Word("("), Word(")")])];

const CALL_ARGUMENTS: &[Row] = &[
    (At("::"), &[Pass, Word("<"), Go(ArgumentList), Word(">")]),
    (Else, &[]),
];

const GIVEN: &[Row] = &[(At(")"), &[]), (Else, &[Go(GivenValue), If(",", Given)])];

const GIVEN_VALUE: &[Row] = &[
    (At("&"), &[Pass, Go(GivenReference)]),
    (Else, &[Name, Do(Give)]),
];

const GIVEN_REFERENCE: &[Row] = &[
    (
        At("mut"),
        &[Pass, Go(GivenValue), Do(Refer(Form::MutableReference))],
    ),
    (Else, &[Go(GivenValue), Do(Refer(Form::Reference))]),
];

/// What the part may be, if it is none of a type and of bounds.
pub(crate) fn item_rows(part: Part) -> &'static [Row] {
    match part {
        Part::Above => ABOVE,
        Part::Impl => IMPL,
        Part::Definition => DEFINITION,
        Part::Polarity => POLARITY,
        Part::StructFields => STRUCT_FIELDS,
        Part::StructBody => STRUCT_BODY,
        Part::TupleFields => TUPLE_FIELDS,
        Part::PublicField => PUBLIC_FIELD,
        Part::PublicParenthesis => PUBLIC_PARENTHESIS,
        Part::Fields => FIELDS,
        Part::FieldVisibility => FIELD_VISIBILITY,
        Part::Variants => VARIANTS,
        Part::VariantFields => VARIANT_FIELDS,
        other => function_rows(other),
    }
}

// The same of parts of functions.
fn function_rows(part: Part) -> &'static [Row] {
    match part {
        Part::Function => FUNCTION,
        Part::Signature => SIGNATURE,
        Part::Values => VALUES,
        Part::Declared => DECLARED,
        Part::Pattern => PATTERN,
        Part::Body => BODY,
        Part::Statements => STATEMENTS,
        Part::Never => NEVER,
        Part::Stopping => STOPPING,
        Part::CallArguments => CALL_ARGUMENTS,
        Part::Given => GIVEN,
        Part::GivenValue => GIVEN_VALUE,
        Part::GivenReference => GIVEN_REFERENCE,
        other => text_rows(other),
    }
}

// The same of parts of a text.
fn text_rows(part: Part) -> &'static [Row] {
    match part {
        Part::Items => ITEMS,
        Part::Asking => ASKING,
        Part::AfterAuto => AFTER_AUTO,
        Part::AfterFn => AFTER_FN,
        Part::AfterImpl => AFTER_IMPL,
        Part::Public => PUBLIC,
        Part::PublicItem => PUBLIC_ITEM,
        Part::Used => USED,
        Part::UsedNext => USED_NEXT,
        Part::UsedList => USED_LIST,
        Part::UsedListNext => USED_LIST_NEXT,
        Part::Unsafe => UNSAFE,
        Part::Item => ITEM,
        Part::Attribute => ATTRIBUTE,
        Part::OuterAttribute => OUTER_ATTRIBUTE,
        Part::InnerAttribute => INNER_ATTRIBUTE,
        Part::Marked => MARKED,
        Part::MarkedPublic => MARKED_PUBLIC,
        Part::MarkedItem => MARKED_ITEM,
        Part::MarkedTrait => MARKED_TRAIT,
        Part::MarkedAttribute => MARKED_ATTRIBUTE,
        Part::MarkedOuterAttribute => MARKED_OUTER_ATTRIBUTE,
        Part::Lints => LINTS,
        Part::LintsNext => LINTS_NEXT,
        Part::AutoTrait => AUTO_TRAIT,
        Part::Traits => TRAITS,
        _ => &[],
    }
}
