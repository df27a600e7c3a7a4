//! What each part of a text may be: parameters, bounds and types.

use crate::grammar::item_rows;
use crate::refusal::Problem::{NoTrait, NoType};
use crate::spelling::Form;
use crate::step::Doing::*;
use crate::step::Making::*;
use crate::step::Part::*;
use crate::step::Step::*;
use crate::step::When::*;
use crate::step::{Part, Row};

// Parameters, where-clauses and bounds.

const PARAMETERS: &[Row] = &[
    (At("<"), &[Pass, Go(ParameterList), Word(">")]),
    (Else, &[]),
];

const PARAMETER_LIST: &[Row] = &[
    (At(">"), &[]),
    (
        AtLifetime,
        &[Pass, If(":", Outlives), If(",", ParameterList)],
    ),
    (
        Else,
        &[
            Name,
            Do(Parameter),
            Go(ParameterBounds),
            If(",", ParameterList),
        ],
    ),
];

const PARAMETER_BOUNDS: &[Row] = &[
    (At(":"), &[Pass, Go(Bounds), Do(EndBounds)]),
    (Else, &[Do(EndBounds)]),
];

const OUTLIVES: &[Row] = &[(AtLifetime, &[Pass, If("+", Outlives)]), (Else, &[])];

const WHERE_LIST: &[Row] = &[
    (At("{"), &[]),
    (At(";"), &[]),
    (AtEnd, &[]),
    (
        AtLifetime,
        &[Pass, Word(":"), Go(Outlives), If(",", WhereList)],
    ),
    (
        Else,
        &[
            Go(Type),
            Do(Subject),
            Word(":"),
            Go(Bounds),
            Do(EndBounds),
            If(",", WhereList),
        ],
    ),
];

// Bounds of parameters, of types in where-clauses and of traits. There may be none, and `+` may end them.
const BOUNDS: &[Row] = &[
    (AtLifetime, &[Pass, If("+", Bounds)]),
    (At("?"), &[Pass, Word("Sized"), Do(Relax), If("+", Bounds)]),
    (AtName, &[Pass, Make(Bound), If("+", Bounds)]),
    (Else, &[]),
];

// What `dyn` types name, several or one.
const NAMED: &[Row] = &[
    (AtLifetime, &[Pass, If("+", Named)]),
    (AtName, &[Pass, Make(Bound), If("+", Named)]),
    (Else, &[]),
];

const ONE_NAMED: &[Row] = &[
    (AtLifetime, &[Pass]),
    (AtName, &[Pass, Make(Bound)]),
    (Else, &[]),
];
// What questions ask.
const ASKED: &[Row] = &[
    (AtLifetime, &[Pass, If("+", Asked)]),
    (AtName, &[Pass, Make(Bound), If("+", Asked)]),
    (Else, &[Refuse(NoTrait)]),
];

// Types. Behind a mark a type is narrow: it takes no `+`.

const TYPE: &[Row] = &[
    (AtName, &[Pass, Go(Arguments)]),
    (At("dyn"), &[Pass, Go(Named), Make(Dyn)]),
    (Else, &[Go(PlainType)]),
];

const NARROW_TYPE: &[Row] = &[
    (At("dyn"), &[Pass, Go(OneNamed), Make(Dyn)]),
    (Else, &[Go(PlainType)]),
];

const PLAIN_TYPE: &[Row] = &[
    (AtName, &[Pass, Go(Arguments)]),
    (At("("), &[Pass, Make(Begin), Go(Parentheses)]),
    (At("["), &[Pass, Make(Begin), Go(Type), Go(Brackets)]),
    (At("&"), &[Pass, Make(Begin), Go(Reference)]),
    (At("*"), &[Pass, Make(Begin), Go(Pointer)]),
    (At("!"), &[Pass, Make(Plain)]),
    (At("fn"), &[Pass, Go(FunctionType)]),
    (At("Self"), &[Pass, Make(Own)]),
    (At("impl"), &[Mark, Pass, Go(ImplParameter)]),
    (Else, &[Refuse(NoType)]),
];

// What follows `impl` where that begins a type. In questions, `impl::2::T` is the parameter of the second impl.
const IMPL_PARAMETER: &[Row] = &[
    (At("::"), &[Pass, Go(ImplNumbered)]),
    (Else, &[Back, Refuse(NoType)]),
];

const IMPL_NUMBERED: &[Row] = &[
    (
        AtNumber,
        &[ImplNumber, Word("::"), Name, Make(ImplConstant)],
    ),
    (Else, &[Back, Refuse(NoType)]),
];

// A type in parentheses, if no comma follows it, and else a tuple.
const PARENTHESES: &[Row] = &[
    (At(")"), &[Pass, Make(EndTuple)]),
    (Else, &[Go(Type), Go(ParenthesesNext)]),
];

const PARENTHESES_NEXT: &[Row] = &[
    (At(")"), &[Pass, Make(EndParentheses)]),
    (Else, &[Word(","), Go(Tuple)]),
];

const TUPLE: &[Row] = &[
    (At(")"), &[Pass, Make(EndTuple)]),
    (Else, &[Go(Type), Go(TupleNext)]),
];

const TUPLE_NEXT: &[Row] = &[
    (At(","), &[Pass, Go(Tuple)]),
    (Else, &[Word(")"), Make(EndTuple)]),
];

const BRACKETS: &[Row] = &[
    (At("]"), &[Pass, Make(End(Form::Slice))]),
    (Else, &[Word(";"), Number, Make(EndArray), Word("]")]),
];

const REFERENCE: &[Row] = &[(AtLifetime, &[Pass, Go(Referent)]), (Else, &[Go(Referent)])];

const REFERENT: &[Row] = &[
    (
        At("mut"),
        &[Pass, Go(NarrowType), Make(End(Form::MutableReference))],
    ),
    (Else, &[Go(NarrowType), Make(End(Form::Reference))]),
];

const POINTER: &[Row] = &[
    (
        At("const"),
        &[Pass, Go(NarrowType), Make(End(Form::ConstantPointer))],
    ),
    (
        Else,
        &[Word("mut"), Go(NarrowType), Make(End(Form::MutablePointer))],
    ),
];

const FUNCTION_TYPE: &[Row] = &[(Else, &[Word("("), Make(Begin), Go(FunctionParts)])];

const FUNCTION_PARTS: &[Row] = &[
    (At(")"), &[Pass, Go(FunctionResult)]),
    (Else, &[Go(Type), Go(FunctionNext)]),
];

const FUNCTION_NEXT: &[Row] = &[
    (At(","), &[Pass, Go(FunctionParts)]),
    (Else, &[Word(")"), Go(FunctionResult)]),
];

const FUNCTION_RESULT: &[Row] = &[
    (At("->"), &[Pass, Go(NarrowType), Make(EndFunction)]),
    (Else, &[Make(Begin), Make(EndTuple), Make(EndFunction)]),
];

// What follows a name that begins a type. In questions, `f::T` is the parameter of a function.
const ARGUMENTS: &[Row] = &[
    (
        At("<"),
        &[
            Make(Begin),
            Pass,
            Go(ArgumentList),
            Word(">"),
            Make(EndPath),
        ],
    ),
    (At("::"), &[Make(Begin), Pass, Name, Make(Constant)]),
    (Else, &[Make(Plain)]),
];

const ARGUMENT_LIST: &[Row] = &[
    (At(">"), &[]),
    (AtLifetime, &[Pass, If(",", ArgumentList)]),
    (Else, &[Go(Type), If(",", ArgumentList)]),
];

/// What the part may be. Types, which are the most, come first.
pub(crate) fn rows_of(part: Part) -> &'static [Row] {
    match part {
        Part::Type => TYPE,
        Part::NarrowType => NARROW_TYPE,
        Part::PlainType => PLAIN_TYPE,
        Part::Parentheses => PARENTHESES,
        Part::ParenthesesNext => PARENTHESES_NEXT,
        Part::Tuple => TUPLE,
        Part::TupleNext => TUPLE_NEXT,
        Part::Brackets => BRACKETS,
        Part::Reference => REFERENCE,
        Part::Referent => REFERENT,
        Part::Pointer => POINTER,
        Part::FunctionType => FUNCTION_TYPE,
        Part::FunctionParts => FUNCTION_PARTS,
        Part::FunctionNext => FUNCTION_NEXT,
        Part::FunctionResult => FUNCTION_RESULT,
        Part::Arguments => ARGUMENTS,
        Part::ArgumentList => ARGUMENT_LIST,
        Part::ImplParameter => IMPL_PARAMETER,
        Part::ImplNumbered => IMPL_NUMBERED,
        other => bound_rows(other),
    }
}

// The same of parts of bounds.
fn bound_rows(part: Part) -> &'static [Row] {
    match part {
        Part::Parameters => PARAMETERS,
        Part::ParameterList => PARAMETER_LIST,
        Part::ParameterBounds => PARAMETER_BOUNDS,
        Part::Outlives => OUTLIVES,
        Part::WhereList => WHERE_LIST,
        Part::Bounds => BOUNDS,
        Part::Named => NAMED,
        Part::OneNamed => ONE_NAMED,
        Part::Asked => ASKED,
        other => item_rows(other),
    }
}
