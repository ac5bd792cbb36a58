use scalar_ops::Op;

/// An argument: a column of the row of `tests.rt`, an integer, or a text.
pub(crate) enum Arg {
    Column(u32),
    Int(i64),
    Text(&'static str),
}

/// What a call is to be worth; a span by its begin and its end.
pub(crate) enum Want {
    Null,
    Int(i64),
    Bool(bool),
    Text(&'static str),
    Span(u32, u32),
}

/// An operator, its arguments, and what the call is to be worth.
pub(crate) type Case = (Op, &'static [Arg], Want);

const NULL: Arg = Arg::Column(0);

const TRUE: Arg = Arg::Column(1);

const FALSE: Arg = Arg::Column(2);

const ANN: Arg = Arg::Column(3);

const MET: Arg = Arg::Column(4);

const BO: Arg = Arg::Column(5);

const COMMA: Arg = Arg::Column(6);
/// 0-5, which ends in `met`
const ANN_M: Arg = Arg::Column(7);
/// 4-10
const MET_BO: Arg = Arg::Column(8);
/// 5-13, from `met` to `42`
const CUT: Arg = Arg::Column(9);
/// 2-24, from `Änn` to the end
const TAIL: Arg = Arg::Column(10);

const FORTY_TWO: Arg = Arg::Column(11);

const ALL: Arg = Arg::Column(12);

const AT_0: Arg = Arg::Column(13);

const AT_4: Arg = Arg::Column(14);

const AT_5: Arg = Arg::Column(15);

const AT_7: Arg = Arg::Column(16);

const AT_24: Arg = Arg::Column(17);
/// A column that the row doesn't have
const PAST: Arg = Arg::Column(99);

/// Functions of one span, and of two.
pub(crate) static OF_SPANS: [Case; 18] = [
    (Op::GetBegin, &[MET], Want::Int(4)),
    (Op::GetEnd, &[MET], Want::Int(7)),
    (Op::GetLength, &[MET], Want::Int(3)),
    (Op::GetLength, &[AT_24], Want::Int(0)),
    (Op::GetText, &[BO], Want::Text("Bö")),
    (Op::GetText, &[AT_0], Want::Text("")),
    (Op::GetBegin, &[NULL], Want::Null),
    (Op::GetEnd, &[PAST], Want::Null),
    (Op::GetLength, &[NULL], Want::Null),
    (Op::GetText, &[NULL], Want::Null),
    (Op::CombineSpans, &[MET, ANN], Want::Span(0, 7)),
    (Op::CombineSpans, &[NULL, MET], Want::Null),
    (Op::CombineSpans, &[MET, NULL], Want::Null),
    (Op::SpanBetween, &[ANN, MET], Want::Span(3, 4)),
    (Op::SpanBetween, &[MET, ANN], Want::Span(7, 7)),
    (Op::SpanBetween, &[ANN_M, MET], Want::Span(5, 5)),
    (Op::SpanBetween, &[NULL, MET], Want::Null),
    (Op::SpanBetween, &[MET, NULL], Want::Null),
];

/// Contexts, in characters and in tokens.
pub(crate) static CONTEXTS: [Case; 23] = [
    (Op::LeftContext, &[BO, Arg::Int(100)], Want::Span(0, 8)),
    (Op::LeftContext, &[BO, Arg::Int(-1)], Want::Span(8, 8)),
    (Op::LeftContext, &[AT_0, Arg::Int(5)], Want::Span(0, 0)),
    (Op::LeftContext, &[NULL, Arg::Int(5)], Want::Null),
    (Op::LeftContext, &[BO, NULL], Want::Null),
    (Op::RightContext, &[BO, Arg::Int(100)], Want::Span(10, 24)),
    (Op::RightContext, &[BO, Arg::Int(-1)], Want::Span(10, 10)),
    (Op::RightContext, &[AT_24, Arg::Int(1)], Want::Span(24, 24)),
    (Op::RightContext, &[NULL, Arg::Int(5)], Want::Null),
    (Op::RightContext, &[BO, NULL], Want::Null),
    (Op::LeftContextTok, &[BO, Arg::Int(2)], Want::Span(0, 8)),
    (Op::LeftContextTok, &[CUT, Arg::Int(1)], Want::Span(0, 5)),
    (Op::LeftContextTok, &[TAIL, Arg::Int(1)], Want::Span(2, 2)),
    (Op::LeftContextTok, &[BO, Arg::Int(0)], Want::Span(8, 8)),
    (
        Op::LeftContextTok,
        &[AT_24, Arg::Int(1)],
        Want::Span(23, 24),
    ),
    (Op::LeftContextTok, &[NULL, Arg::Int(1)], Want::Null),
    (Op::LeftContextTok, &[BO, NULL], Want::Null),
    (Op::RightContextTok, &[CUT, Arg::Int(1)], Want::Span(13, 19)),
    (
        Op::RightContextTok,
        &[BO, Arg::Int(100)],
        Want::Span(10, 24),
    ),
    (Op::RightContextTok, &[BO, Arg::Int(0)], Want::Span(10, 10)),
    (
        Op::RightContextTok,
        &[AT_24, Arg::Int(1)],
        Want::Span(24, 24),
    ),
    (Op::RightContextTok, &[NULL, Arg::Int(1)], Want::Null),
    (Op::RightContextTok, &[BO, NULL], Want::Null),
];

/// Predicates of two values.
pub(crate) static OF_TWO: [Case; 33] = [
    (
        Op::Follows { min: 1, max: 1 },
        &[ANN, MET],
        Want::Bool(true),
    ),
    (
        Op::Follows { min: 0, max: 100 },
        &[MET, ANN],
        Want::Bool(false),
    ),
    (
        Op::Follows { min: 0, max: 100 },
        &[ANN_M, MET],
        Want::Bool(false),
    ),
    (
        Op::Follows { min: 0, max: 0 },
        &[BO, COMMA],
        Want::Bool(true),
    ),
    (
        Op::Follows { min: 0, max: 100 },
        &[NULL, MET],
        Want::Bool(false),
    ),
    (
        Op::Follows { min: 0, max: 100 },
        &[MET, NULL],
        Want::Bool(false),
    ),
    (
        Op::FollowsTok { min: 1, max: 1 },
        &[ANN, BO],
        Want::Bool(true),
    ),
    (
        Op::FollowsTok { min: 0, max: 0 },
        &[ANN_M, BO],
        Want::Bool(true),
    ),
    (
        Op::FollowsTok { min: 0, max: 100 },
        &[BO, ANN],
        Want::Bool(false),
    ),
    (
        Op::FollowsTok { min: 0, max: 100 },
        &[NULL, BO],
        Want::Bool(false),
    ),
    (
        Op::FollowsTok { min: 0, max: 100 },
        &[BO, NULL],
        Want::Bool(false),
    ),
    (Op::Overlaps, &[BO, COMMA], Want::Bool(false)),
    (Op::Overlaps, &[AT_5, MET], Want::Bool(true)),
    (Op::Overlaps, &[AT_4, MET], Want::Bool(false)),
    (Op::Overlaps, &[AT_4, AT_4], Want::Bool(true)),
    (Op::Overlaps, &[NULL, NULL], Want::Bool(false)),
    (Op::Overlaps, &[NULL, MET], Want::Bool(false)),
    (Op::Overlaps, &[MET, NULL], Want::Bool(false)),
    (Op::Contains, &[MET, AT_7], Want::Bool(true)),
    (Op::Contains, &[AT_7, MET], Want::Bool(false)),
    (Op::Contains, &[NULL, MET], Want::Bool(false)),
    (Op::Contains, &[MET, NULL], Want::Bool(false)),
    (Op::Equals, &[BO, BO], Want::Bool(true)),
    (Op::Equals, &[BO, COMMA], Want::Bool(false)),
    (
        Op::Equals,
        &[Arg::Text("é"), Arg::Text("é")],
        Want::Bool(true),
    ),
    (Op::Equals, &[NULL, NULL], Want::Bool(false)),
    (Op::Equals, &[NULL, BO], Want::Bool(false)),
    (Op::Equals, &[BO, NULL], Want::Bool(false)),
    (
        Op::GreaterThan,
        &[Arg::Int(2), Arg::Int(1)],
        Want::Bool(true),
    ),
    (
        Op::GreaterThan,
        &[Arg::Int(1), Arg::Int(1)],
        Want::Bool(false),
    ),
    (
        Op::GreaterThan,
        &[Arg::Int(1), Arg::Int(2)],
        Want::Bool(false),
    ),
    (Op::GreaterThan, &[NULL, Arg::Int(-1)], Want::Bool(false)),
    (Op::GreaterThan, &[Arg::Int(1), NULL], Want::Bool(false)),
];

/// Predicates of one value, and of any number. Pattern 0 is `[0-9]+`, pattern 1 `Bö|Bö,`; dictionary 0
/// has `änn` and `met bö` in any case, dictionary 1 `met bö` alone.
pub(crate) static OF_ONE_AND_MANY: [Case; 33] = [
    (Op::NotNull, &[AT_0], Want::Bool(true)),
    (Op::NotNull, &[NULL], Want::Bool(false)),
    (Op::ContainsRegex(0), &[ALL], Want::Bool(true)),
    (Op::ContainsRegex(0), &[MET], Want::Bool(false)),
    (Op::ContainsRegex(0), &[Arg::Text("a 1")], Want::Bool(true)),
    (Op::ContainsRegex(0), &[NULL], Want::Bool(false)),
    (Op::ContainsRegex(2), &[ALL], Want::Bool(false)),
    (Op::MatchesRegex(0), &[FORTY_TWO], Want::Bool(true)),
    (Op::MatchesRegex(0), &[ALL], Want::Bool(false)),
    (Op::MatchesRegex(1), &[Arg::Text("Bö,")], Want::Bool(true)),
    (Op::MatchesRegex(0), &[NULL], Want::Bool(false)),
    (Op::MatchesRegex(2), &[ALL], Want::Bool(false)),
    (Op::ContainsDict(0), &[ALL], Want::Bool(true)),
    (Op::ContainsDict(0), &[BO], Want::Bool(false)),
    (Op::ContainsDict(1), &[ALL], Want::Bool(false)),
    (Op::ContainsDict(0), &[NULL], Want::Bool(false)),
    (Op::ContainsDict(2), &[ALL], Want::Bool(false)),
    (Op::MatchesDict(0), &[MET_BO], Want::Bool(true)),
    (Op::MatchesDict(0), &[ALL], Want::Bool(false)),
    (Op::MatchesDict(1), &[MET_BO], Want::Bool(false)),
    (Op::MatchesDict(0), &[NULL], Want::Bool(false)),
    (Op::MatchesDict(2), &[MET_BO], Want::Bool(false)),
    (Op::Not, &[FALSE], Want::Bool(true)),
    (Op::Not, &[TRUE], Want::Bool(false)),
    (Op::Not, &[NULL], Want::Bool(false)),
    (Op::And, &[], Want::Bool(false)),
    (Op::And, &[TRUE, TRUE, TRUE], Want::Bool(true)),
    (Op::And, &[TRUE, FALSE], Want::Bool(false)),
    (Op::And, &[TRUE, NULL], Want::Bool(false)),
    (Op::Or, &[], Want::Bool(false)),
    (Op::Or, &[NULL, FALSE, TRUE], Want::Bool(true)),
    (Op::Or, &[FALSE], Want::Bool(false)),
    (Op::Or, &[NULL], Want::Bool(false)),
];
