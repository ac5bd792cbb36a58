//! The tree of a program. Where a node has a field `at`, it is the number of the node's first token, from 0; a
//! union, a minus, a flag, the alias of an output, the entries of a dictionary and `require` have none.
use span_token::OwnedText;

/// A statement of a program.
#[derive(Debug, Drop)]
pub enum Statement {
    Module(Ident),
    Require,
    Export(Ident),
    Dictionary {
        name: Ident,
        entries: Vec<OwnedText>,
    },
    View {
        name: Ident,
        query: Query,
    },
    Output {
        name: Ident,
        alias: Option<OwnedText>,
    },
}

/// A name, or a pattern or a text that stands in a name's place.
#[derive(Debug, Drop)]
pub struct Ident {
    pub text: OwnedText,
    pub at: u32,
}

/// What a view means: a selection, an extraction, or queries put together.
///
/// A union that has tokens has two sides or more (`IsFormed`, `specs/Shapes.antt`).
#[derive(Debug, Drop)]
#[cycle(query)]
pub enum Query {
    Select(Select),
    Extract(Extract),
    Union(Vec<Query>),
    Minus(Box<Query>, Box<Query>),
}

/// `select .. from ..`; a clause that isn't there is an empty list or `None`.
#[derive(Debug, Drop)]
#[cycle(query)]
pub struct Select {
    pub at: u32,
    pub items: Vec<Item>,
    pub sources: Vec<FromPart>,
    pub conds: Vec<Ast>,
    pub cons: Option<Cons>,
    pub group: Vec<Ast>,
    pub order: Vec<Ast>,
    pub limit: Option<Number>,
}

/// `extract .. from ..`; a clause that isn't there is an empty list or `None`.
#[derive(Debug, Drop)]
#[cycle(query)]
pub struct Extract {
    pub at: u32,
    pub items: Vec<Item>,
    pub spec: Spec,
    pub source: FromPart,
    pub conds: Vec<Ast>,
    pub cons: Option<Cons>,
    pub limit: Option<Number>,
}

/// A source of a query: a view, whose alias may be left out, or a query in parentheses.
#[derive(Debug, Drop)]
#[cycle(query)]
pub enum FromPart {
    View { name: Ident, alias: Option<Ident> },
    Nested { query: Box<Query>, alias: Ident },
}

/// An integer with its place.
#[derive(Debug, Drop)]
pub struct Number {
    pub value: i64,
    pub at: u32,
}

/// An output column: a column as it is, or an expression with a name.
#[derive(Debug, Drop)]
pub struct Item {
    pub expr: Ast,
    pub name: Option<Ident>,
}

/// `consolidate on target`, and the policy's text where one is written.
#[derive(Debug, Drop)]
pub struct Cons {
    pub target: Ast,
    pub policy: Option<Ident>,
}

/// An expression with its place.
#[derive(Debug, Drop)]
#[cycle(ast)]
pub struct Ast {
    pub at: u32,
    pub form: Form,
}

/// What an expression is; `Column` is `alias.column`, `Bare` a name alone, and `Star` is `name(*)`.
#[derive(Debug, Drop)]
#[cycle(ast)]
pub enum Form {
    Int(i64),
    Str(OwnedText),
    Regex(OwnedText),
    Column(Ident, Ident),
    Bare(Ident),
    Call { name: OwnedText, args: Vec<Ast> },
    Star { name: OwnedText },
}

/// One integer, which is both ends, or `between` two.
#[derive(Debug, Drop)]
pub enum Range {
    One(Number),
    Two(Number, Number),
}

/// What an extraction looks for, in the column `on`.
///
/// In `groups`, `None` is the form `as name`, which means group 0.
#[derive(Debug, Drop)]
pub enum Spec {
    Regex {
        pattern: Ident,
        bound: Option<Range>,
        on: (Ident, Ident),
        groups: Vec<(Option<Number>, Ident)>,
    },
    Dict {
        dict: Ident,
        flag: Option<Flag>,
        on: (Ident, Ident),
        name: Ident,
    },
    Blocks {
        count: Range,
        gap: Range,
        tokens: bool,
        on: (Ident, Ident),
        name: Ident,
    },
}

/// How a dictionary's entries are compared, where an extraction says so.
#[derive(Clone, Copy, Debug, PartialEq, Eq)]
pub enum Flag {
    Exact,
    IgnoreCase,
}
