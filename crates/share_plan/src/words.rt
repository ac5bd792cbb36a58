//! Nodes as lists of numbers, by which equal ones are found.

ghost use Rattle.std.specs.Prelude.{◌≡◌, ◌++◌, ◌∷◌, [], pos, map, IfOk, OnOk};
ghost use Rattle.std.specs.List.{flat_map};
ghost use Rattle.algebra.specs.declared.node.Node.TheVariants as variant;
ghost use Rattle.scalar_ops.specs.Views.{term_of};
ghost use Rattle.share_plan.specs.ExprWords.{text_words, term_words, list_words, op_words};
ghost use Rattle.share_plan.specs.Words.{flag_word, policy_word, kind_words, local_words, agg_words, head_words, tail_words, node_words};

use algebra::{JoinKind, Local, Node};
use group_agg::Agg;
use scalar_ops::{Expr, Op};
use span_sets::Policy;
use span_token::OutOfMemory;
use std::alloc::Global;

/// The numbers of a node, which no other node has.
pub(crate) fn words_of(alloc: Global, node: &Node) -> Result<Vec<i128>, OutOfMemory>
    ensures { IfOk result (λ words. words.items ≡ node_words node.now) }
{
    let mut words = head_of(alloc, node)?;
    push_tail(&mut words, node)?;
    Ok(words)
}

/// The numbers of a `Dict` node that has no dictionary.
pub(crate) fn words_of_dict(
    alloc: Global,
    input: u32,
    column: u32,
) -> Result<Vec<i128>, OutOfMemory>
    ensures { IfOk result (λ words. words.items ≡ node_words (variant.Dict input column [])) }
{
    Ok(vec![in alloc; 3, word(input), word(column)]?)
}

/// The numbers of a `DictPart` of a `Dict` node.
pub(crate) fn words_of_part(
    alloc: Global,
    input: u32,
    number: u32,
) -> Result<Vec<i128>, OutOfMemory>
    ensures { IfOk result (λ words. words.items ≡ node_words (variant.DictPart input number)) }
{
    Ok(vec![in alloc; 4, word(input), word(number)]?)
}

/// A number of a node, a column or a table among these.
fn word(n: u32) -> i128
    ensures { result ≡ pos n }
{
    i128::from(n)
}

fn flag(yes: bool) -> i128
    ensures { result ≡ flag_word yes }
{
    if yes { 1 } else { 0 }
}

/// What a node is, and its numbers, so many for each kind of node.
fn head_of(alloc: Global, node: &Node) -> Result<Vec<i128>, OutOfMemory>
    ensures { IfOk result (λ words. words.items ≡ head_words node.now) }
{
    match node {
        Node::Doc => Ok(vec![in alloc; 0]?),
        Node::Regex {
            input,
            column,
            pattern,
            ..
        } => Ok(vec![in alloc; 1, word(*input), word(*column), word(*pattern)]?),
        Node::TokenRegex {
            input,
            column,
            low,
            high,
            pattern,
            ..
        } => Ok(vec![in alloc;
            2,
            word(*input),
            word(*column),
            word(*low),
            word(*high),
            word(*pattern),
        ]?),
        Node::Dict { input, column, .. } => Ok(vec![in alloc; 3, word(*input), word(*column)]?),
        Node::DictPart { input, number } => Ok(vec![in alloc; 4, word(*input), word(*number)]?),
        Node::Blocks {
            input,
            column,
            low,
            high,
            gap_low,
            gap_high,
            tokens,
        } => {
            let (low, high) = (word(*low), word(*high));
            let (from, upto) = (i128::from(*gap_low), i128::from(*gap_high));
            Ok(vec![in alloc;
                5,
                word(*input),
                word(*column),
                low,
                high,
                from,
                upto,
                flag(*tokens),
            ]?)
        }
        Node::Select { input, .. } => Ok(vec![in alloc; 6, word(*input)]?),
        Node::Project { input, .. } => Ok(vec![in alloc; 7, word(*input)]?),
        Node::Cross {
            left,
            right,
            conditional,
        } => Ok(vec![in alloc; 8, word(*left), word(*right), flag(*conditional)]?),
        Node::SpanJoin {
            left,
            right,
            lc,
            rc,
            conditional,
            ..
        } => Ok(vec![in alloc;
            9,
            word(*left),
            word(*right),
            word(*lc),
            word(*rc),
            flag(*conditional),
        ]?),
        Node::Restricted {
            outer,
            source,
            lc,
            ..
        } => Ok(vec![in alloc; 10, word(*outer), word(*source), word(*lc)]?),
        Node::Union { left, right } => Ok(vec![in alloc; 11, word(*left), word(*right)]?),
        Node::Minus { left, right } => Ok(vec![in alloc; 12, word(*left), word(*right)]?),
        Node::Consolidate { input, policy, .. } => {
            Ok(vec![in alloc; 13, word(*input), policy_word(*policy)]?)
        }
        Node::Group { input, keys, .. } => {
            let count = keys.len() as u64;
            Ok(vec![in alloc; 14, word(*input), i128::from(count)]?)
        }
        Node::OrderLimit { input, limit, .. } => match limit {
            None => Ok(vec![in alloc; 15, word(*input), 0, 0]?),
            Some(n) => Ok(vec![in alloc; 15, word(*input), 1, i128::from(*n)]?),
        },
    }
}

/// Puts what a node has a list of behind its numbers, and how it joins.
fn push_tail(words: &mut Vec<i128>, node: &Node) -> Result<(), OutOfMemory>
    ensures { OnOk result (words.new.items ≡ words.old.items ++ tail_words node.now) }
{
    match node {
        Node::Regex { groups, .. } => push_numbers(words, groups.as_slice()),
        Node::TokenRegex { groups, .. } => push_numbers(words, groups.as_slice()),
        Node::Dict { dicts, .. } => push_numbers(words, dicts.as_slice()),
        Node::Select { conds, .. } => push_exprs(words, conds.as_slice()),
        Node::Project { items, .. } => push_exprs(words, items.as_slice()),
        Node::SpanJoin { kind, .. } => push_kind(words, *kind),
        Node::Restricted { kind, local, .. } => {
            push_kind(words, *kind)?;
            push_local(words, *local)
        }
        Node::Consolidate { target, .. } => push_expr(words, target.as_expr()),
        Node::Group { keys, aggs, .. } => {
            push_numbers(words, keys.as_slice())?;
            push_aggs(words, aggs.as_slice())
        }
        Node::OrderLimit { keys, .. } => push_numbers(words, keys.as_slice()),
        Node::Doc
        | Node::DictPart { .. }
        | Node::Blocks { .. }
        | Node::Cross { .. }
        | Node::Union { .. }
        | Node::Minus { .. } => Ok(()),
    }
}

/// Puts numbers behind the others.
fn push_numbers(words: &mut Vec<i128>, numbers: &[u32]) -> Result<(), OutOfMemory>
    ensures { OnOk result (words.new.items ≡ words.old.items ++ map pos numbers.now) }
{
    for number in numbers {
        words.push(word(*number))?;
    }
    Ok(())
}

fn push_pair(words: &mut Vec<i128>, first: i128, second: i128) -> Result<(), OutOfMemory>
    ensures { OnOk result (words.new.items ≡ words.old.items ++ first ∷ second ∷ []) }
{
    words.push(first)?;
    words.push(second)?;
    Ok(())
}

fn push_three(
    words: &mut Vec<i128>,
    first: i128,
    second: i128,
    third: i128,
) -> Result<(), OutOfMemory>
    ensures { OnOk result (words.new.items ≡ words.old.items ++ first ∷ second ∷ third ∷ []) }
{
    words.push(first)?;
    words.push(second)?;
    words.push(third)?;
    Ok(())
}

/// The predicate of a join, with its bounds.
fn push_kind(words: &mut Vec<i128>, kind: JoinKind) -> Result<(), OutOfMemory>
    ensures { OnOk result (words.new.items ≡ words.old.items ++ kind_words kind) }
{
    match kind {
        JoinKind::Follows { min, max } => { push_three(words, 0, i128::from(min), i128::from(max)) }
        JoinKind::FollowsTok { min, max } => {
            push_three(words, 1, i128::from(min), i128::from(max))
        }
        JoinKind::Overlaps => push_three(words, 2, 0, 0),
        JoinKind::Contains => push_three(words, 3, 0, 0),
        JoinKind::FollowsBack { min, max } => {
            push_three(words, 4, i128::from(min), i128::from(max))
        }
        JoinKind::FollowsTokBack { min, max } => {
            push_three(words, 5, i128::from(min), i128::from(max))
        }
        JoinKind::ContainsBack => push_three(words, 6, 0, 0),
    }
}

/// What a restricted join looks for.
fn push_local(words: &mut Vec<i128>, local: Local) -> Result<(), OutOfMemory>
    ensures { OnOk result (words.new.items ≡ words.old.items ++ local_words local) }
{
    match local {
        Local::TokenRegex { low, high, pattern } => {
            push_three(words, word(low), word(high), word(pattern))
        }
        Local::Dict { dict } => push_pair(words, word(dict), 0),
    }
}

fn policy_word(policy: Policy) -> i128
    ensures { result ≡ policy_word policy }
{
    match policy {
        Policy::ContainedWithin => 0,
        Policy::NotContainedWithin => 1,
        Policy::ContainsButNotEqual => 2,
        Policy::ExactMatch => 3,
        Policy::LeftToRight => 4,
    }
}

/// Puts aggregates behind the others.
fn push_aggs(words: &mut Vec<i128>, aggs: &[Agg]) -> Result<(), OutOfMemory>
    ensures { OnOk result (words.new.items ≡ words.old.items ++ flat_map agg_words aggs.now) }
{
    for agg in aggs {
        push_agg(words, *agg)?;
    }
    Ok(())
}

fn push_agg(words: &mut Vec<i128>, agg: Agg) -> Result<(), OutOfMemory>
    ensures { OnOk result (words.new.items ≡ words.old.items ++ agg_words agg) }
{
    match agg {
        Agg::Key(key) => push_pair(words, 0, word(key)),
        Agg::Count => push_pair(words, 1, 0),
        Agg::CountOf(column) => push_pair(words, 2, word(column)),
        Agg::Sum(column) => push_pair(words, 3, word(column)),
        Agg::Min(column) => push_pair(words, 4, word(column)),
        Agg::Max(column) => push_pair(words, 5, word(column)),
    }
}

/// Puts expressions behind the others, a mark behind each.
#[cycle(words)]
fn push_exprs(words: &mut Vec<i128>, exprs: &[Expr]) -> Result<(), OutOfMemory>
    ensures { OnOk result (words.new.items ≡ words.old.items ++ list_words (map term_of exprs.now)) }
{
    for expr in exprs {
        push_expr(words, expr)?;
        push_pair(words, 4, 0)?;
    }
    Ok(())
}

/// Puts an expression behind the others: its arguments, and then its operator.
#[cycle(words)]
fn push_expr(words: &mut Vec<i128>, expr: &Expr) -> Result<(), OutOfMemory>
    ensures { OnOk result (words.new.items ≡ words.old.items ++ term_words (term_of expr.now)) }
{
    match expr {
        Expr::Column(number) => push_pair(words, 0, word(*number)),
        Expr::Int(value) => push_pair(words, 1, i128::from(*value)),
        Expr::Str(text) => {
            push_pair(words, 2, 0)?;
            push_text(words, text.as_str())
        }
        Expr::Call { op, args } => {
            push_pair(words, 5, 0)?;
            push_exprs(words, args.as_slice())?;
            push_op(words, *op)?;
            Ok(())
        }
    }
}

/// Puts the bytes of a text behind the others.
fn push_text(words: &mut Vec<i128>, text: &str) -> Result<(), OutOfMemory>
    ensures { OnOk result (words.new.items ≡ words.old.items ++ text_words text.now) }
{
    let bytes = text.as_bytes();
    for byte in bytes {
        push_pair(words, 3, i128::from(*byte))?;
    }
    Ok(())
}

/// Puts an operator behind its arguments, with its bounds or its number in a table.
fn push_op(words: &mut Vec<i128>, op: Op) -> Result<(), OutOfMemory>
    ensures { OnOk result (words.new.items ≡ words.old.items ++ op_words op) }
{
    match op {
        Op::GetBegin => push_parts(words, 0, 0, 0),
        Op::GetEnd => push_parts(words, 1, 0, 0),
        Op::GetLength => push_parts(words, 2, 0, 0),
        Op::GetText => push_parts(words, 3, 0, 0),
        Op::CombineSpans => push_parts(words, 4, 0, 0),
        Op::SpanBetween => push_parts(words, 5, 0, 0),
        Op::LeftContext => push_parts(words, 6, 0, 0),
        Op::RightContext => push_parts(words, 7, 0, 0),
        Op::LeftContextTok => push_parts(words, 8, 0, 0),
        Op::RightContextTok => push_parts(words, 9, 0, 0),
        Op::Follows { min, max } => push_parts(words, 10, i128::from(min), i128::from(max)),
        Op::FollowsTok { min, max } => push_parts(words, 11, i128::from(min), i128::from(max)),
        Op::Overlaps => push_parts(words, 12, 0, 0),
        Op::Contains => push_parts(words, 13, 0, 0),
        Op::Equals => push_parts(words, 14, 0, 0),
        Op::GreaterThan => push_parts(words, 15, 0, 0),
        Op::NotNull => push_parts(words, 16, 0, 0),
        Op::ContainsRegex(pattern) => push_parts(words, 17, word(pattern), 0),
        Op::MatchesRegex(pattern) => push_parts(words, 18, word(pattern), 0),
        Op::ContainsDict(dict) => push_parts(words, 19, word(dict), 0),
        Op::MatchesDict(dict) => push_parts(words, 20, word(dict), 0),
        Op::Not => push_parts(words, 21, 0, 0),
        Op::And => push_parts(words, 22, 0, 0),
        Op::Or => push_parts(words, 23, 0, 0),
    }
}

/// Puts an operator's bounds, and then its number in the table.
fn push_parts(words: &mut Vec<i128>, tag: i128, low: i128, high: i128) -> Result<(), OutOfMemory>
    ensures { OnOk result (words.new.items ≡ words.old.items ++ pos 6 ∷ low ∷ pos 7 ∷ high ∷ pos 8 ∷ tag ∷ []) }
{
    push_pair(words, 6, low)?;
    push_pair(words, 7, high)?;
    push_pair(words, 8, tag)?;
    Ok(())
}
