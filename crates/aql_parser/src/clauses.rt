//! The clauses of queries.

ghost use Rattle.std.specs.Prelude.{◌≡◌, map, option_map};
ghost use Rattle.std.specs.Str.{byte};
ghost use Rattle.aql_syntax.specs.Views.{name_of, number_of, term_of, cons_of};
ghost use Rattle.aql_parser.specs.Readers.{Gives, optional, separated, clause, sees_word, sees, sees_sign, keyword, a_string, ◌▷◌};
ghost use Rattle.aql_parser.specs.Reading.Expressions.{read_term};
ghost use Rattle.aql_parser.specs.Reading.Queries as spec;
ghost use Rattle.aql_parser.specs.ClauseViews.{select_clauses, extract_tail};

use crate::cursor::{Cursor, Refused};
use crate::expressions::{arguments, conditions, expression};
use aql_syntax::{Ast, Cons, Ident, Number};
use std::alloc::Global;

/// What follows the sources of a selection.
#[derive(Drop)]
pub struct SelectClauses {
    pub conds: Vec<Ast>,
    pub cons: Option<Cons>,
    pub group: Vec<Ast>,
    pub order: Vec<Ast>,
    pub limit: Option<Number>,
}

/// What follows the source of an extraction.
#[derive(Drop)]
pub struct ExtractTail {
    pub conds: Vec<Ast>,
    pub cons: Option<Cons>,
    pub limit: Option<Number>,
}

/// `begin` and conditions, if they are written.
pub fn conds(
    alloc: Global,
    depth: u32,
    toks: &mut Cursor<'_>,
    begin: &str,
) -> Result<Vec<Ast>, Refused>
    ensures { Gives (λ conds. map term_of conds.items) (clause (sees_word begin.now) (separated (sees "and") (read_term depth)) toks.old.at toks.old.kinds) result toks.new }
{
    if toks.eat_word(begin) {
        return conditions(alloc, depth, toks);
    }
    Ok(Vec::new(alloc))
}

/// `begin`, `by` and keys, if they are written.
pub fn keys(
    alloc: Global,
    depth: u32,
    toks: &mut Cursor<'_>,
    begin: &str,
) -> Result<Vec<Ast>, Refused>
    ensures { Gives (λ keys. map term_of keys.items) (clause (sees_word begin.now) (keyword "by" ▷ separated (sees_sign ",") (read_term depth)) toks.old.at toks.old.kinds) result toks.new }
{
    if toks.eat_word(begin) {
        toks.expect_word("by")?;
        return arguments(alloc, depth, toks);
    }
    Ok(Vec::new(alloc))
}

/// The consolidation, if one is written.
#[tactic(auto, unfolding(crate::specs::Reading::Queries::read_cons))]
pub fn cons(alloc: Global, depth: u32, toks: &mut Cursor<'_>) -> Result<Option<Cons>, Refused>
    ensures { Gives (λ o. option_map cons_of o) (spec.read_cons depth toks.old.at toks.old.kinds) result toks.new }
{
    if toks.eat_word("consolidate") {
        let cons = consolidate(alloc, depth, toks)?;
        return Ok(Some(cons));
    }
    Ok(None)
}

/// What follows `consolidate`.
fn consolidate(alloc: Global, depth: u32, toks: &mut Cursor<'_>) -> Result<Cons, Refused>
    ensures { Gives cons_of (spec.after_consolidate depth toks.old.at toks.old.kinds) result toks.new }
{
    toks.expect_word("on")?;
    let target = expression(alloc, depth, toks)?;
    let policy = match policy(alloc, toks) {
        Ok(policy) => policy,
        Err(refused) => {
            drop(target);
            return Err(refused);
        }
    };
    Ok(Cons { target, policy })
}

fn policy(alloc: Global, toks: &mut Cursor<'_>) -> Result<Option<Ident>, Refused>
    ensures { Gives (λ o. option_map name_of o) (optional (sees "using") a_string toks.old.at toks.old.kinds) result toks.new }
{
    if toks.eat_word("using") {
        let policy = toks.string(alloc)?;
        return Ok(Some(policy));
    }
    Ok(None)
}

/// The limit, if one is written.
pub fn limit(toks: &mut Cursor<'_>) -> Result<Option<Number>, Refused>
    ensures { Gives (λ o. option_map number_of o) (spec.read_limit toks.old.at toks.old.kinds) result toks.new }
{
    if toks.eat_word("limit") {
        let limit = toks.int()?;
        return Ok(Some(limit));
    }
    Ok(None)
}

/// The clauses of a selection.
#[tactic(auto, unfolding(crate::specs::Reading::Queries::read_clauses))]
pub fn clauses(alloc: Global, depth: u32, toks: &mut Cursor<'_>) -> Result<SelectClauses, Refused>
    ensures { Gives select_clauses (spec.read_clauses depth toks.old.at toks.old.kinds) result toks.new }
{
    let conds = conds(alloc, depth, toks, "where")?;
    let cons = cons(alloc, depth, toks)?;
    let (group, order, limit) = match keys_and_limit(alloc, depth, toks) {
        Ok(ends) => ends,
        Err(refused) => {
            drop(cons);
            return Err(refused);
        }
    };
    Ok(SelectClauses {
        conds,
        cons,
        group,
        order,
        limit,
    })
}

/// `group by`, `order by` and the limit, each if it is written.
#[tactic(auto, unfolding(crate::specs::Reading::Queries::read_keys_and_limit))]
fn keys_and_limit(
    alloc: Global,
    depth: u32,
    toks: &mut Cursor<'_>,
) -> Result<(Vec<Ast>, Vec<Ast>, Option<Number>), Refused>
    ensures { Gives (λ ends. (map term_of ends.0.items, (map term_of ends.1.items, option_map number_of ends.2))) (spec.read_keys_and_limit depth toks.old.at toks.old.kinds) result toks.new }
{
    let group = keys(alloc, depth, toks, "group")?;
    let order = keys(alloc, depth, toks, "order")?;
    let limit = limit(toks)?;
    Ok((group, order, limit))
}

/// The clauses of an extraction.
#[tactic(auto, unfolding(crate::specs::Reading::Queries::read_tail))]
pub fn tail(alloc: Global, depth: u32, toks: &mut Cursor<'_>) -> Result<ExtractTail, Refused>
    ensures { Gives extract_tail (spec.read_tail depth toks.old.at toks.old.kinds) result toks.new }
{
    let conds = conds(alloc, depth, toks, "having")?;
    let cons = cons(alloc, depth, toks)?;
    let limit = match limit(toks) {
        Ok(limit) => limit,
        Err(refused) => {
            drop(cons);
            return Err(refused);
        }
    };
    Ok(ExtractTail { conds, cons, limit })
}
