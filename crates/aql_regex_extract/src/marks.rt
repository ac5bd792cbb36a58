//! The bytes of the texts that a tree can match, and those with which they begin.
ghost use Rattle.std.specs.Prelude.{map};
ghost use Rattle.regex_hir.specs.Re.{literal};
ghost use Rattle.regex_hir.specs.Meaning.{meaning, cat_all, alt_all};
ghost use Rattle.aql_regex_extract.specs.ByteSets.{Widens};
ghost use Rattle.aql_regex_extract.specs.Bytes.{IsMadeOf, BeginsIn};

use crate::byte_set::ByteSet;
use regex_hir::Hir;

/// Puts the bytes of all texts that the tree can match into the set.
#[cycle(mark_bytes)]
pub(crate) fn mark_bytes(tree: &Hir, set: &mut ByteSet)
    ensures marks { IsMadeOf set.new (meaning tree.now) }
    ensures keeps { Widens set.old set.new }
{
    match tree {
        Hir::Empty => {}
        Hir::Look(_) => {}
        Hir::Literal(bytes) => mark_literal(bytes, set),
        Hir::Bytes(class) => set.add_class(class, 0xFF),
        Hir::Chars(class) => set.add_chars(class),
        Hir::Repetition { sub, .. } => mark_bytes(sub, set),
        Hir::Capture { sub, .. } => mark_bytes(sub, set),
        Hir::Concat(subs) => mark_bytes_of_each(subs, set),
        Hir::Alternation(subs) => mark_bytes_of_each(subs, set),
    }
}

fn mark_literal(bytes: &[u8], set: &mut ByteSet)
    ensures marks { IsMadeOf set.new (literal bytes.now) }
    ensures keeps { Widens set.old set.new }
{
    for byte in bytes {
        set.add_range(u32::from(*byte), u32::from(*byte));
    }
}

/// The same of trees one after another, and of a choice among them.
#[cycle(mark_bytes)]
fn mark_bytes_of_each(subs: &[Hir], set: &mut ByteSet)
    ensures sequence { IsMadeOf set.new (cat_all (map meaning subs.now)) }
    ensures choice { IsMadeOf set.new (alt_all (map meaning subs.now)) }
    ensures keeps { Widens set.old set.new }
{
    for i in 0..subs.len() {
        mark_bytes(&subs[i], set);
    }
}

/// Puts the bytes with which a text that the tree can match begins into the set. Says whether such a
/// text may be empty.
#[cycle(mark_firsts)]
pub(crate) fn mark_firsts(tree: &Hir, set: &mut ByteSet) -> bool
    ensures marks { BeginsIn set.new result (meaning tree.now) }
    ensures keeps { Widens set.old set.new }
{
    match tree {
        Hir::Empty => true,
        Hir::Look(_) => true,
        Hir::Literal(bytes) => mark_first(bytes, set),
        Hir::Bytes(class) => {
            set.add_class(class, 0xFF);
            false
        }
        Hir::Chars(class) => {
            set.add_chars(class);
            false
        }
        Hir::Repetition { min, sub, .. } => mark_firsts(sub, set) || *min == 0,
        Hir::Capture { sub, .. } => mark_firsts(sub, set),
        Hir::Concat(subs) => mark_firsts_of_all(subs, set),
        Hir::Alternation(subs) => mark_firsts_of_any(subs, set),
    }
}

fn mark_first(bytes: &[u8], set: &mut ByteSet) -> bool
    ensures marks { BeginsIn set.new result (literal bytes.now) }
    ensures keeps { Widens set.old set.new }
{
    match bytes.first() {
        Some(byte) => {
            set.add_range(u32::from(*byte), u32::from(*byte));
            false
        }
        None => true,
    }
}

/// The same of trees one after another: a later one counts where all before it may match the empty
/// text.
#[cycle(mark_firsts)]
fn mark_firsts_of_all(subs: &[Hir], set: &mut ByteSet) -> bool
    ensures marks { BeginsIn set.new result (cat_all (map meaning subs.now)) }
    ensures keeps { Widens set.old set.new }
{
    for i in 0..subs.len() {
        if !mark_firsts(&subs[i], set) {
            return false;
        }
    }
    true
}

/// The same of a choice among trees.
#[cycle(mark_firsts)]
fn mark_firsts_of_any(subs: &[Hir], set: &mut ByteSet) -> bool
    ensures marks { BeginsIn set.new result (alt_all (map meaning subs.now)) }
    ensures keeps { Widens set.old set.new }
{
    let mut may_be_empty = false;
    for i in 0..subs.len() {
        if mark_firsts(&subs[i], set) {
            may_be_empty = true;
        }
    }
    may_be_empty
}
