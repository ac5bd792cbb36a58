ghost use Rattle.std.specs.Prelude.{◌≡◌, ◌++◌, option_map, OnOk, All};
ghost use Rattle.regex.specs.Strings.{captures_span, captures_haystack};
ghost use Rattle.span_token.specs.Extents.{Extent, extent_of};
ghost use Rattle.span_token.specs.Relations.{ContainsExtent};
ghost use Rattle.aql_regex_extract.specs.Matches.{placed, row_by, extents_of, IsInside};
ghost use Rattle.aql_regex_extract.specs.Searches.{IsTextOf};

use crate::sought::Sought;
use regex::Captures;
use span_token::{OutOfMemory, Span};

/// Puts what each asked group spans after the others.
pub(crate) fn push_groups(
    captures: &Captures<'_, '_>,
    sought: &Sought<'_, '_>,
    into: &mut Vec<Option<Span>>,
) -> Result<(), OutOfMemory>
    requires text { IsTextOf sought.now (captures_haystack captures.now) }
    ensures row { OnOk result (extents_of into.new.items ≡ extents_of into.old.items
        ++ row_by sought.now.doc.now (extent_of sought.now.source) sought.now.groups.now (captures_span captures.now)) }
    ensures within { (wide : Extent) → ContainsExtent wide (extent_of sought.now.source)
        → All (IsInside wide) into.old.items → OnOk result (All (IsInside wide) into.new.items) }
{
    for group in sought.groups {
        into.push(group_span(captures, sought, *group))?;
    }
    Ok(())
}

/// What a group spans in the document, if it takes part in the match.
fn group_span(captures: &Captures<'_, '_>, sought: &Sought<'_, '_>, group: u32) -> Option<Span>
    requires text { IsTextOf sought.now (captures_haystack captures.now) }
    ensures placed { option_map extent_of result
        ≡ placed sought.now.doc.now (extent_of sought.now.source) (captures_span captures.now group) }
    ensures within { IsInside (extent_of sought.now.source) result }
{
    let found = captures.get(group as usize)?;
    Some(
        sought
            .doc
            .span_in(sought.source, found.start(), found.end()),
    )
}
