ghost use Rattle.std.specs.Prelude.{◌≡◌, ◌<◌, All, IfOk, length, map};
ghost use Rattle.corpus_json.specs.NameIndexes.{name_index};
ghost use Rattle.corpus_json.specs.Sections.{section_of, section_at, sections_of};

use super::member::{Member, member_at};
use super::order::{Named, in_order};
use row_values::Output;
use span_token::OutOfMemory;
use std::alloc::Global;
use std::marker::Model;

/// The outputs of a program, with the order in which their names and columns stand in a line.
///
/// It is made once for many lines. Contracts see it as the list of its outputs.
#[derive(Drop)]
pub struct Layout<'p> {
    outputs: &'p [Output],
    members: Vec<Member<'p>>,
}

impl<'p> Model for Layout<'p> {
    ghost use Rattle.std.specs.Prelude.{◌≡◌, List, map};
    ghost use Rattle.row_values.specs.Outputs.{OutputNames};

    ghost Value = { List OutputNames };

    ghost use Rattle.corpus_json.specs.Sections.{section_of, sections_of};

    ghost view = { λ layout. layout.outputs.now };

    ghost invariant = { λ layout. map section_of layout.members.items ≡ sections_of layout.outputs.now };
}

impl<'p> Layout<'p> {
    /// The layout of lines for `outputs`, in whatever order they stand.
    #[tactic(auto, unfolding(crate::specs::Sections::sections_of))]
    pub fn new(alloc: Global, outputs: &'p [Output]) -> Result<Layout<'p>, OutOfMemory>
        ensures { IfOk result (λ layout. layout ≡ outputs.now) }
    {
        let names = output_names(alloc, outputs)?;
        let indexes = in_order(alloc, names.as_slice())?;
        let members = members(alloc, outputs, indexes.as_slice())?;
        Ok(Layout { outputs, members })
    }

    /// The outputs by their names.
    pub(crate) fn members(&self) -> &[Member<'p>]
        ensures { map section_of result.now ≡ sections_of self.now }
    {
        self.members.as_slice()
    }
}

/// The names of a list of outputs.
fn output_names<'p>(alloc: Global, outputs: &'p [Output]) -> Result<Vec<&'p str>, OutOfMemory>
    ensures { IfOk result (λ names. map (λ name. name.now) names.items ≡ map (λ output. output.name) outputs.now) }
{
    let mut names = Vec::new(alloc);
    'outputs: for output in outputs {
        names.push(output.name())?;
    }
    Ok(names)
}

/// The outputs at the indexes.
fn members<'p>(
    alloc: Global,
    outputs: &'p [Output],
    indexes: &[Named<'p>],
) -> Result<Vec<Member<'p>>, OutOfMemory>
    requires within { All (λ named. named.index < length outputs.now) indexes.now }
    ensures { IfOk result (λ members. map section_of members.items ≡ map (section_at outputs.now) (map name_index indexes.now)) }
{
    let mut members = Vec::new(alloc);
    'indexes: for named in indexes {
        members.push(member_at(alloc, *named, &outputs[named.index])?)?;
    }
    Ok(members)
}
