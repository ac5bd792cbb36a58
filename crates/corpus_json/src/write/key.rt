ghost use Rattle.std.specs.Prelude.{◌≡◌, ◌++◌, ◌∷◌, [], IfOk, OnOk};
ghost use Rattle.json.specs.Print.{quoted};
ghost use Rattle.serde_json.specs.Written.{comma_if};
ghost use Rattle.corpus_json.specs.Keys.{key_text};

use super::text::write_text;
use span_token::OutOfMemory;
use std::alloc::Global;

/// A name, and what stands before its value in a line: a comma, the name in quotes, and a colon. It is made once for
/// many lines.
#[derive(Drop)]
pub(crate) struct Key<'p> {
    pub(crate) name: &'p str,
    text: Vec<u8>,
    ghost is_text: { text.items ≡ key_text name.now },
}

/// The key of a name.
pub(crate) fn key_of<'p>(alloc: Global, name: &'p str) -> Result<Key<'p>, OutOfMemory>
    ensures { IfOk result (λ key. key.name.now ≡ name.now) }
{
    let mut text = Vec::new(alloc);
    text.push(b',')?;
    write_text(&mut text, name.as_bytes())?;
    text.push(b':')?;
    Ok(Key { name, text })
}

/// Writes the key, with its comma where a member stands before it.
#[inline(always)]
pub(crate) fn write_key(out: &mut Vec<u8>, key: &Key<'_>, later: bool) -> Result<(), OutOfMemory>
    ensures { OnOk result (out.new.items ≡ out.old.items ++ (comma_if later ++ (quoted key.now.name.now ++ 58 ∷ []))) }
{
    if later {
        out.extend_from_slice(key.text.as_slice())?;
    } else {
        out.extend_from_slice(&key.text[1..])?;
    }
    Ok(())
}
