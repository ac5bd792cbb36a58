ghost use Rattle.std.specs.Prelude.{◌≡◌, ◌++◌, ◌∷◌, [], IfOk, OnOk, Some};
ghost use Rattle.json.specs.Tree.{json_tokens};
ghost use Rattle.serde_json.specs.Written.{outline};
ghost use Rattle.corpus_json.specs.Documents.{document_in};
ghost use Rattle.corpus_json.specs.Inputs.{doc_of};
ghost use Rattle.demo_corpus.specs.Tokens.{Adds, label_tokens};
ghost use Rattle.demo_corpus.specs.Corpora.{corpus_of, document_data, document_text};

use corpus_json::Input;
use json::Writer;
use span_token::{OutOfMemory, OwnedText};

/// The bytes of `line`, and after them the line of `document` in a corpus, with its LF.
///
/// The line is serde_json's compact text of an object with the document's `label`, where it has one, and
/// its `text`. Read as a line of a corpus, it is that document.
///
/// Meaning: `corpus_of`, `specs/Corpora.antt`; docs/FORMATS.md, "Generated corpora".
pub fn append_line(line: Vec<u8>, document: &Input) -> Result<Vec<u8>, OutOfMemory>
    ensures line { IfOk result (λ longer. longer.items ≡ line.items ++ corpus_of (doc_of document.now ∷ [])) }
    ensures read { OnOk result (document_in (document_text (doc_of document.now)) ≡ Some (doc_of document.now)) }
{
    let mut out = Writer::new(line);
    write_object(&mut out, document)?;
    let mut longer = out.into_inner();
    longer.push(b'\n')?;
    Ok(longer)
}

/// Writes the object of the line.
fn write_object(out: &mut Writer, document: &Input) -> Result<(), OutOfMemory>
    ensures { Adds result out.old out.new (json_tokens (outline (document_data (doc_of document.now)))) }
{
    out.begin_object()?;
    write_label(out, &document.label)?;
    out.key("text")?;
    out.string(document.text.as_str())?;
    out.end_object()?;
    Ok(())
}

/// Writes the member `label`, where there is a label.
fn write_label(out: &mut Writer, label: &Option<OwnedText>) -> Result<(), OutOfMemory>
    ensures { Adds result out.old out.new (label_tokens label.now) }
{
    if let Some(label) = label {
        out.key("label")?;
        out.string(label.as_str())?;
    }
    Ok(())
}
