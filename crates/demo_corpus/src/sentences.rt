ghost use Rattle.std.specs.Prelude.{◌≡◌, encode_utf8_all};
ghost use Rattle.demo_corpus.specs.Sentences.{sentence_of};

/// The sentence of a number, with its `#`.
#[tactic(auto, unfolding(crate::specs::Sentences::sentence_of))]
pub(crate) fn sentence(number: u64) -> &'static str
    ensures { result.now ≡ encode_utf8_all (sentence_of number) }
{
    match number % 8 {
        0 => "Call John Smith at 555-#.",
        1 => "Ann Lee joined Acme Corp on 12 May 2019.",
        2 => "Dr. Maria Lopez wrote to info about order #.",
        3 => "The invoice # was paid.",
        4 => "Meet Mr. Paul Jones in New York.",
        5 => "No names here.",
        6 => "ann lee, Chief Technology Officer, 555-#",
        _ => "Été à Paris: 7 résumés.",
    }
}
