//! What is expected, written by another program that has the modes `gen` and `demo`.

/// The first three lines of every corpus of three documents or more.
pub const THREE_DOCUMENTS: &str = "\
{\"label\":\"d0\",\"text\":\"Call John Smith at 555-0000. Ann Lee joined Acme Corp on 12 May 2019. Dr. Maria Lopez wrote to info about order 0000.\"}
{\"label\":\"d1\",\"text\":\"Ann Lee joined Acme Corp on 12 May 2019. Meet Mr. Paul Jones in New York. Été à Paris: 7 résumés.\"}
{\"label\":\"d2\",\"text\":\"Dr. Maria Lopez wrote to info about order 0002. Été à Paris: 7 résumés. Meet Mr. Paul Jones in New York.\"}
";

/// How many bytes the corpus of 700 documents has: more than are held before they are written.
pub const BYTES_OF_700_DOCUMENTS: u64 = 87_953;

/// What `demo 1` writes.
pub const DEMO_OF_1: &str = "\
documents 1
Date 1
Digits 2
FirstPerson 1
LongName 2
LowerName 0
NumberRun 5
Person 3
PersonCity 0
PersonOrg 1
PersonPhone 1
PersonRole 0
";

/// What `demo 2` writes.
pub const DEMO_OF_2: &str = "\
documents 2
Date 2
Digits 3
FirstPerson 2
LongName 3
LowerName 0
NumberRun 6
Person 5
PersonCity 1
PersonOrg 2
PersonPhone 1
PersonRole 0
";

/// What `demo 200` writes.
pub const DEMO_OF_200: &str = "\
documents 200
Date 75
Digits 369
FirstPerson 175
LongName 225
LowerName 75
NumberRun 532
Person 300
PersonCity 75
PersonOrg 75
PersonPhone 81
PersonRole 0
";
