use std::marker::Brand;

/// The name of one evaluation: a plan and a list of documents, which contracts alone see.
///
/// What is found in a shared cell belongs, by its type, to the plan and documents of its name.
pub trait Work {
    ghost use Rattle.std.specs.Prelude.{List};
    ghost use Rattle.span_token.specs.Documents.{Doc};
    ghost use Rattle.algebra.specs.Plans.{Parts};

    ghost plan: { Parts };

    ghost docs: { List Doc };
}

impl Work for Brand {
    ghost use Rattle.std.specs.Prelude.{[]};
    ghost use Rattle.run_tables.specs.Items.{no_plan};

    ghost plan = { no_plan };

    ghost docs = { [] };
}
