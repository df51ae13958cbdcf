//! What stages and filters look at.
ghost use Rattle.std.specs.Prelude.{◌≡◌};
ghost use Rattle.mg_ops.specs.Bodies.{is_write_stage, names_alone, selects_by_name, writes_out};

use mg_bson::Document;

// Whether the stage writes what the others give.
fn is_write_stage(stage: &Document) -> bool
    ensures { result ≡ is_write_stage stage.now }
{
    match stage.iter().next() {
        Some((name, _)) => name == "$out" || name == "$merge",
        None => false,
    }
}

// Whether the last stage writes.
pub(crate) fn writes_out(stages: &[Document]) -> bool
    ensures { result ≡ writes_out stages.now }
{
    let mut writes = false;
    let mut left = stages;
    'stages: while let [stage, rest @ ..] = left {
        writes = is_write_stage(stage);
        left = rest;
    }
    writes
}

// Whether a filter looks at names alone.
fn names_alone(filter: &Document) -> bool
    ensures { result ≡ names_alone filter.now }
{
    let mut left = filter.keys();
    'names: while let Some(name) = left.next() {
        if name != "name" {
            return false;
        }
    }
    true
}

// Whether names are enough to select collections.
pub(crate) fn selects_by_name(filter: &Option<Document>) -> bool
    ensures { result ≡ selects_by_name filter.now }
{
    match filter {
        Some(filter) => names_alone(filter),
        None => true,
    }
}
