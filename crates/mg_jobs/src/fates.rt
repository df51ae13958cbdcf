//! The fates of a run.
ghost use Rattle.std.specs.Prelude.{◌≡◌, IfErr, IfOk, map, string_bytes};
ghost use Rattle.mg_link.specs.Errors.{plain};
ghost use Rattle.mg_link.specs.declared.error.ErrorKind.TheVariants as kinds;
ghost use Rattle.mg_store.specs.InMemory.{AreSmall, IsSmall};
ghost use Rattle.mg_script.specs.Plan.{fated, lot};
ghost use Rattle.mg_script.specs.Plan as plan;

use mg_link::{Error, OutOfMemory};
use mg_store::{Fate, FateKind};
use std::alloc::{AllocError, Global};

fn texts(alloc: Global, labels: &[String]) -> Result<Vec<String>, AllocError>
    ensures { IfOk result (λ v. map string_bytes v.items ≡ map string_bytes labels.now) }
{
    let mut copies = Vec::with_capacity(alloc, labels.len())?;
    for label in labels {
        copies.push(String::from_str(alloc, label.as_str())?)?;
    }
    Ok(copies)
}

fn kind_of(alloc: Global, kind: &FateKind) -> Result<FateKind, AllocError>
    ensures { IfOk result (λ k. lot k ≡ lot kind.now) }
{
    match kind {
        FateKind::Keep => Ok(FateKind::Keep),
        FateKind::Lose => Ok(FateKind::Lose),
        FateKind::Drop => Ok(FateKind::Drop),
        FateKind::Refuse { code, labels } => {
            let labels = texts(alloc, labels.as_slice())?;
            Ok(FateKind::Refuse {
                code: *code,
                labels,
            })
        }
    }
}

// A copy of a fate. Of one whose refusal no reply can hold there is none.
fn small_copy(alloc: Global, fate: &Fate) -> Result<Fate, OutOfMemory>
    ensures same { IfOk result (λ f. fated f ≡ fated fate.now) }
    ensures small { IfOk result (λ f. IsSmall f.kind) }
{
    let kind = kind_of(alloc, &fate.kind)?;
    if !kind.is_small(alloc)? {
        return Err(OutOfMemory);
    }
    Ok(Fate {
        pend: fate.pend,
        kind,
    })
}

/// Copies of fates, for a link. Want of memory comes also where no reply can hold a refusal.
pub(crate) fn small_copies(alloc: Global, fates: &[Fate]) -> Result<Vec<Fate>, Error>
    ensures same { IfOk result (λ v. plan.fates v.items ≡ plan.fates fates.now) }
    ensures small { IfOk result (λ v. AreSmall v.items) }
    ensures err { IfErr result (λ e. e ≡ plain kinds.OutOfMemory) }
{
    let mut copies = Vec::with_capacity(alloc, fates.len())?;
    for fate in fates {
        copies.push(small_copy(alloc, fate)?)?;
    }
    Ok(copies)
}
