//! A body that may stand behind others.
ghost use Rattle.std.specs.Prelude.{◌≡◌, map, IfOk};
ghost use Rattle.std.specs.List.{flat_map, list_all};
ghost use Rattle.tree_json.specs.View.{view};
ghost use Rattle.mapping_body.specs.Body.{is_body, is_property};
ghost use Rattle.mapping_body.specs.Kept.{pair_of};
ghost use Rattle.mapping_body.specs.Pairs.{pairs_of_said};
ghost use Rattle.mapping_growth.specs.Kept.{IsCandidate};

use crate::property::{Outline, outline_below};
use crate::said::Said;
use mapping_body::{NoMemory, Pair, is_body_alone, is_property, pairs_of_said};
use std::alloc::Global;
use tree_json::Json;

/// A body with its properties and the pairs of its joins.
#[derive(Drop)]
pub(crate) struct Candidate<'a> {
    pub body: &'a Json,
    pub outlines: Vec<Outline<'a>>,
    pub pairs: Vec<Pair<'a>>,
}

/// A body with its properties, as they stand to those of bodies before it.
pub(crate) fn candidate_of<'a>(
    alloc: Global,
    said: &Said,
    body: &'a Json,
) -> Result<Candidate<'a>, NoMemory>
    ensures candidate { IfOk result (IsCandidate said.now) }
    ensures body { IfOk result (λ c. view c.body.now ≡ view body.now) }
{
    let mut outlines = Vec::new(alloc);
    outline_below(alloc, said, b"", body, &mut outlines)?;
    let pairs = pairs_of(alloc, outlines.as_slice())?;
    Ok(Candidate {
        body,
        outlines,
        pairs,
    })
}

/// Whether the body and each of its properties have their form.
pub(crate) fn has_form(said: &Said, candidate: &Candidate<'_>) -> bool
    requires { IsCandidate said.now candidate.now }
    ensures { result ≡ is_body (view candidate.now.body.now) }
{
    is_body_alone(candidate.body) && are_properties(candidate.outlines.as_slice())
}

fn are_properties(outlines: &[Outline<'_>]) -> bool
    ensures { result ≡ list_all (λ o. is_property (view o.form.now)) outlines.now }
{
    outlines.iter().all(|outline| is_property(outline.form))
}

/// The pairs of all joins.
pub fn pairs_of<'a>(alloc: Global, outlines: &[Outline<'a>]) -> Result<Vec<Pair<'a>>, NoMemory>
    ensures { IfOk result (λ pairs. map pair_of pairs.items ≡ flat_map (λ o. pairs_of_said (view o.form.now)) outlines.now) }
{
    let mut pairs = Vec::new(alloc);
    'outlines: for outline in outlines {
        pairs_of_said(outline.form, &mut pairs)?;
    }
    Ok(pairs)
}
