//! Whether a search body is refused under a mapping.
ghost use Rattle.std.specs.Prelude.{◌≡◌, Some, None, IfOk, IsOk, IsErrOf};
ghost use Rattle.search_walk.specs.Refusal.{first_refusal, inner_count};

use crate::limit::limit_refusal;
use crate::parts::walk_over;
use crate::refusal::SearchRefusal;
use mapping::Mapping;
use search_form::Shape;
use std::alloc::Global;

/// Accepts a search body under a mapping, or gives its first refusal. Of what is accepted it says how many clauses have
/// inner hits.
#[tactic(auto, using(crate::proofs::Firsts::firsts), unfolding(crate::specs::Refusal::first_refusal))]
pub fn judged(alloc: Global, shape: &Shape<'_>, mapping: &Mapping) -> Result<usize, SearchRefusal>
    ensures inner { IfOk result (λ count. count ≡ inner_count mapping.now shape.now) }
    ensures accepted { IsOk result → first_refusal mapping.now shape.now ≡ None }
    ensures unknown_path { IsErrOf result SearchRefusal.UnknownPath → first_refusal mapping.now shape.now ≡ Some SearchRefusal.UnknownPath }
    ensures path_out_of_scope { IsErrOf result SearchRefusal.PathOutOfScope → first_refusal mapping.now shape.now ≡ Some SearchRefusal.PathOutOfScope }
    ensures unknown_relation { IsErrOf result SearchRefusal.UnknownRelation → first_refusal mapping.now shape.now ≡ Some SearchRefusal.UnknownRelation }
    ensures bad_value { IsErrOf result SearchRefusal.BadValue → first_refusal mapping.now shape.now ≡ Some SearchRefusal.BadValue }
    ensures sort_field_unmapped { IsErrOf result SearchRefusal.SortFieldUnmapped → first_refusal mapping.now shape.now ≡ Some SearchRefusal.SortFieldUnmapped }
    ensures bad_sort { IsErrOf result SearchRefusal.BadSort → first_refusal mapping.now shape.now ≡ Some SearchRefusal.BadSort }
    ensures duplicate_inner_name { IsErrOf result SearchRefusal.DuplicateInnerName → first_refusal mapping.now shape.now ≡ Some SearchRefusal.DuplicateInnerName }
    ensures window_too_large { IsErrOf result SearchRefusal.WindowTooLarge → first_refusal mapping.now shape.now ≡ Some SearchRefusal.WindowTooLarge }
    ensures inner_window_too_large { IsErrOf result SearchRefusal.InnerWindowTooLarge → first_refusal mapping.now shape.now ≡ Some SearchRefusal.InnerWindowTooLarge }
    ensures too_many_clauses { IsErrOf result SearchRefusal.TooManyClauses → first_refusal mapping.now shape.now ≡ Some SearchRefusal.TooManyClauses }
    ensures query_too_deep { IsErrOf result SearchRefusal.QueryTooDeep → first_refusal mapping.now shape.now ≡ Some SearchRefusal.QueryTooDeep }
    ensures too_many_terms { IsErrOf result SearchRefusal.TooManyTerms → first_refusal mapping.now shape.now ≡ Some SearchRefusal.TooManyTerms }
{
    let body = shape.body();
    let members = shape.members();
    let walk = walk_over(alloc, mapping, body, members)?;
    if let Some(refusal) = walk.fault {
        return Err(refusal);
    }
    if let Some(refusal) = limit_refusal(alloc, mapping, members, &walk)? {
        return Err(refusal);
    }
    Ok(walk.names.len())
}
