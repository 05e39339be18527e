//! The ordinals of a search that joins.
ghost use Rattle.std.specs.Prelude.{◌≡◌, true, IfSome, IsSome, OnOk};
ghost use Rattle.join_ordinals.specs.Ordinals.{AreOrdinals};
ghost use Rattle.query_ast.specs.Joins.{search_joins};

use crate::NoMemory;
use join_ordinals::JoinOrdinals;
use query_ast::SearchBody;
use segment_view::View;
use std::alloc::Global;

/// Makes the ordinals of a view for a search that joins, unless they are there.
pub(crate) fn make_ordinals(
    alloc: Global,
    view: &View,
    search: &SearchBody,
    ordinals: &mut Option<JoinOrdinals>,
) -> Result<(), NoMemory>
    requires { IfSome ordinals.old (AreOrdinals view.now) }
    ensures kept { IfSome ordinals.new (AreOrdinals view.now) }
    ensures made { OnOk result (search_joins search.now ≡ true → IsSome ordinals.new) }
{
    if ordinals.is_none() && search.joins() {
        *ordinals = Some(JoinOrdinals::over(alloc, view)?);
    }
    Ok(())
}
