//! Ordinals that are kept from one search to the next.

ghost use Rattle.std.specs.Prelude.{◌≡◌, Some, None, IfSome};
ghost use Rattle.std.specs.Option.{option_map};

use join_ordinals::JoinOrdinals;

/// The ordinals of the view that searches see, and those of the point in time that was searched last, beside its id.
#[derive(Drop)]
pub(crate) struct KeptOrdinals {
    pub(crate) live: Option<JoinOrdinals>,
    pub(crate) point: Option<(u64, JoinOrdinals)>,
}

impl KeptOrdinals {
    /// None are kept.
    pub(crate) fn none() -> KeptOrdinals
        ensures { result ≡ record { live = None; point = None } }
    {
        KeptOrdinals {
            live: None,
            point: None,
        }
    }
}

/// Takes out the ordinals that are kept under an id; those under another id are let go.
pub(crate) fn taken(kept: &mut Option<(u64, JoinOrdinals)>, id: u64) -> Option<JoinOrdinals>
    ensures own { IfSome result (λ ordinals. kept.old ≡ Some (id, ordinals)) }
    ensures gone { kept.new ≡ None }
{
    match kept.take() {
        Some((own, ordinals)) => { if own == id { Some(ordinals) } else { None } }
        None => None,
    }
}

/// Ordinals beside an id.
pub(crate) fn under(id: u64, ordinals: Option<JoinOrdinals>) -> Option<(u64, JoinOrdinals)>
    ensures { result ≡ option_map (λ own. (id, own)) ordinals }
{
    match ordinals {
        Some(own) => Some((id, own)),
        None => None,
    }
}
