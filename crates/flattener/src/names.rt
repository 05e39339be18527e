//! The names of a path, one by one.
ghost use Rattle.std.specs.Prelude.{◌≡◌, option_map};
ghost use Rattle.mapping_body.specs.Names.{names_between};
ghost use Rattle.flattener.specs.Walked.{names_left, first_name, behind_name, start_below};

/// The byte at which the names below a path begin in the path of what stands there.
fn start_below(above: &[u8]) -> usize
    ensures { result ≡ start_below above.now }
{
    match above {
        [] => 0,
        _ => above.len() + 1,
    }
}

/// What of a path stands behind the path of a scope above it.
#[tactic(auto, using(crate::proofs::Gathers::below))]
pub(crate) fn below<'a>(above: &[u8], path: &'a [u8]) -> Option<&'a [u8]>
    ensures { names_left (option_map (λ p. p.now) result) ≡ names_between above.now path.now }
{
    let from = start_below(above);
    if from < path.len() {
        Some(path.split_at(from).1)
    } else {
        None
    }
}

/// The first name, and what stands behind the dot that ends it.
pub(crate) fn first_name(path: &[u8]) -> (&[u8], Option<&[u8]>)
    ensures name { result.0.now ≡ first_name path.now }
    ensures rest { option_map (λ p. p.now) result.1 ≡ behind_name path.now }
{
    let mut at = 0;
    'bytes: while at < path.len() {
        if path[at] == b'.' {
            return (path.split_at(at).0, Some(path.split_at(at + 1).1));
        }
        at += 1;
    }
    (path, None)
}
