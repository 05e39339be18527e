//! Terms that are asked for, each once.

ghost use Rattle.std.specs.Prelude.{◌≡◌, ℕ, Bool, List};
ghost use Rattle.std.specs.List.{list_any};

/// Each of some terms once, in byte order, so that the postings of one that is asked for again are not read again.
pub(crate) fn distinct<'a>(terms: Vec<&'a [u8]>) -> Vec<&'a [u8]>
    ensures { (test : List ℕ → Bool) → list_any (λ term. test term.now) result.items ≡ list_any (λ term. test term.now) terms.entry.items }
{
    let mut kept = terms;
    kept.sort_unstable();
    kept.dedup();
    kept
}
