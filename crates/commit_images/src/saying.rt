//! What commits say.

ghost use Rattle.std.specs.Prelude.{ℕ};
ghost use Rattle.commit_images.specs.Commits.{Commit};

/// What the commits of a store say besides that their pieces stand, and which of them are good. A store names both by a type
/// that has this trait: every step below is proved for each, and no step looks into what is said.
pub trait Saying {
    // what a commit says
    ghost Said: { Type 0 };

    // what of a commit must hold besides that its pieces stand, in a store of at most so many bytes
    ghost IsGood: { ℕ → Commit Said → Type 0 };
}
