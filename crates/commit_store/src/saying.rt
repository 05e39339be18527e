//! What the commits of this store say.

use commit_images::Saying;

/// The commits of a store of segments: each says a mapping, a next number and the segments of a view.
pub struct StoreSaying;

impl Saying for StoreSaying {
    ghost use Rattle.commit_store.specs.Saying.{Saying as StoreSays, IsGood as IsGoodCommit};

    ghost Said = { StoreSays };

    ghost IsGood = { IsGoodCommit };
}
