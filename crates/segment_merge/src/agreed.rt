//! That the columns of each part agree, said for all of them at once.

ghost use Rattle.std.specs.List.{All};
ghost use Rattle.segment.specs.Agree.{AreColumns};
ghost use Rattle.segment.specs.Live.{IsLiveOver};

use crate::numbering::Part;

/// Says that the columns of each part agree, and that its live bits are over these. Does nothing.
pub(crate) fn parts_agree(parts: &[Part])
    ensures agree { All (λ part. AreColumns part.entry.columns) parts.now }
    ensures live { All (λ part. IsLiveOver part.entry.columns part.entry.live) parts.now }
{
    'parts: for part in parts {
        let _documents = part.segment().docs();
    }
}
