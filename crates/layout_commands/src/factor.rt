//! Merges that come by themselves.

ghost use Rattle.std.specs.Prelude.{◌≡◌, ◌≤◌, length, IfOk, OnOk, OnErr};
ghost use Rattle.index_core.specs.Kept.{IndexFits, layout_kept};
ghost use Rattle.layout.specs.Layout.{sealed};
ghost use Rattle.layout.specs.Merges.{factor_of, with_factor};
ghost use Rattle.reply_text.specs.Text.{line_of};
ghost use Rattle.reply_text.specs.declared.reply.Reply.TheVariants.{AutoMerge};
ghost use Rattle.layout_commands.specs.declared.TheConstants.{LONGEST_LINE};

use index_core::{IndexCore, NoMemory};
use mapping::Mapping;
use reply_text::Reply;

/// Sets the factor by which neighbours are merged, or none where it is 0, and seals the index by it. After NoMemory nothing has
/// changed.
#[tactic(auto, using(crate::proofs::Short::short))]
pub fn automerge(mapping: &Mapping, index: &mut IndexCore, factor: u64) -> Result<Reply, NoMemory>
    requires fits { IndexFits mapping.now index.old }
    requires factor { factor ≤ 10 }
    ensures reply { IfOk result (λ reply. reply ≡ AutoMerge factor) }
    ensures short { IfOk result (λ reply. length (line_of reply) ≤ LONGEST_LINE) }
    ensures layout { OnOk result (layout_kept index.new ≡ sealed (with_factor (factor_of factor) (layout_kept index.old))) }
    ensures same { OnErr result (index.new ≡ index.old) }
    ensures next { index.new.next ≡ index.old.next }
    ensures objects { index.new.objects ≡ index.old.objects }
    ensures fits { IndexFits mapping.now index.new }
{
    let before = index.factor();
    index.set_factor(factor);
    match index.seal(mapping) {
        Ok(_) => Ok(Reply::AutoMerge { factor }),
        Err(none) => {
            index.set_factor(before);
            Err(none)
        }
    }
}
