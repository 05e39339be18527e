//! The bodies of a mapping are read back from their texts: what a store relies on that writes them.
//!
//! It stands on `mapping`, which limits how many names a path has, and on `tree_json`, whose values of few levels are read back.
//! The contract that others use is that of `bodies_are_read_back`. Begin reading there.
#![tactic(auto)]

ghost use Rattle.std.specs.List.{All, AllByRecursion};
ghost use Rattle.mapping_texts.specs.Texts.{IsReadBack};

use mapping::Mapping;
use tree_json::compact_len;

/// Each body of a mapping is what is read of its compact text: a body of a mapping nests less deep than what is read may. Goes
/// through the bodies once, and changes nothing.
#[tactic(auto, using(crate::proofs::Texts::texts))]
pub fn bodies_are_read_back(mapping: &Mapping)
    ensures each { AllByRecursion IsReadBack mapping.now.bodies }
    ensures all { All IsReadBack mapping.now.bodies }
{
    let count = mapping.generation();
    'bodies: for index in 0..count {
        compact_len(mapping.body(index + 1));
    }
}
