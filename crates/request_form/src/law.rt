//! Laws of requests, as the contracts of functions that do nothing.
ghost use Rattle.std.specs.Prelude.{◌≡◌, ◌<◌, ℕ, true, Some};
ghost use Rattle.line_reader.specs.Request.{ReadLine, SourceLine};
ghost use Rattle.request_form.specs.Asked.{asked_of, asks};
ghost use Rattle.request_form.specs.Command.{Write, automerge, compact, force_merge, search, write};
ghost use Rattle.request_form.specs.Formed.{AreMoves, IsFactor, IsFormed};
ghost use Rattle.search_form.specs.Form.{is_search_body};
ghost use Rattle.tree_json.specs.Value.{JsonValue};

use tree_json::what_is_read_has_few_levels;

/// A write that is asked for has an id that isn't empty, and its sources are objects that nest no deeper than what is read.
pub fn writes_are_formed()
    ensures { (first : ReadLine) (source : SourceLine) (it : Write) → asked_of first source ≡ asks (write it) → IsFormed it }
{
    what_is_read_has_few_levels();
}

/// A search that is asked for has the form of a search body.
pub fn searches_are_formed()
    ensures { (first : ReadLine) (source : SourceLine) (body : JsonValue) → asked_of first source ≡ asks (search body) → is_search_body body ≡ true }
{}

/// A merge at once that is asked for leaves a segment or more, and a factor is from 2 to 10.
pub fn merges_are_formed()
    ensures forced { (first : ReadLine) (source : SourceLine) (most : ℕ) → asked_of first source ≡ asks (force_merge most) → 0 < most }
    ensures factor { (first : ReadLine) (source : SourceLine) (factor : ℕ) → asked_of first source ≡ asks (automerge (Some factor)) → IsFactor factor }
{}

/// A compaction that is asked for moves from 1 to 1,000 segments.
pub fn moves_are_formed()
    ensures { (first : ReadLine) (source : SourceLine) (moves : ℕ) → asked_of first source ≡ asks (compact moves) → AreMoves moves }
{}
