//! Whether a relation is its own ancestor.
ghost use Rattle.std.specs.Prelude.{◌≡◌, ◌<◌, List, map, length, Bool, true, false, IfOk, Option, Some, option_and_then};
ghost use Rattle.mapping_growth.specs.Kept.{relation_of};
ghost use Rattle.mapping_growth.specs.Relations.{parent_of, turns_back};
ghost use Rattle.mapping_growth.specs.Lines.{AllEnd, Ends, is_ended, marked};

use crate::relation::Relation;
use mapping_body::NoMemory;
use std::alloc::Global;

fn parent_of(relations: &[Relation], at: Option<usize>) -> Option<usize>
    ensures { result ≡ parent_of (map relation_of relations.now) at }
{
    match relations.get(at?) {
        Some(relation) => match relation.parent {
            Some(parent) => Some(parent as usize),
            None => None,
        },
        None => None,
    }
}

/// Whether a line of parents ends here: at none, or at a relation that is marked.
fn is_ended(marks: &[bool], at: Option<usize>) -> bool
    ensures { result ≡ is_ended marks.now at }
{
    match at {
        Some(number) => match marks.get(number) {
            Some(mark) => *mark,
            None => false,
        },
        None => true,
    }
}

/// Whether the line of parents from a relation ends. One that is longer than there are relations doesn't.
fn line_ends(relations: &[Relation], marks: &[bool], number: usize) -> bool
    requires { AllEnd (map relation_of relations.now) marks.now }
    ensures ends { result ≡ true → Ends (map relation_of relations.now) (Some number) }
    ensures turns { result ≡ false → turns_back (map relation_of relations.now) ≡ true }
{
    let mut at = Some(number);
    let mut steps = 0;
    'line: while steps <= relations.len() {
        if is_ended(marks, at) {
            return true;
        }
        at = parent_of(relations, at);
        steps += 1;
    }
    at.is_none()
}

fn mark(marks: &mut [bool], at: Option<usize>)
    ensures { marks.new ≡ marked marks.old at }
{
    if let Some(number) = at {
        if number < marks.len() {
            marks[number] = true;
        }
    }
}

/// Marks a relation whose line of parents ends, and those on the line, up to the first that is marked.
fn mark_line(relations: &[Relation], marks: &mut [bool], number: usize)
    requires known { AllEnd (map relation_of relations.now) marks.old }
    requires ends { Ends (map relation_of relations.now) (Some number) }
    ensures { AllEnd (map relation_of relations.now) marks.new }
{
    let mut at = Some(number);
    'line: for _ in 0..relations.len() {
        if is_ended(marks, at) {
            return;
        }
        mark(marks, at);
        at = parent_of(relations, at);
    }
}

/// Whether some name is its own ancestor. Each relation is walked over about once, since a line stops at what is marked.
pub(crate) fn turns_back(alloc: Global, relations: &[Relation]) -> Result<bool, NoMemory>
    ensures { IfOk result (λ turns. turns ≡ turns_back (map relation_of relations.now)) }
{
    let mut marks = vec![in alloc; false; relations.len()]?;
    'relations: for number in 0..relations.len() {
        if !line_ends(relations, marks.as_slice(), number) {
            return Ok(true);
        }
        mark_line(relations, marks.as_mut_slice(), number);
    }
    Ok(false)
}
