//! The relations that a body adds.
ghost use Rattle.std.specs.Prelude.{◌≡◌, ℕ, List, ◌++◌, map, filter, not, length, IfOk, Option};
ghost use Rattle.mapping_body.specs.Kept.{pair_of};
ghost use Rattle.mapping_growth.specs.Kept.{relation_of};
ghost use Rattle.mapping_body.specs.Names.{AreAscending, in_byte_order, is_among, place_of};
ghost use Rattle.mapping_growth.specs.Relations.{names_in_pairs, names_added, relation_by, relation_names, relations_added, relations_of};

use crate::relation::Relation;
use crate::said::Said;
use mapping_body::{Named, NoMemory, Pair, Whole, in_byte_order, parent_in, place_of};
use std::alloc::Global;

/// A name of a relation.
#[derive(Clone, Copy, Drop)]
pub(crate) struct RelationName<'a> {
    pub text: &'a [u8],
}

impl Named for RelationName<'_> {
    ghost name = { λ n. n.text.now };

    fn name(&self) -> &[u8] {
        self.text
    }
}

/// The relations that a body adds to those before it, in byte order of the names that aren't known.
pub(crate) fn relations_added(
    alloc: Global,
    said: &Said,
    generation: u32,
    pairs: &[Pair<'_>],
) -> Result<Vec<Relation>, NoMemory>
    ensures { IfOk result (λ rs. map relation_of rs.items ≡ relations_added generation (relations_of said.now) (map pair_of pairs.now)) }
{
    let names = names_added(alloc, said, pairs)?;
    let firsts = in_byte_order(alloc, pairs)?;
    let mut relations = Vec::with_capacity(alloc, names.len())?;
    'names: for name in &names {
        relations.push(relation_by(
            alloc,
            said,
            generation,
            firsts.as_slice(),
            names.as_slice(),
            name.text,
        )?)?;
    }
    Ok(relations)
}

/// The names of parents and children that aren't known, in byte order.
fn names_added<'a>(
    alloc: Global,
    said: &Said,
    pairs: &[Pair<'a>],
) -> Result<Vec<RelationName<'a>>, NoMemory>
    ensures names { IfOk result (λ names. map (λ n. n.text.now) names.items ≡ names_added (relation_names (relations_of said.now)) (map pair_of pairs.now)) }
    ensures ascending { IfOk result (λ names. AreAscending (map (λ n. n.text.now) names.items)) }
{
    let all = names_in(alloc, pairs)?;
    Ok(names_new(alloc, said, all.as_slice())?)
}

fn names_new<'a>(
    alloc: Global,
    said: &Said,
    all: &[RelationName<'a>],
) -> Result<Vec<RelationName<'a>>, NoMemory>
    ensures { IfOk result (λ names. map (λ n. n.text.now) names.items ≡ filter (λ name. not (is_among (relation_names (relations_of said.now)) name)) (map (λ n. n.text.now) all.now)) }
{
    let mut names = Vec::new(alloc);
    'all: for name in all {
        if said.relation(name.text).is_none() {
            names.push(*name)?;
        }
    }
    Ok(names)
}

/// The number that a name has among those that are known and the added ones behind them.
fn number_with(said: &Said, names: &[RelationName<'_>], name: &[u8]) -> Option<usize>
    requires { AreAscending (map (λ n. n.text.now) names.now) }
    ensures { result ≡ place_of name.now (relation_names (relations_of said.now) ++ map (λ n. n.text.now) names.now) }
{
    match said.relation(name) {
        Some(number) => Some(number as usize),
        None => match place_of(names, &Whole { name }) {
            Some(place) => Some(said.relations.len() + place),
            None => None,
        },
    }
}

/// The relation of an added name, if its parent's number is one of 32 bits: 2^32 names find no memory here.
fn relation_by(
    alloc: Global,
    said: &Said,
    generation: u32,
    firsts: &[Pair<'_>],
    names: &[RelationName<'_>],
    name: &[u8],
) -> Result<Relation, NoMemory>
    requires firsts { AreAscending (map (λ p. p.child.now) firsts.now) }
    requires names { AreAscending (map (λ n. n.text.now) names.now) }
    ensures { IfOk result (λ r. relation_of r ≡ relation_by generation (map pair_of firsts.now) (relation_names (relations_of said.now) ++ map (λ n. n.text.now) names.now) name.now) }
{
    let parent = match parent_in(firsts, name) {
        Some(parent) => number_of(number_with(said, names, parent))?,
        None => None,
    };
    Ok(Relation {
        name: name.to_vec(alloc)?,
        parent,
        since: generation,
    })
}

fn number_of(place: Option<usize>) -> Result<Option<u32>, NoMemory>
    ensures { IfOk result (λ number. number ≡ place) }
{
    match place {
        Some(place) => match u32::try_from(place) {
            Ok(number) => Ok(Some(number)),
            Err(_) => Err(NoMemory),
        },
        None => Ok(None),
    }
}

/// The names of parents and children in byte order.
fn names_in<'a>(alloc: Global, pairs: &[Pair<'a>]) -> Result<Vec<RelationName<'a>>, NoMemory>
    ensures names { IfOk result (λ names. map (λ n. n.text.now) names.items ≡ in_byte_order (λ name. name) (names_in_pairs (map pair_of pairs.now))) }
    ensures ascending { IfOk result (λ names. AreAscending (map (λ n. n.text.now) names.items)) }
{
    let mut names = Vec::new(alloc);
    'pairs: for pair in pairs {
        names.push(RelationName { text: pair.parent })?;
        names.push(RelationName { text: pair.child })?;
    }
    Ok(in_byte_order(alloc, names.as_slice())?)
}
