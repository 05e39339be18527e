//! The properties of a body: first what judges them, then the fields that they make.
ghost use Rattle.std.specs.Prelude.{◌≡◌, ℕ, List, ◌++◌, ◌∷◌, ◌<◌, ◌≤◌, ◌^◌, map, length, OnOk, IfOk, codes};
ghost use Rattle.tree_json.specs.Value.{members_of};
ghost use Rattle.tree_json.specs.View.{view, entries};
ghost use Rattle.mapping_body.specs.Body.{properties_below, properties_at, properties_named};
ghost use Rattle.mapping_growth.specs.Fields.{draft_of, draft_paths, drafts_of};
ghost use Rattle.mapping_growth.specs.Kept.{made_of};
ghost use Rattle.mapping_body.specs.Names.{joined, put, put_all, AreAscending};
ghost use Rattle.mapping_growth.specs.Outline.{outline_of, outlined};

use crate::draft::Draft;
use crate::said::Said;
use mapping_body::{NoMemory, Whole, dot_count, has_flag, joined, kind_of, put};
use std::alloc::Global;
use tree_json::{Json, JsonText};

/// A property without its path: the number of the kept field at that path, if there is one; the dots of the path; and
/// what the body says.
#[derive(Drop)]
pub(crate) struct Outline<'a> {
    pub kept: Option<u32>,
    pub dots: usize,
    pub form: &'a Json,
}

/// Appends the properties below a property or a body, depth first and in byte order of names.
#[cycle(outlines)]
#[tactic(auto, using(mapping_body::proofs::Walks::outline_walks))]
pub(crate) fn outline_below<'a>(
    alloc: Global,
    said: &Said,
    path: &[u8],
    value: &'a Json,
    found: &mut Vec<Outline<'a>>,
) -> Result<(), NoMemory>
    ensures { OnOk result (map outline_of found.new.items ≡ map outline_of found.old.items ++ map (outlined (draft_paths (drafts_of said.now))) (properties_below path.now (view value.now))) }
{
    match value {
        Json::Object(object) => match object.member(b"properties") {
            Some(properties) => outline_at(alloc, said, path, properties, found),
            None => Ok(()),
        },
        _ => Ok(()),
    }
}

#[cycle(outlines)]
#[tactic(auto, using(mapping_body::proofs::Walks::outline_walks))]
fn outline_at<'a>(
    alloc: Global,
    said: &Said,
    path: &[u8],
    properties: &'a Json,
    found: &mut Vec<Outline<'a>>,
) -> Result<(), NoMemory>
    ensures { OnOk result (map outline_of found.new.items ≡ map outline_of found.old.items ++ map (outlined (draft_paths (drafts_of said.now))) (properties_at path.now (view properties.now))) }
{
    match properties {
        Json::Object(object) => outline_named(alloc, said, path, object.as_slice(), found),
        _ => Ok(()),
    }
}

#[cycle(outlines)]
#[tactic(auto, using(mapping_body::proofs::Walks::outline_walks))]
fn outline_named<'a>(
    alloc: Global,
    said: &Said,
    path: &[u8],
    members: &'a [(JsonText, Json)],
    found: &mut Vec<Outline<'a>>,
) -> Result<(), NoMemory>
    ensures { OnOk result (map outline_of found.new.items ≡ map outline_of found.old.items ++ map (outlined (draft_paths (drafts_of said.now))) (properties_named path.now (members_of (entries members.now)))) }
{
    'members: for (name, form) in members {
        outline_inside(alloc, said, path, name.as_slice(), form, found)?;
    }
    Ok(())
}

/// Appends the property of a name below a path, and those below it.
#[cycle(outlines)]
#[tactic(auto, using(mapping_body::proofs::Walks::outline_walks))]
fn outline_inside<'a>(
    alloc: Global,
    said: &Said,
    path: &[u8],
    name: &[u8],
    form: &'a Json,
    found: &mut Vec<Outline<'a>>,
) -> Result<(), NoMemory>
    ensures { OnOk result (map outline_of found.new.items ≡ map outline_of found.old.items ++ (outlined (draft_paths (drafts_of said.now)) (record { path = joined path.now name.now; form = view form.now }) ∷ map (outlined (draft_paths (drafts_of said.now))) (properties_below (joined path.now name.now) (view form.now)))) }
{
    let path = joined(alloc, path, name)?;
    found.push(outline_of(said, path.as_slice(), form))?;
    outline_below(alloc, said, path.as_slice(), form, found)
}

fn outline_of<'a>(said: &Said, path: &[u8], form: &'a Json) -> Outline<'a>
    ensures { outline_of result ≡ outlined (draft_paths (drafts_of said.now)) (record { path = path.now; form = view form.now }) }
{
    Outline {
        kept: said.field(&Whole { name: path }),
        dots: dot_count(path),
        form,
    }
}

/// Puts the fields below a path at their places in the byte order of paths.
#[cycle(drafts)]
#[tactic(auto, using(crate::proofs::Drafts::draft_walks))]
pub(crate) fn draft_below(
    alloc: Global,
    generation: u32,
    path: &[u8],
    value: &Json,
    found: &mut Vec<Draft>,
) -> Result<(), NoMemory>
    requires { AreAscending (map (λ d. d.path.items) found.old.items) }
    ensures put { OnOk result (map made_of found.new.items ≡ put_all (λ d. d.path) (map made_of found.old.items) (map (draft_of generation) (properties_below path.now (view value.now)))) }
    ensures ascending { OnOk result (AreAscending (map (λ d. d.path.items) found.new.items)) }
{
    match value {
        Json::Object(object) => match object.member(b"properties") {
            Some(properties) => draft_at(alloc, generation, path, properties, found),
            None => Ok(()),
        },
        _ => Ok(()),
    }
}

#[cycle(drafts)]
#[tactic(auto, using(crate::proofs::Drafts::draft_walks))]
fn draft_at(
    alloc: Global,
    generation: u32,
    path: &[u8],
    properties: &Json,
    found: &mut Vec<Draft>,
) -> Result<(), NoMemory>
    requires { AreAscending (map (λ d. d.path.items) found.old.items) }
    ensures put { OnOk result (map made_of found.new.items ≡ put_all (λ d. d.path) (map made_of found.old.items) (map (draft_of generation) (properties_at path.now (view properties.now)))) }
    ensures ascending { OnOk result (AreAscending (map (λ d. d.path.items) found.new.items)) }
{
    match properties {
        Json::Object(object) => draft_named(alloc, generation, path, object.as_slice(), found),
        _ => Ok(()),
    }
}

#[cycle(drafts)]
#[tactic(auto, using(crate::proofs::Drafts::draft_walks))]
fn draft_named(
    alloc: Global,
    generation: u32,
    path: &[u8],
    members: &[(JsonText, Json)],
    found: &mut Vec<Draft>,
) -> Result<(), NoMemory>
    requires { AreAscending (map (λ d. d.path.items) found.old.items) }
    ensures put { OnOk result (map made_of found.new.items ≡ put_all (λ d. d.path) (map made_of found.old.items) (map (draft_of generation) (properties_named path.now (members_of (entries members.now))))) }
    ensures ascending { OnOk result (AreAscending (map (λ d. d.path.items) found.new.items)) }
{
    'members: for (name, form) in members {
        draft_inside(alloc, generation, path, name.as_slice(), form, found)?;
    }
    Ok(())
}

/// Puts the field of a name below a path, and those below it.
#[cycle(drafts)]
#[tactic(auto, using(crate::proofs::Drafts::draft_walks))]
fn draft_inside(
    alloc: Global,
    generation: u32,
    path: &[u8],
    name: &[u8],
    form: &Json,
    found: &mut Vec<Draft>,
) -> Result<(), NoMemory>
    requires { AreAscending (map (λ d. d.path.items) found.old.items) }
    ensures put { OnOk result (map made_of found.new.items ≡ put_all (λ d. d.path) (map made_of found.old.items) (draft_of generation (record { path = joined path.now name.now; form = view form.now }) ∷ map (draft_of generation) (properties_below (joined path.now name.now) (view form.now)))) }
    ensures ascending { OnOk result (AreAscending (map (λ d. d.path.items) found.new.items)) }
{
    let path = joined(alloc, path, name)?;
    put_draft(found, draft_of(alloc, generation, path.as_slice(), form)?)?;
    draft_below(alloc, generation, path.as_slice(), form, found)
}

/// Puts a field at its place.
fn put_draft(found: &mut Vec<Draft>, draft: Draft) -> Result<(), NoMemory>
    requires { AreAscending (map (λ d. d.path.items) found.old.items) }
    ensures put { OnOk result (map made_of found.new.items ≡ put (λ d. d.path) (made_of draft) (map made_of found.old.items)) }
    ensures ascending { OnOk result (AreAscending (map (λ d. d.path.items) found.new.items)) }
{
    put(found, draft)?;
    Ok(())
}

/// The field at a path.
fn draft_of(alloc: Global, generation: u32, path: &[u8], form: &Json) -> Result<Draft, NoMemory>
    ensures { IfOk result (λ d. made_of d ≡ draft_of generation (record { path = path.now; form = view form.now })) }
{
    Ok(Draft {
        path: path.to_vec(alloc)?,
        kind: kind_of(form),
        in_parent: has_flag(form, b"include_in_parent"),
        in_root: has_flag(form, b"include_in_root"),
        since: generation,
    })
}
