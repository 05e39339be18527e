//! The properties that a walk has found below a path.
ghost use Rattle.std.specs.Prelude.{◌≡◌, IsTrue, ◌↔◌, OnOk, option_map, unwrap_or};
ghost use Rattle.tree_json.specs.Value.{Members, member_of, members_of, no_members};
ghost use Rattle.source_growth.specs.Forms.{IsLeft, form_of, forms_of};
ghost use Rattle.source_growth.specs.Growth.{properties_in, put_member};

use mapping::NoMemory;
use std::alloc::Global;
use std::collections::BTreeMap;
use std::marker::Model;
use tree_json::JsonText;

/// The type of a property that holds no objects, as its first value gives it.
#[derive(Clone, Copy)]
pub(crate) enum ValueType {
    Text,
    Long,
    Boolean,
}

/// The form of a property, as far as the walk has come.
#[cycle(forms)]
#[derive(Drop)]
pub(crate) enum Form {
    /// Its type alone.
    Typed(ValueType),
    /// A plain object.
    Plain(Found),
    /// A mapped nested field.
    Nested(Found),
}

/// Properties with their forms, in ascending byte order of their names. Each is found, taken and put by about log2 of their
/// number comparisons: a source may have as many names as it has values, in any order.
#[cycle(forms)]
#[derive(Drop)]
pub(crate) struct Found {
    forms: BTreeMap<String, Form>,
}

impl Model for Found {
    ghost use Rattle.tree_json.specs.Value.{Members, members_of, members_size};
    ghost use Rattle.source_growth.specs.Code.{members_code};

    ghost Value = { Members };

    ghost coded = { members_code };

    ghost use Rattle.source_growth.specs.Forms.{forms_of};

    ghost view = { λ a. members_of (forms_of a.forms.entries) };

    ghost size = { members_size };

    ghost use Rattle.std.proofs.Common.{arith};
    ghost use Rattle.source_growth.specs.Falls.{forms_fall};

    ghost size_decreases = { λ a h. Prim.omega (arith, forms_fall a.forms.entries) };
}

impl Found {
    /// No properties; takes no memory.
    pub(crate) fn new(alloc: Global) -> Found
        ensures { result ≡ no_members }
    {
        Found {
            forms: BTreeMap::new(alloc),
        }
    }

    #[tactic(auto, using(crate::proofs::Puts::empties))]
    pub(crate) fn is_empty(&self) -> bool
        ensures { IsTrue result ↔ (self.now ≡ no_members) }
    {
        self.forms.is_empty()
    }

    /// Takes out a property, if there is one, until it is put there again.
    pub(crate) fn take(&mut self, name: &str) -> Option<Form>
        ensures form { option_map form_of result ≡ member_of self.old name.now }
        ensures left { IsLeft name.now (member_of self.old name.now) self.old self.new }
    {
        let _ascending = self.forms.len();
        self.forms.remove(name)
    }

    /// Puts a property at its place, over the one that stands there.
    #[tactic(auto, using(crate::proofs::Puts::puts_entry))]
    pub(crate) fn put(&mut self, alloc: Global, name: &JsonText, form: Form) -> Result<(), NoMemory>
        ensures { OnOk result (self.new ≡ put_member name.now (form_of form) self.old) }
    {
        let name = String::from_str(alloc, name.as_str())?;
        let _former = self.forms.insert(name, form)?;
        Ok(())
    }

    /// The properties with their names, in ascending byte order of these.
    pub(crate) fn into_forms(self) -> BTreeMap<String, Form>
        ensures { members_of (forms_of result.entries) ≡ self }
    {
        let Found { forms } = self;
        forms
    }
}

impl Form {
    /// The properties below it; none where it has its type alone.
    pub(crate) fn into_properties(self, alloc: Global) -> Found
        ensures { result ≡ unwrap_or (properties_in (form_of self)) no_members }
    {
        match self {
            Form::Typed(_) => Found::new(alloc),
            Form::Plain(below) => below,
            Form::Nested(below) => below,
        }
    }
}
