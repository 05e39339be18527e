//! A search body whose form was tested.
ghost use Rattle.std.specs.Prelude.{◌≡◌, true, false, IfOk, IsOk, IsErrOf};
ghost use Rattle.tree_json.specs.View.{view};
ghost use Rattle.search_form.specs.Form.{is_search_body};

use crate::form::Form;
use crate::judge::has_form;
use std::marker::Model;
use tree_json::{Json, JsonObject};

/// A search body that has the form of one. Contracts see it as the JSON value of the body; it borrows the body, and
/// nothing of it is copied.
#[derive(Drop)]
pub struct Shape<'a> {
    body: &'a Json,
    members: &'a JsonObject,
}

impl<'a> Model for Shape<'a> {
    ghost use Rattle.tree_json.specs.Value.{JsonValue};
    ghost use Rattle.tree_json.specs.Code.{value_code};
    ghost use Rattle.tree_json.specs.View.{view as json_value};

    ghost Value = { JsonValue };

    ghost coded = { value_code };

    ghost view = { λ s. json_value s.body.now };

    ghost use Rattle.search_form.specs.Shape.{IsShape};

    ghost invariant = { λ s. IsShape s.body.now s.members.now };
}

/// Why a body has no shape.
#[derive(Clone, Copy, Debug, PartialEq, Eq)]
pub enum ShapeRefusal {
    /// The body doesn't have the form of a search body.
    BadRequest,
}

impl<'a> Shape<'a> {
    ghost use Rattle.std.specs.Prelude.{◌≡◌, true};
    ghost use Rattle.tree_json.specs.Value.{object, members_of};
    ghost use Rattle.tree_json.specs.View.{view};
    ghost use Rattle.search_form.specs.Form.{is_search_body};
    ghost use Rattle.search_form.specs.Texts.{AreTexts};

    /// The body.
    pub fn body(&self) -> &'a Json
        ensures body { view result.now ≡ self.now }
        ensures texts { AreTexts self.now }
        ensures form { is_search_body self.now ≡ true }
    {
        self.body
    }

    /// The members of the body, which is an object.
    pub fn members(&self) -> &'a JsonObject
        ensures members { self.now ≡ object (members_of result.now) }
        ensures texts { AreTexts self.now }
        ensures form { is_search_body self.now ≡ true }
    {
        self.members
    }
}

/// The shape of a search body, exactly where it has the form of one. It takes no memory.
#[tactic(auto, unfolding(crate::specs::Form::is_search_body))]
pub fn search(body: &Json) -> Result<Shape<'_>, ShapeRefusal>
    ensures shape { IfOk result (λ s. s ≡ view body.now) }
    ensures accepted { IsOk result → is_search_body (view body.now) ≡ true }
    ensures bad_request { IsErrOf result ShapeRefusal.BadRequest → is_search_body (view body.now) ≡ false }
{
    match body {
        Json::Object(members) => {
            if has_form(true, Form::Body, body) {
                Ok(Shape { body, members })
            } else {
                Err(ShapeRefusal::BadRequest)
            }
        }
        _ => Err(ShapeRefusal::BadRequest),
    }
}
