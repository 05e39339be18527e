//! The quick way into an object that holds one text, as an action line does.
ghost use Rattle.std.specs.Prelude.{◌≡◌, IfSome};
ghost use Rattle.serde_json.specs.Read.{read};
ghost use Rattle.tree_json.specs.Quick.{SaysText};
ghost use Rattle.tree_json.specs.OneText.{one_text};

use json::{Reader, Scratch, Token};

/// A text under a name, in the one object under another name: `{"outer":{"inner":"text"}}`.
#[derive(Clone, Copy, Debug)]
pub struct OneText<'a> {
    /// The name of the outer object's one member.
    pub outer: &'a str,
    /// The name of the inner object's one member.
    pub inner: &'a str,
    /// The text.
    pub text: &'a str,
}

// The one text of a text of that form. None says nothing.
pub(crate) fn one_text_of<'a>(text: &'a str, scratch: &'a mut Scratch) -> Option<OneText<'a>>
    ensures { IfSome result (λ it. SaysText (read text.now) (one_text it.outer.now it.inner.now it.text.now)) }
{
    let mut reader = Reader::new(text, scratch).ok()?;
    let Some(Token::BeginObject) = reader.next() else {
        return None;
    };
    let Some(Token::Key(outer)) = reader.next() else {
        return None;
    };
    let Some(Token::BeginObject) = reader.next() else {
        return None;
    };
    let Some(Token::Key(inner)) = reader.next() else {
        return None;
    };
    let Some(Token::String(within)) = reader.next() else {
        return None;
    };
    let Some(Token::EndObject) = reader.next() else {
        return None;
    };
    let Some(Token::EndObject) = reader.next() else {
        return None;
    };
    if reader.next().is_some() {
        return None;
    }
    Some(OneText {
        outer,
        inner,
        text: within,
    })
}
