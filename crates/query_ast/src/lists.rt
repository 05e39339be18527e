//! Lists of bytes and of values.
ghost use Rattle.std.specs.Prelude.{◌≡◌};

use std::marker::Model;
use tree_objects::{Bytes, FieldValue};

/// Texts in order, such as ids.
#[derive(Drop)]
pub struct BytesList {
    items: Vec<Bytes>,
}

impl Model for BytesList {
    ghost use Rattle.std.specs.Prelude.{List, ℕ};

    ghost Value = { List (List ℕ) };

    ghost view = { λ l. l.items.items };
}

impl BytesList {
    /// The list of these. Takes no memory.
    pub fn of(items: Vec<Bytes>) -> BytesList
        ensures { result ≡ items.items }
    {
        BytesList { items }
    }

    /// The items in order.
    pub fn as_slice(&self) -> &[Bytes]
        ensures { result.now ≡ self.now }
    {
        self.items.as_slice()
    }

    /// The vector again. Takes no memory.
    pub fn into_vec(self) -> Vec<Bytes>
        ensures { result.items ≡ self }
    {
        let BytesList { items } = self;
        items
    }
}

/// Values in order.
#[derive(Drop)]
pub struct ValueList {
    items: Vec<FieldValue>,
}

impl Model for ValueList {
    ghost use Rattle.std.specs.Prelude.{List};
    ghost use Rattle.tree_objects.specs.declared.field_value.FieldValue.{FieldValue};
    ghost use Rattle.std.specs.Coded.{coded_list};
    ghost use Rattle.tree_objects.specs.contracts.field_value.FieldValue as field_value;

    ghost Value = { List FieldValue };

    ghost coded = { coded_list field_value.the_row.coded };

    ghost view = { λ l. l.items.items };
}

impl ValueList {
    /// The list of these. Takes no memory.
    pub fn of(items: Vec<FieldValue>) -> ValueList
        ensures { result ≡ items.items }
    {
        ValueList { items }
    }

    /// The items in order.
    pub fn as_slice(&self) -> &[FieldValue]
        ensures { result.now ≡ self.now }
    {
        self.items.as_slice()
    }

    /// The vector again. Takes no memory.
    pub fn into_vec(self) -> Vec<FieldValue>
        ensures { result.items ≡ self }
    {
        let ValueList { items } = self;
        items
    }
}
