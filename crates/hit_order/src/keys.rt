//! The keys of one sort clause, row by row.
ghost use Rattle.std.specs.Prelude.{◌≡◌, ◌++◌, [], ◌∷◌, get_or, map, Option, Some, None, IfOk, OnOk, OnErr, option_map};

use crate::NoMemory;
use std::alloc::Global;
use std::marker::Model;

/// Keys that are numbers, or none.
#[derive(Drop)]
pub struct NumberKeys {
    keys: Vec<Option<i64>>,
}

impl Model for NumberKeys {
    ghost use Rattle.std.specs.Prelude.{ℤ, List, Option};
    ghost use Rattle.std.specs.Coded.{coded_list, coded_option, coded_ℤ};

    ghost Value = { List (Option ℤ) };

    ghost coded = { coded_list (coded_option coded_ℤ) };

    ghost view = { λ it. it.keys.items };
}

impl NumberKeys {
    /// No keys. Takes no memory.
    pub fn empty(alloc: Global) -> NumberKeys
        ensures { result ≡ [] }
    {
        NumberKeys {
            keys: Vec::new(alloc),
        }
    }

    /// Adds the key of the next row. After NoMemory the keys are as they were.
    pub fn push(&mut self, key: Option<i64>) -> Result<(), NoMemory>
        ensures pushed { OnOk result (self.new ≡ self.old ++ key ∷ []) }
        ensures unchanged { OnErr result (self.new ≡ self.old) }
    {
        Ok(self.keys.push(key)?)
    }

    /// The key of a row; past the last there is none.
    pub fn get(&self, at: usize) -> Option<i64>
        ensures { result ≡ get_or self.now at None }
    {
        match self.keys.get(at) {
            Some(key) => *key,
            None => None,
        }
    }

    /// The keys of these rows alone.
    pub(crate) fn gathered(&self, alloc: Global, rows: &[usize]) -> Result<NumberKeys, NoMemory>
        ensures { IfOk result (λ made. made ≡ map (λ row. get_or self.now row None) rows.now) }
    {
        let mut made = NumberKeys::empty(alloc);
        'rows: for row in rows {
            made.push(self.get(*row))?;
        }
        Ok(made)
    }
}

/// Where a text stands in bytes.
#[derive(Clone, Copy, Debug, PartialEq, Eq)]
pub(crate) struct Span {
    pub(crate) start: usize,
    pub(crate) end: usize,
}

/// Keys that are texts, or none; they stand one behind another in one string of bytes.
#[derive(Drop)]
pub struct TextKeys {
    bytes: Vec<u8>,
    spans: Vec<Option<Span>>,
}

impl Model for TextKeys {
    ghost use Rattle.std.specs.Prelude.{ℕ, List, Option, map};
    ghost use Rattle.std.specs.Coded.{coded_list, coded_option, coded_ℕ};
    ghost use Rattle.hit_order.specs.Spans.{text_in, AreSpans};

    ghost Value = { List (Option (List ℕ)) };

    ghost coded = { coded_list (coded_option (coded_list coded_ℕ)) };

    ghost view = { λ it. map (text_in it.bytes.items) it.spans.items };

    ghost invariant = { λ it. AreSpans it.bytes.items it.spans.items };
}

impl TextKeys {
    /// No keys. Takes no memory.
    pub fn empty(alloc: Global) -> TextKeys
        ensures { result ≡ [] }
    {
        TextKeys {
            bytes: Vec::new(alloc),
            spans: Vec::new(alloc),
        }
    }

    /// Adds the key of the next row. After NoMemory the keys are as they were.
    pub fn push(&mut self, key: Option<&[u8]>) -> Result<(), NoMemory>
        ensures pushed { OnOk result (self.new ≡ self.old ++ option_map (λ text. text.now) key.entry ∷ []) }
        ensures unchanged { OnErr result (self.new ≡ self.old) }
    {
        match key {
            Some(text) => self.push_text(text),
            None => Ok(self.spans.push(None)?),
        }
    }

    /// Adds a text. After NoMemory the keys are as they were.
    #[tactic(auto, using(crate::proofs::Texts::texts))]
    fn push_text(&mut self, text: &[u8]) -> Result<(), NoMemory>
        ensures pushed { OnOk result (self.new ≡ self.old ++ Some text.now ∷ []) }
        ensures unchanged { OnErr result (self.new ≡ self.old) }
    {
        let start = self.bytes.len();
        self.bytes.extend_from_slice(text)?;
        let end = self.bytes.len();
        self.spans.push(Some(Span { start, end }))?;
        Ok(())
    }

    /// The key of a row; past the last there is none.
    pub fn get(&self, at: usize) -> Option<&[u8]>
        ensures { option_map (λ text. text.now) result ≡ get_or self.now at None }
    {
        match self.spans.get(at) {
            Some(Some(span)) => Some(&self.bytes[span.start..span.end]),
            Some(None) => None,
            None => None,
        }
    }

    /// The keys of these rows alone.
    pub(crate) fn gathered(&self, alloc: Global, rows: &[usize]) -> Result<TextKeys, NoMemory>
        ensures { IfOk result (λ made. made ≡ map (λ row. get_or self.now row None) rows.now) }
    {
        let mut made = TextKeys::empty(alloc);
        'rows: for row in rows {
            made.push(self.get(*row))?;
        }
        Ok(made)
    }
}
