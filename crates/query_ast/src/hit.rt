//! Hits, and the pages that they stand on.
ghost use Rattle.std.specs.Prelude.{◌≡◌, map};

use crate::sort::KeyList;
use std::marker::Model;
use tree_objects::Bytes;

/// What a search finds: a page of its hits, and the number of all.
#[derive(Drop)]
pub struct HitPage {
    pub hits: HitList,
    pub total: u64,
}

/// A tree that a search hits.
#[derive(Drop)]
pub struct Hit {
    pub id: Bytes,
    /// The tree's sequence number.
    pub number: u64,
    pub score: u64,
    /// One for each clause of the sort.
    pub keys: KeyList,
    /// The compact text of the tree's source, where it is asked for.
    pub source: Option<Bytes>,
    /// The pages of the definitions that the search hit owns, in the order of these.
    pub inner: InnerPageList,
}

/// A page of inner hits, and the number of all.
#[cycle(page)]
#[derive(Drop)]
pub struct InnerPage {
    pub name: Bytes,
    pub hits: InnerHitList,
    pub total: u64,
}

/// An object inside a hit, or a tree that is joined to one.
#[cycle(page)]
#[derive(Drop)]
pub struct InnerHit {
    /// The id of its tree.
    pub id: Bytes,
    /// Its place in the tree, from the root down; empty for a tree.
    pub levels: LevelList,
    pub score: u64,
    /// The compact text of its content, where it is asked for.
    pub source: Option<Bytes>,
    /// The pages of the definitions that its own definition owns, in the order of these.
    pub inner: InnerPageList,
}

/// A step of a place: the object with that offset at a nested field.
#[derive(Drop)]
pub struct Level {
    /// The field's path relative to the object around.
    pub field: Bytes,
    /// The place among the objects of that field there, from 0.
    pub offset: u64,
}

/// The steps of a place.
#[derive(Drop)]
pub struct LevelList {
    items: Vec<Level>,
}

impl Model for LevelList {
    ghost use Rattle.std.specs.Prelude.{List};
    ghost use Rattle.query_ast.specs.declared.hit.Level.{Level};
    ghost use Rattle.std.specs.Coded.{coded_list};
    ghost use Rattle.query_ast.specs.contracts.hit.Level as level;

    ghost Value = { List Level };

    ghost coded = { coded_list level.the_row.coded };

    ghost view = { λ l. l.items.items };
}

impl LevelList {
    /// The list of these. Takes no memory.
    pub fn of(items: Vec<Level>) -> LevelList
        ensures { result ≡ items.items }
    {
        LevelList { items }
    }

    /// The items in order.
    pub fn as_slice(&self) -> &[Level]
        ensures { result.now ≡ self.now }
    {
        self.items.as_slice()
    }

    /// The vector again. Takes no memory.
    pub fn into_vec(self) -> Vec<Level>
        ensures { result.items ≡ self }
    {
        let LevelList { items } = self;
        items
    }
}

/// Hits in the order of the sort.
#[derive(Drop)]
pub struct HitList {
    items: Vec<Hit>,
}

impl Model for HitList {
    ghost use Rattle.std.specs.Prelude.{List};
    ghost use Rattle.query_ast.specs.declared.hit.Hit.{Hit};
    ghost use Rattle.std.specs.Coded.{coded_list};
    ghost use Rattle.query_ast.specs.contracts.hit.Hit as hit;

    ghost Value = { List Hit };

    ghost coded = { coded_list hit.the_row.coded };

    ghost view = { λ l. l.items.items };
}

impl HitList {
    /// The list of these. Takes no memory.
    pub fn of(items: Vec<Hit>) -> HitList
        ensures { result ≡ items.items }
    {
        HitList { items }
    }

    /// The items in order.
    pub fn as_slice(&self) -> &[Hit]
        ensures { result.now ≡ self.now }
    {
        self.items.as_slice()
    }

    /// The vector again. Takes no memory.
    pub fn into_vec(self) -> Vec<Hit>
        ensures { result.items ≡ self }
    {
        let HitList { items } = self;
        items
    }
}

/// Pages of inner hits, one for each definition.
#[cycle(page)]
#[derive(Drop)]
pub struct InnerPageList {
    items: Vec<InnerPage>,
}

impl Model for InnerPageList {
    ghost use Rattle.std.specs.Prelude.{List, map};
    ghost use Rattle.std.specs.Coded.{coded_list};
    ghost use Rattle.query_ast.specs.Pages.{PagePart, pages_of, pages_size};
    ghost use Rattle.query_ast.specs.Pages.Code.{page_code};

    ghost Value = { List PagePart };

    ghost coded = { coded_list page_code };

    ghost use Rattle.query_ast.specs.Pages.View.{page_part};

    ghost view = { λ l. map page_part l.items.items };

    ghost size = { λ ps. pages_size (pages_of ps) };

    ghost use Rattle.std.proofs.Common.{arith};
    ghost use Rattle.query_ast.specs.Pages.Falls.{page_list_falls};

    ghost size_decreases = { λ a h. Prim.omega (arith, page_list_falls a.items.items) };
}

impl InnerPageList {
    ghost use Rattle.query_ast.specs.Pages.View.{page_part};

    /// The list of these. Takes no memory.
    pub fn of(items: Vec<InnerPage>) -> InnerPageList
        ensures { result ≡ map page_part items.items }
    {
        InnerPageList { items }
    }

    /// The items in order.
    pub fn as_slice(&self) -> &[InnerPage]
        ensures { map page_part result.now ≡ self.now }
    {
        self.items.as_slice()
    }

    /// The vector again. Takes no memory.
    pub fn into_vec(self) -> Vec<InnerPage>
        ensures { map page_part result.items ≡ self }
    {
        let InnerPageList { items } = self;
        items
    }
}

/// Inner hits in the order of their sort.
#[cycle(page)]
#[derive(Drop)]
pub struct InnerHitList {
    items: Vec<InnerHit>,
}

impl Model for InnerHitList {
    ghost use Rattle.std.specs.Prelude.{List, map};
    ghost use Rattle.std.specs.Coded.{coded_list};
    ghost use Rattle.query_ast.specs.Pages.{HitPart, hits_of, hits_size};
    ghost use Rattle.query_ast.specs.Pages.Code.{hit_code};

    ghost Value = { List HitPart };

    ghost coded = { coded_list hit_code };

    ghost use Rattle.query_ast.specs.Pages.View.{hit_part};

    ghost view = { λ l. map hit_part l.items.items };

    ghost size = { λ hs. hits_size (hits_of hs) };

    ghost use Rattle.std.proofs.Common.{arith};
    ghost use Rattle.query_ast.specs.Pages.Falls.{hit_list_falls};

    ghost size_decreases = { λ a h. Prim.omega (arith, hit_list_falls a.items.items) };
}

impl InnerHitList {
    ghost use Rattle.query_ast.specs.Pages.View.{hit_part};

    /// The list of these. Takes no memory.
    pub fn of(items: Vec<InnerHit>) -> InnerHitList
        ensures { result ≡ map hit_part items.items }
    {
        InnerHitList { items }
    }

    /// The items in order.
    pub fn as_slice(&self) -> &[InnerHit]
        ensures { map hit_part result.now ≡ self.now }
    {
        self.items.as_slice()
    }

    /// The vector again. Takes no memory.
    pub fn into_vec(self) -> Vec<InnerHit>
        ensures { map hit_part result.items ≡ self }
    {
        let InnerHitList { items } = self;
        items
    }
}
