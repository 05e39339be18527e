//! What buckets answer.
ghost use Rattle.std.specs.Prelude.{◌≡◌, map};

use std::marker::Model;
use tree_objects::{Bytes, FieldValue};

/// The answer to one definition of buckets.
#[cycle(reply)]
#[derive(Drop)]
pub struct AggReply {
    pub name: Bytes,
    pub value: AggValue,
}

/// The answer but for its name.
#[cycle(reply)]
#[derive(Drop)]
pub enum AggValue {
    /// One bucket: the number of its objects, and the answers to the definitions inside.
    Single { count: u64, inner: AggReplies },
    /// A bucket for each of the first keys, and the sum of the counts of the others.
    Buckets { buckets: BucketList, other: u64 },
    /// A number, or null.
    Metric(Option<i64>),
}

/// A bucket: its key, the number of its objects, and the answers to the definitions inside.
#[cycle(reply)]
#[derive(Drop)]
pub struct Bucket {
    pub key: FieldValue,
    pub count: u64,
    pub inner: AggReplies,
}

/// The answers to definitions, in the order of these.
#[cycle(reply)]
#[derive(Drop)]
pub struct AggReplies {
    items: Vec<AggReply>,
}

impl Model for AggReplies {
    ghost use Rattle.std.specs.Prelude.{List, map};
    ghost use Rattle.std.specs.Coded.{coded_list};
    ghost use Rattle.query_ast.specs.Replies.{ReplyPart, replies_of, replies_size};
    ghost use Rattle.query_ast.specs.Replies.Code.{reply_code};

    ghost Value = { List ReplyPart };

    ghost coded = { coded_list reply_code };

    ghost use Rattle.query_ast.specs.Replies.View.{reply_part};

    ghost view = { λ l. map reply_part l.items.items };

    ghost size = { λ rs. replies_size (replies_of rs) };

    ghost use Rattle.std.proofs.Common.{arith};
    ghost use Rattle.query_ast.specs.Replies.Falls.{reply_list_falls};

    ghost size_decreases = { λ a h. Prim.omega (arith, reply_list_falls a.items.items) };
}

impl AggReplies {
    ghost use Rattle.query_ast.specs.Replies.View.{reply_part};

    /// The list of these. Takes no memory.
    pub fn of(items: Vec<AggReply>) -> AggReplies
        ensures { result ≡ map reply_part items.items }
    {
        AggReplies { items }
    }

    /// The items in order.
    pub fn as_slice(&self) -> &[AggReply]
        ensures { map reply_part result.now ≡ self.now }
    {
        self.items.as_slice()
    }

    /// The vector again. Takes no memory.
    pub fn into_vec(self) -> Vec<AggReply>
        ensures { map reply_part result.items ≡ self }
    {
        let AggReplies { items } = self;
        items
    }
}

/// Buckets in their order.
#[cycle(reply)]
#[derive(Drop)]
pub struct BucketList {
    items: Vec<Bucket>,
}

impl Model for BucketList {
    ghost use Rattle.std.specs.Prelude.{List, map};
    ghost use Rattle.std.specs.Coded.{coded_list};
    ghost use Rattle.query_ast.specs.Replies.{BucketPart, buckets_of, buckets_size};
    ghost use Rattle.query_ast.specs.Replies.Code.{bucket_code};

    ghost Value = { List BucketPart };

    ghost coded = { coded_list bucket_code };

    ghost use Rattle.query_ast.specs.Replies.View.{bucket_part};

    ghost view = { λ l. map bucket_part l.items.items };

    ghost size = { λ bs. buckets_size (buckets_of bs) };

    ghost use Rattle.std.proofs.Common.{arith};
    ghost use Rattle.query_ast.specs.Replies.Falls.{bucket_list_falls};

    ghost size_decreases = { λ a h. Prim.omega (arith, bucket_list_falls a.items.items) };
}

impl BucketList {
    ghost use Rattle.query_ast.specs.Replies.View.{bucket_part};

    /// The list of these. Takes no memory.
    pub fn of(items: Vec<Bucket>) -> BucketList
        ensures { result ≡ map bucket_part items.items }
    {
        BucketList { items }
    }

    /// The items in order.
    pub fn as_slice(&self) -> &[Bucket]
        ensures { map bucket_part result.now ≡ self.now }
    {
        self.items.as_slice()
    }

    /// The vector again. Takes no memory.
    pub fn into_vec(self) -> Vec<Bucket>
        ensures { map bucket_part result.items ≡ self }
    {
        let BucketList { items } = self;
        items
    }
}
