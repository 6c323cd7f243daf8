//! What a joined run makes of calls of one word.

ghost use Rattle.std.specs.Prelude.{[], ◌≡◌, ◌≤◌, List, length, map, vec_capacity, vec_len};
ghost use Rattle.cvl_text.specs.Answers.{BoolOf, IntOf};
ghost use Rattle.vector_memory.specs.Contents.{Content, content_of};
ghost use Rattle.vector_memory.specs.Contents as contents;
ghost use Rattle.cvl_calls.specs.Joined.{effects_of};
ghost use Rattle.cvl_calls.specs.Outcomes.{Answers, Stores, effect_of};

use crate::product::Product;
use cvl_text::Reply;
use std::alloc::Global;
use vector_memory::Value;

/// What calls of one word make by one kernel run, in their order.
#[derive(Debug, Drop)]
pub enum Made {
    /// Vectors of integers, to be stored.
    Ints(Vec<Vec<i64>>),
    /// Vectors of truth values, to be stored.
    Bools(Vec<Vec<bool>>),
    /// Integers, to be replied.
    Numbers(Vec<i64>),
    /// Truth values, to be replied.
    Truths(Vec<bool>),
}

impl Made {
    /// What no calls make.
    #[inline(always)]
    pub fn nothing(alloc: Global) -> Made
        ensures { effects_of result ≡ [] }
    {
        Made::Numbers(Vec::new(alloc))
    }
}

/// Items of which a value may be made.
pub trait Stored: Copy {
    /// The value of these items.
    ghost content: { List Self → Content };

    /// The value of these items.
    fn value(items: Vec<Self>) -> Value
        ensures { content_of result ≡ content items.items };
}

impl Stored for i64 {
    ghost content = { λ items. contents.Ints items };

    #[inline(always)]
    fn value(items: Vec<i64>) -> Value
        ensures { content_of result ≡ contents.Ints items.items }
    {
        Value::Ints(items)
    }
}

impl Stored for bool {
    ghost content = { λ items. contents.Bools items };

    #[inline(always)]
    fn value(items: Vec<bool>) -> Value
        ensures { content_of result ≡ contents.Bools items.items }
    {
        Value::Bools(items)
    }
}

/// The vectors, as what calls make: each is a value to be stored.
fn stores<T: Stored>(mut products: Vec<Product>, vectors: Vec<Vec<T>>) -> Vec<Product>
    requires empty { products.items ≡ [] }
    requires room { vec_len vectors ≤ vec_capacity products }
    ensures { map effect_of result.items ≡ map (λ v. Stores (T.content v.items)) vectors.items }
{
    for items in vectors {
        products.push_reserved(Product::Store(T::value(items)));
    }
    products
}

/// The integers, as what calls make: each is a reply.
fn int_replies(mut products: Vec<Product>, items: &[i64]) -> Vec<Product>
    requires empty { products.items ≡ [] }
    requires room { length items.now ≤ vec_capacity products }
    ensures { map effect_of result.items ≡ map (λ item. Answers (IntOf item)) items.now }
{
    for item in items {
        products.push_reserved(Product::Reply(Reply::Int(*item)));
    }
    products
}

/// The truth values, as what calls make: each is a reply.
fn bool_replies(mut products: Vec<Product>, items: &[bool]) -> Vec<Product>
    requires empty { products.items ≡ [] }
    requires room { length items.now ≤ vec_capacity products }
    ensures { map effect_of result.items ≡ map (λ item. Answers (BoolOf item)) items.now }
{
    for item in items {
        products.push_reserved(Product::Reply(Reply::Bool(*item)));
    }
    products
}

/// What was made, each by itself, in a list with space for as many.
pub(crate) fn products_of(products: Vec<Product>, made: Made) -> Vec<Product>
    requires empty { products.items ≡ [] }
    requires room { length (effects_of made) ≤ vec_capacity products }
    ensures { map effect_of result.items ≡ effects_of made }
{
    match made {
        Made::Ints(vectors) => stores(products, vectors),
        Made::Bools(vectors) => stores(products, vectors),
        Made::Numbers(items) => int_replies(products, &items),
        Made::Truths(items) => bool_replies(products, &items),
    }
}
