//! A relation of a number and a short text, in a heap or in a tree, and its rows.

ghost use Rattle.std.specs.Prelude.{◌≡◌, ◌≤◌, ◌∷◌, [], codes, length, IfOk};
ghost use Rattle.sb_heap.specs.Heap.{heap_method};
ghost use Rattle.sb_treemethod.specs.Examples.{IsShortRow, example_columns};
ghost use Rattle.sb_treemethod.specs.TreeMethod.{tree_method};
ghost use Rattle.sb_bench.specs.Rows.{IsFirst, KeepsShortRows};

use sb_ctx::Instance;
use sb_value::{Bytes, Column, Kind, Names, Schema, Str, Tuple, Value};
use std::alloc::{AllocError, Global};

/// The owner and the root of the first instance in a new store.
pub const FIRST: (u16, u32) = (3, 2);

fn text(alloc: Global, text: &str) -> Result<Str, AllocError>
    ensures { IfOk result (λ s. s ≡ text.now) }
{
    Ok(Str::from_string(String::from_str(alloc, text)?))
}

/// A number `k` and a text `v` of at most 20 bytes.
fn columns(alloc: Global) -> Result<Schema, AllocError>
    ensures { IfOk result (λ schema. schema ≡ example_columns) }
{
    let number = Column {
        name: text(alloc, "k")?,
        kind: Kind::Int,
        limit: 0,
    };
    let words = Column {
        name: text(alloc, "v")?,
        kind: Kind::Text,
        limit: 20,
    };
    Ok(Schema::from_vec(vec![in alloc; number, words]?))
}

/// The relation `r` of these columns as the first instance, with a box of this code.
fn instance(alloc: Global, code: u16, key: Names) -> Result<Instance, AllocError>
    ensures { IfOk result (IsFirst code key) }
{
    let relation = text(alloc, "r")?;
    let schema = columns(alloc)?;
    let (owner, root) = FIRST;
    Ok(Instance {
        relation,
        owner,
        root,
        durable: true,
        code,
        desc: Bytes::new(alloc),
        schema,
        key,
    })
}

/// The relation in a heap.
pub fn heap(alloc: Global) -> Result<Instance, AllocError>
    ensures { IfOk result (KeepsShortRows heap_method) }
{
    let key = Names::from_vec(Vec::new(alloc));
    let inst = instance(alloc, 1, key)?;
    Ok(inst)
}

/// The name of the tree's key.
fn key_names(alloc: Global) -> Result<Names, AllocError>
    ensures { IfOk result (λ names. names ≡ codes "k" ∷ []) }
{
    Ok(Names::from_vec(vec![in alloc; text(alloc, "k")?]?))
}

/// The relation in a tree, by the number.
pub fn tree(alloc: Global) -> Result<Instance, AllocError>
    ensures { IfOk result (KeepsShortRows tree_method) }
{
    let key = key_names(alloc)?;
    let inst = instance(alloc, 2, key)?;
    Ok(inst)
}

/// A row.
pub fn row(alloc: Global, number: i64, words: &str) -> Result<Tuple, AllocError>
    requires { length words.now ≤ 20 }
    ensures { IfOk result IsShortRow }
{
    let words = Value::Text(text(alloc, words)?);
    Ok(Tuple::from_vec(vec![in alloc; Value::Int(number), words]?))
}
