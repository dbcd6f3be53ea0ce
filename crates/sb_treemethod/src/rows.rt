//! Rows as entries of a tree.

ghost use Rattle.std.specs.Prelude.{◌≡◌, IfOk};
ghost use Rattle.sb_ctx.specs.Method.{code_of};
ghost use Rattle.sb_relation.specs.Lawful.{IsRow};
ghost use Rattle.sb_treemethod.specs.TreeMethod.{IsEntryOf};

use sb_codec::{encode_tuple, ordered_key};
use sb_ctx::Instance;
use sb_relation::values_of;
use sb_value::{Bytes, RecKey, Tuple};
use std::alloc::{AllocError, Global};

/// The record key of a row, and its spelling.
pub fn entry_of(alloc: Global, inst: &Instance, row: &Tuple) -> Result<(RecKey, Bytes), AllocError>
    requires { IsRow inst.now.schema row.now }
    ensures { IfOk result (λ entry. IsEntryOf inst.now row.now entry.0 entry.1) }
{
    let key = key_of(alloc, inst, row)?;
    Ok((key, encode_tuple(alloc, row)?))
}

/// The record key of a row.
pub fn key_of(alloc: Global, inst: &Instance, row: &Tuple) -> Result<RecKey, AllocError>
    ensures { IfOk result (λ key. key ≡ code_of inst.now row.now) }
{
    let values = values_of(alloc, &inst.schema, row, &inst.key)?;
    ordered_key(alloc, &values)
}
