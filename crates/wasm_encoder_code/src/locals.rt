ghost use Rattle.std.specs.Prelude.{◌≡◌, ◌<◌, ◌^◌, ◌≤◌, [], ◌∷◌, drop, IfSome, IfNone, IfOk, OnOk, OnErr, IsErrOf, List, ℕ, length, map};
ghost use Rattle.std.specs.List.{AllByRecursion};
ghost use Rattle.wasm_encoder_base.specs.Views.{heap_view, val_view};
ghost use Rattle.wasm_encoder_code.specs.Body.{same_heap, same_type, joined};
ghost use Rattle.wasm_encoder_code.specs.Locals.{run_view, leading};

use std::alloc::Global;
use wasm_encoder_base::{EncodeError, HeapType, ValType};

/// The locals with neighbours of one type joined: how many of a type, and the type.
pub fn joined(alloc: Global, locals: &[ValType]) -> Result<Vec<(u32, ValType)>, EncodeError>
    ensures ok { IfOk result (λ runs. map run_view runs.items ≡ joined (map val_view locals.now)) }
    ensures fits { OnOk result (AllByRecursion (λ r. r.count < 2 ^ 32) (joined (map val_view locals.now))) }
    ensures too_large { IsErrOf result EncodeError.TooLarge → AllByRecursion (λ r. r.count < 2 ^ 32) (joined (map val_view locals.now)) → ⊥ }
{
    let mut runs = Vec::new(alloc);
    let mut rest = locals;
    while let Some((more, val_type)) = first_run(rest) {
        let Ok(count) = u32::try_from(more) else {
            return Err(EncodeError::TooLarge);
        };
        runs.push((count, val_type))?;
        rest = &rest[more..];
    }
    Ok(runs)
}

/// How many locals at the front are of one type, and that type; `None` where there are no locals.
fn first_run(locals: &[ValType]) -> Option<(usize, ValType)>
    ensures none { IfNone result (locals.now ≡ []) }
    ensures some { IfSome result (λ r. 0 < r.0) }
    ensures within { IfSome result (λ r. r.0 ≤ length locals.now) }
    ensures joined { IfSome result (λ r. joined (map val_view locals.now) ≡ record { count = r.0; val_type = val_view r.1 } ∷ joined (map val_view (drop r.0 locals.now))) }
{
    match locals {
        [] => None,
        [first, ..] => Some((leading(*first, locals), *first)),
    }
}

/// How many locals at the front are of the type.
fn leading(val_type: ValType, locals: &[ValType]) -> usize
    ensures value { result ≡ leading (val_view val_type) (map val_view locals.now) }
    ensures within { result ≤ length locals.now }
{
    let mut count = 0;
    for local in locals {
        if !is_same(val_type, *local) {
            return count;
        }
        count += 1;
    }
    count
}

/// Whether the types are the same.
fn is_same(one: ValType, other: ValType) -> bool
    ensures { result ≡ same_type (val_view one) (val_view other) }
{
    match (one, other) {
        (ValType::I32, ValType::I32) => true,
        (ValType::I64, ValType::I64) => true,
        (ValType::F32, ValType::F32) => true,
        (ValType::F64, ValType::F64) => true,
        (ValType::V128, ValType::V128) => true,
        (ValType::Ref(one), ValType::Ref(other)) => {
            one.nullable == other.nullable && is_same_heap(one.heap_type, other.heap_type)
        }
        _ => false,
    }
}

/// Whether the heap types are the same.
fn is_same_heap(one: HeapType, other: HeapType) -> bool
    ensures { result ≡ same_heap (heap_view one) (heap_view other) }
{
    match (one, other) {
        (HeapType::Abstract(one), HeapType::Abstract(other)) => one as u8 == other as u8,
        (HeapType::Concrete(one), HeapType::Concrete(other)) => one == other,
        _ => false,
    }
}
