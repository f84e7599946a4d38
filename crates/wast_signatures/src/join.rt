//! Lists in parts.
ghost use Rattle.std.specs.Prelude.{◌≡◌, ◌++◌, IfOk, OnOk, vec_len};
ghost use Rattle.std.specs.List.{flat_map};

use crate::group::Grouped;
use std::alloc::{AllocError, Global};

/// What a group holds of a list.
#[derive(Drop)]
pub struct Several<T> {
    pub items: Vec<T>,
}

/// The items of groups, one after the other. Fails only for want of memory.
pub fn join<N: Drop, T: Drop>(
    alloc: Global,
    groups: Vec<Grouped<N, Several<T>>>,
) -> Result<Vec<T>, AllocError>
    ensures { IfOk result (λ all. all.items ≡ flat_map (λ g. g.value.items.items) groups.items) }
{
    if groups.len() == 1 {
        return Ok(only(alloc, groups));
    }
    let mut all = Vec::new(alloc);
    for group in groups {
        append(&mut all, group.value.items)?;
    }
    all.shrink_to_fit();
    Ok(all)
}

/// The items of the only group.
fn only<N: Drop, T: Drop>(alloc: Global, groups: Vec<Grouped<N, Several<T>>>) -> Vec<T>
    requires { vec_len groups ≡ 1 }
    ensures { result.items ≡ flat_map (λ g. g.value.items.items) groups.items }
{
    let mut groups = groups;
    match groups.pop() {
        Some(group) => {
            let mut items = group.value.items;
            items.shrink_to_fit();
            items
        }
        None => Vec::new(alloc),
    }
}

/// Adds items at the end.
fn append<T: Drop>(all: &mut Vec<T>, items: Vec<T>) -> Result<(), AllocError>
    ensures { OnOk result (all.new.items ≡ all.old.items ++ items.items) }
{
    for item in items {
        all.push(item)?;
    }
    Ok(())
}
