//! A name space by its calls.

use crate::text::failed;
use std::alloc::Global;
use std::test::Fail;
use wast_names::{Namespace, resolve_error};
use wast_parser::{Error, Gensym, Id, Index, Span};

#[test]
fn ample_register(rt: HostRuntime) -> Result<(), Fail> {
    let mut names = Namespace::new(rt.alloc());
    assert_eq!(rt; names.register(id("a", 14), "func").map_err(failed)?, 0);
    let refused = names.register(id("a", 24), "func");
    assert_eq!(rt;
        said(rt.alloc(), refused.err())?.as_str(),
        "duplicate func identifier at byte offset 24"
    );
    assert_eq!(rt; names.register(None, "func").map_err(failed)?, 1);
    assert_eq!(rt; names.get(&Id::new("a", Span::from_offset(0))), Some(0));
    Ok(())
}

#[test]
fn ample_register_segments(rt: HostRuntime) -> Result<(), Fail> {
    let mut names = Namespace::new(rt.alloc());
    names.register(id("d", 1), "data").map_err(failed)?;
    assert_eq!(rt; names.register(id("d", 2), "data").map_err(failed)?, 1);
    assert_eq!(rt; names.get(&Id::new("d", Span::from_offset(0))), Some(1));
    Ok(())
}

#[test]
fn ample_register_specific(rt: HostRuntime) -> Result<(), Fail> {
    let mut names = Namespace::new(rt.alloc());
    names
        .register_specific(Id::new("a", Span::from_offset(1)), 7, "data")
        .map_err(failed)?;
    let refused = names.register_specific(Id::new("a", Span::from_offset(2)), 8, "data");
    assert_eq!(rt;
        said(rt.alloc(), refused.err())?.as_str(),
        "duplicate data identifier at byte offset 2"
    );
    assert_eq!(rt; names.get(&Id::new("a", Span::from_offset(0))), Some(7));
    assert_eq!(rt; names.alloc(), 0);
    assert_eq!(rt; names.count(), 1);
    Ok(())
}

#[test]
fn ample_of(rt: HostRuntime) -> Result<(), Fail> {
    let mut items = Vec::new(rt.alloc());
    items.push(None)?;
    items.push(id("a", 1))?;
    let names = Namespace::of(rt.alloc(), &items, "local").map_err(failed)?;
    assert_eq!(rt; names.count(), 2);
    items.push(id("a", 5))?;
    let refused = Namespace::of(rt.alloc(), &items, "local");
    assert_eq!(rt;
        said(rt.alloc(), refused.err())?.as_str(),
        "duplicate local identifier at byte offset 5"
    );
    Ok(())
}

#[test]
fn ample_resolve(rt: HostRuntime) -> Result<(), Fail> {
    let mut names = Namespace::new(rt.alloc());
    names.register(id("f", 14), "func").map_err(failed)?;
    let mut index = Index::Id(Id::new("f", Span::from_offset(30)));
    assert_eq!(rt; names.resolve(&mut index, "func").map_err(failed)?, 0);
    assert!(rt; index == Index::Num(0, Span::from_offset(0)));
    assert_eq!(rt; index.span().offset(), 30);
    let mut index = Index::Num(9, Span::from_offset(2));
    assert_eq!(rt; names.resolve(&mut index, "func").map_err(failed)?, 9);
    Ok(())
}

#[test]
fn ample_unknown(rt: HostRuntime) -> Result<(), Fail> {
    let names = Namespace::new(rt.alloc());
    let mut index = Index::Id(Id::new("x", Span::from_offset(20)));
    assert_eq!(rt; names.try_resolve(&mut index), None);
    let refused = names.resolve(&mut index, "func");
    assert_eq!(rt;
        said(rt.alloc(), refused.err())?.as_str(),
        "unknown func: failed to find name `$x` at byte offset 20"
    );
    assert!(rt; index == Index::Id(Id::new("x", Span::from_offset(20))));
    Ok(())
}

#[test]
fn ample_resolve_error(rt: HostRuntime) -> Result<(), Fail> {
    let made = Gensym::new().generate(Span::from_offset(3)).unwrap();
    let error = resolve_error(rt.alloc(), &made, "type");
    assert_eq!(rt;
        said(rt.alloc(), Some(error))?.as_str(),
        "unknown type: failed to find name `$gensym` at byte offset 3"
    );
    Ok(())
}

#[test]
fn made_names_are_their_own(rt: HostRuntime) -> Result<(), Fail> {
    let mut names = Namespace::new(rt.alloc());
    let made = Gensym::new().generate(Span::from_offset(1)).unwrap();
    names.register(id("gensym", 1), "func").map_err(failed)?;
    assert_eq!(rt; names.number_of(&Index::Id(made)), None);
    Ok(())
}

#[test]
fn refused_growths_of_a_name_space(rt: HostRuntime) -> Result<(), Fail> {
    let mut names = Namespace::new(rt.alloc());
    if let Err(error) = names.register(id("a", 1), "func") {
        assert!(rt; error.is_memory() && names.count() == 0);
        assert_eq!(rt; names.get(&Id::new("a", Span::from_offset(1))), None);
        return Err("out of memory".into());
    }
    Ok(())
}

fn id<'a>(name: &'a str, offset: usize) -> Option<Id<'a>> {
    Some(Id::new(name, Span::from_offset(offset)))
}

fn said(alloc: Global, error: Option<Error>) -> Result<String, Fail> {
    match error {
        Some(error) => Ok(format!(in alloc; "{error}")?),
        None => Ok(String::new(alloc)),
    }
}
