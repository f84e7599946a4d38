//! Imports.
ghost use Rattle.std.specs.Prelude.{◌≡◌, ◌<◌, ℕ, length, IfOk, map, Option, Some, None};
ghost use Rattle.std.specs.Cow.{cow_str_bytes};
ghost use Rattle.std.specs.List.{slice_get};
ghost use Rattle.wast_signatures.specs.Tokens.{Name};
ghost use Rattle.wast_signatures.specs.Lawful.{Lawful};
ghost use Rattle.wast_signatures.specs.State.{ahead, Keeps};
ghost use Rattle.wast_signatures.specs.Reading.{Gives};
ghost use Rattle.wast_imports.specs.ImportTree as spec;
ghost use Rattle.wast_imports.specs.ImportSyntax.{with_rest, import_group, import_items, imports};
ghost use Rattle.wast_imports.specs.ImportViews.{item_tree, from_of, items_tree, imports_tree, sigs_of, unique_sigs_of, with_unique_sig};
ghost use Rattle.wast_imports.specs.declared.import.ImportItems.TheVariants as items;

use crate::item::{ItemSig, parse_bare};
use crate::member::{Member, with_more};
use std::alloc::{AllocError, Global};
use std::borrow::CowStr;
use std::mem::replace;
use wast_signatures::{Error, LParen, Meaning, Parse, Parser, Span, closed, list_of};
use wast_words::required;

/// What is imported from a module (6.6, imports).
///
/// It is taken apart by [`Imports::into_parts`] alone.
pub struct Imports<'a> {
    /// Where the word `import` stands.
    pub span: Span,
    pub items: ImportItems<'a>,
}

// By hand, so that what drops one is proved here once, and not in each crate that holds one.
impl Drop for Imports<'_> {
    fn drop(self) {
        let Imports { span: _, items: _ } = self;
    }
}

impl<'a> Imports<'a> {
    /// Where they stand, and what is imported.
    pub fn into_parts(self) -> (Span, ImportItems<'a>)
        ensures { result ≡ (self.entry.span, self.entry.items) }
    {
        let Imports { span, items } = self;
        (span, items)
    }
}

/// One import, or several of one module, which is a proposal's.
#[derive(Drop)]
pub enum ImportItems<'a> {
    /// `(import "module" "name" (func))`
    Single {
        module: CowStr<'a, Global>,
        name: CowStr<'a, Global>,
        sig: ItemSig<'a>,
    },
    /// `(import "module" (item "name" (func)) (item "other" (memory 1)))`
    Group1 {
        module: CowStr<'a, Global>,
        items: Vec<ImportGroup1Item<'a>>,
    },
    /// `(import "module" (item "name") (item "other") (func))`
    Group2 {
        module: CowStr<'a, Global>,
        sig: ItemSig<'a>,
        items: Vec<ImportGroup2Item<'a>>,
    },
}

/// A name of a group, and what is imported by it.
#[derive(Drop)]
pub struct ImportGroup1Item<'a> {
    pub name: CowStr<'a, Global>,
    pub sig: ItemSig<'a>,
}

/// A name of a group in which all is alike.
#[derive(Drop)]
pub struct ImportGroup2Item<'a> {
    pub name: CowStr<'a, Global>,
}

/// The first member of a group, which says of what it is where each of them does.
#[derive(Drop)]
pub(crate) struct FirstItem<'a> {
    pub(crate) name: CowStr<'a, Global>,
    pub(crate) sig: Option<ItemSig<'a>>,
}

impl<'a> Imports<'a> {
    /// A single import.
    pub fn single(
        span: Span,
        module: CowStr<'a, Global>,
        name: CowStr<'a, Global>,
        sig: ItemSig<'a>,
    ) -> Self
        ensures span { result.span ≡ span }
        ensures items { result.items ≡ items.Single «module».entry name.entry sig.entry }
    {
        Imports {
            span,
            items: ImportItems::Single { module, name, sig },
        }
    }

    /// How many imports it is.
    pub fn num_items(&self) -> usize
        ensures { result ≡ length (sigs_of self.now.items) }
    {
        match &self.items {
            ImportItems::Single { .. } => 1,
            ImportItems::Group1 { items, .. } => items.len(),
            ImportItems::Group2 { items, .. } => items.len(),
        }
    }

    /// In how many places it says what they are of: of a group that is alike in one.
    pub fn num_unique_sigs(&self) -> usize
        ensures { result ≡ length (unique_sigs_of self.now.items) }
    {
        match &self.items {
            ImportItems::Single { .. } => 1,
            ImportItems::Group1 { items, .. } => items.len(),
            ImportItems::Group2 { .. } => 1,
        }
    }

    /// Says in one of these places anew what is imported, and answers what stood there; all else stays. Of a group that is alike
    /// this says it of each.
    pub fn replace_unique_sig(&mut self, at: usize, sig: ItemSig<'a>) -> ItemSig<'a>
        requires { at < length (unique_sigs_of self.old.items) }
        ensures replaced { slice_get (unique_sigs_of self.old.items) at ≡ Some result }
        ensures items { self.new.items ≡ with_unique_sig self.old.items at sig.entry }
        ensures span { self.new.span ≡ self.old.span }
    {
        match &mut self.items {
            ImportItems::Single { sig: place, .. } => replace(place, sig),
            ImportItems::Group1 { items, .. } => replace(&mut items[at].sig, sig),
            ImportItems::Group2 { sig: place, .. } => replace(place, sig),
        }
    }

    /// What each of them is of, in order; of a group that is alike the same for each. Fails only for want of memory.
    pub fn item_sigs(&self, alloc: Global) -> Result<Vec<&ItemSig<'a>>, AllocError>
        ensures { IfOk result (λ sigs. map (λ s. s.now) sigs.items ≡ sigs_of self.now.items) }
    {
        match &self.items {
            ImportItems::Single { sig, .. } => {
                let mut sigs = Vec::new(alloc);
                sigs.push(sig)?;
                Ok(sigs)
            }
            ImportItems::Group1 { items, .. } => sigs_of_each(alloc, items.as_slice()),
            ImportItems::Group2 { sig, items, .. } => sig_of_all(alloc, sig, items.as_slice()),
        }
    }
}

impl<'a> Meaning for Imports<'a> {
    ghost Tree = { spec.Imports Name ℕ };

    ghost tree = { imports_tree };

    ghost syntax = { imports };

    fn lawful()
        ensures { Lawful (imports {N = Name} {P = ℕ}) }
    {}
}

impl<'a> Parse<'a> for Imports<'a> {
    fn parse(parser: &mut Parser<'a>) -> Result<Self, Error> {
        LParen::parse(parser)?;
        let span = parser.word("import")?;
        let module = parser.name()?;
        let items = parse_items(parser, module)?;
        let items = closed(parser, items)?;
        Ok(Imports { span, items })
    }
}

/// Reads what is imported from a module.
fn parse_items<'a>(
    parser: &mut Parser<'a>,
    module: CowStr<'a, Global>,
) -> Result<ImportItems<'a>, Error>
    ensures read { Gives items_tree result parser.new (import_items.reads (ahead parser.old)) }
    ensures from { IfOk result (λ i. from_of i ≡ cow_str_bytes «module».entry) }
    ensures keeps { Keeps parser.old parser.new }
{
    if parser.peek::<CowStr<'a, Global>>()? {
        let name = parser.name()?;
        let sig = ItemSig::parse(parser)?;
        Ok(ImportItems::Single { module, name, sig })
    } else {
        parse_group(parser, module)
    }
}

/// Reads a group: its first member tells which it is.
fn parse_group<'a>(
    parser: &mut Parser<'a>,
    module: CowStr<'a, Global>,
) -> Result<ImportItems<'a>, Error>
    ensures read { Gives items_tree result parser.new (import_group.reads (ahead parser.old)) }
    ensures from { IfOk result (λ i. from_of i ≡ cow_str_bytes «module».entry) }
    ensures keeps { Keeps parser.old parser.new }
{
    let first: Member<FirstItem<'a>> = required(parser, "expected a string or `(item`")?;
    let FirstItem { name, sig } = first.item;
    match sig {
        Some(sig) => parse_members(parser, module, ImportGroup1Item { name, sig }),
        None => parse_names(parser, module, ImportGroup2Item { name }),
    }
}

/// Reads the members behind the first, each with its item.
fn parse_members<'a>(
    parser: &mut Parser<'a>,
    module: CowStr<'a, Global>,
    first: ImportGroup1Item<'a>,
) -> Result<ImportItems<'a>, Error>
    ensures read { Gives items_tree result parser.new ((with_rest (cow_str_bytes first.entry.name, Some (item_tree first.entry.sig))).reads (ahead parser.old)) }
    ensures from { IfOk result (λ i. from_of i ≡ cow_str_bytes «module».entry) }
    ensures keeps { Keeps parser.old parser.new }
{
    let more: Vec<Member<ImportGroup1Item<'a>>> = list_of(parser)?;
    let items = with_more(parser.alloc(), first, more)?;
    Ok(ImportItems::Group1 { module, items })
}

/// Reads the names behind the first, and the item of all.
fn parse_names<'a>(
    parser: &mut Parser<'a>,
    module: CowStr<'a, Global>,
    first: ImportGroup2Item<'a>,
) -> Result<ImportItems<'a>, Error>
    ensures read { Gives items_tree result parser.new ((with_rest (cow_str_bytes first.entry.name, None)).reads (ahead parser.old)) }
    ensures from { IfOk result (λ i. from_of i ≡ cow_str_bytes «module».entry) }
    ensures keeps { Keeps parser.old parser.new }
{
    let more: Vec<Member<ImportGroup2Item<'a>>> = list_of(parser)?;
    let items = with_more(parser.alloc(), first, more)?;
    let sig = parse_bare(parser)?;
    Ok(ImportItems::Group2 { module, sig, items })
}

/// The same for each of these.
fn sig_of_all<'b, 'a>(
    alloc: Global,
    sig: &'b ItemSig<'a>,
    items: &[ImportGroup2Item<'a>],
) -> Result<Vec<&'b ItemSig<'a>>, AllocError>
    ensures { IfOk result (λ sigs. map (λ s. s.now) sigs.items ≡ map (λ _. sig.now) items.now) }
{
    let mut sigs = Vec::new(alloc);
    for _item in items {
        sigs.push(sig)?;
    }
    Ok(sigs)
}

/// What each of these is of.
fn sigs_of_each<'b, 'a>(
    alloc: Global,
    items: &'b [ImportGroup1Item<'a>],
) -> Result<Vec<&'b ItemSig<'a>>, AllocError>
    ensures { IfOk result (λ sigs. map (λ s. s.now) sigs.items ≡ map (λ i. i.sig) items.now) }
{
    let mut sigs = Vec::new(alloc);
    for item in items {
        sigs.push(&item.sig)?;
    }
    Ok(sigs)
}
