//! Identifiers.

ghost use Rattle.std.proofs.Common.{rules};
ghost use Rattle.std.specs.Cmp.{partial_order_from_own_ties};
ghost use Rattle.std.specs.Cmp.Rules.{comparing, hashing};
ghost use Rattle.std.specs.Ordering.{as_partial_cmp};
ghost use Rattle.std.specs.Cow.{cow_str_bytes, IsOwnedStr};
ghost use Rattle.std.specs.Prelude.{◌≡◌, IfOk, IsOk};
ghost use Rattle.wast_parser_base.specs.Identifier.{is_made, made_name, read_name};

use std::alloc::{AllocError, Global};
use std::borrow::CowStr;
use std::cmp::Ordering;
use std::fmt;
use std::hash::{Hash, Hasher};
use std::marker::Model;
use wast_lexer::Span;

/// An identifier (6.3.5), or a name made in place of one. Contracts see an `Identifier` of `specs/`: the decoded name, the
/// generation and the byte offset of the place.
///
/// Two are equal exactly where their names are and their generations, wherever they stand; equal ones hash alike. They are ordered
/// by their generations, and then by their names, byte by byte.
#[derive(Drop)]
pub struct Id<'a> {
    name: Name<'a>,
    span: Span,
}

/// The name of an identifier. Few are decoded: theirs stands in a box, so that the others take no room for it.
#[derive(Drop)]
pub(crate) enum Name<'a> {
    Read(&'a str),
    Decoded(Box<String>),
    Made(u32),
}

impl<'a> Model for Id<'a> {
    ghost use Rattle.wast_parser_base.specs.Identifier.{Identifier};
    ghost use Rattle.wast_parser_base.specs.Names.{name_text, name_generation};

    ghost Value = { Identifier };

    ghost view = { λ x. record { name = name_text x.name; generation = name_generation x.name; place = x.span } };
}

impl<'a> Id<'a> {
    /// The identifier with this name, without its `$`, at a place. Its generation is 0.
    pub fn new(name: &'a str, span: Span) -> Self
        ensures { result ≡ read_name name.entry.now span }
    {
        Id {
            name: Name::Read(name),
            span,
        }
    }

    /// The same for a name that may own its memory, as one that is written as a string with escapes. Such a name is put into a box,
    /// so this fails only for want of memory, of which one that is borrowed needs none.
    pub fn decoded(alloc: Global, name: CowStr<'a, Global>, span: Span) -> Result<Self, AllocError>
        ensures same { IfOk result (λ id. id ≡ read_name (cow_str_bytes name.entry) span) }
        ensures borrowed { (IsOwnedStr name.entry → ⊥) → IsOk result }
    {
        match name {
            CowStr::Borrowed(name) => Ok(Id::new(name, span)),
            CowStr::Owned(name) => Ok(Id {
                name: Name::Decoded(Box::new(alloc, name)?),
                span,
            }),
        }
    }

    /// The name that is made with this number, at a place.
    pub(crate) fn made(generation: u32, span: Span) -> Self
        ensures { result ≡ made_name generation span }
    {
        Id {
            name: Name::Made(generation),
            span,
        }
    }

    /// The decoded name, without the `$`.
    pub fn name(&self) -> &str
        ensures { result.now ≡ self.now.name }
    {
        match &self.name {
            Name::Read(name) => *name,
            Name::Decoded(name) => name.as_str(),
            Name::Made(_) => "gensym",
        }
    }

    /// Whether it was made in place of one, and not read.
    pub fn is_made(&self) -> bool
        ensures { result ≡ is_made self.now }
    {
        self.generation() != 0
    }

    /// 0 of an identifier that was read, a number of its own of one that was made.
    fn generation(&self) -> u32
        ensures { result ≡ self.now.generation }
    {
        match &self.name {
            Name::Made(generation) => *generation,
            _ => 0,
        }
    }

    /// Where the identifier stands.
    pub fn span(&self) -> Span
        ensures { result ≡ self.now.place }
    {
        self.span
    }

    /// The same identifier at the same place. Fails only for want of memory, of which one that was made needs none.
    pub fn clone(&self, alloc: Global) -> Result<Self, AllocError>
        ensures same { IfOk result (λ copy. copy ≡ self.now) }
        ensures made { (self.now.generation ≡ 0 → ⊥) → IsOk result }
    {
        let name = match &self.name {
            Name::Read(name) => Name::Read(*name),
            Name::Decoded(name) => {
                let copy = String::from_str(alloc, name.as_str())?;
                Name::Decoded(Box::new(alloc, copy)?)
            }
            Name::Made(generation) => Name::Made(*generation),
        };
        Ok(Id {
            name,
            span: self.span,
        })
    }
}

impl<'a> PartialEq for Id<'a> {
    ghost use Rattle.wast_parser_base.specs.Identifier.{is_same};

    ghost eq = { is_same };

    ghost laws = { Prim.search (comparing, rules) };

    fn eq(&self, other: &Self) -> bool {
        self.generation() == other.generation() && self.name() == other.name()
    }
}

impl<'a> Eq for Id<'a> {
    ghost use Rattle.wast_parser_base.specs.Identifier.{is_same};

    ghost laws = { Prim.search (comparing, rules) };
}

impl<'a> Ord for Id<'a> {
    ghost use Rattle.wast_parser_base.specs.Identifier.{compare};

    ghost cmp = { compare };

    ghost total = { Prim.search (comparing, rules) };

    ghost matches_partial_cmp = { Prim.search (comparing, rules) };

    ghost matches_eq = { Prim.search (comparing, rules) };

    fn cmp(&self, other: &Self) -> Ordering {
        self.generation()
            .cmp(&other.generation())
            .then(self.name().cmp(other.name()))
    }
}

impl<'a> PartialOrd for Id<'a> {
    ghost use Rattle.wast_parser_base.specs.Identifier.{compare};

    ghost partial_cmp = { as_partial_cmp compare };

    ghost laws = { partial_order_from_own_ties (Prim.search (comparing, rules)) (Prim.search (comparing, rules)) };

    fn partial_cmp(&self, other: &Self) -> Option<Ordering> {
        Some(self.cmp(other))
    }
}

impl<'a> Hash for Id<'a> {
    ghost use Rattle.wast_parser_base.specs.Identifier.{hash_input, is_same};

    ghost hash_input = { hash_input };

    ghost respects_eq = { Prim.search (hashing, rules) };

    fn hash<H: Hasher>(&self, state: &mut H) {
        self.generation().hash(state);
        self.name().hash(state);
    }
}

impl<'a> fmt::Debug for Id<'a> {
    fn fmt<W: fmt::Write>(&self, f: &mut fmt::Formatter<W>) -> fmt::Result {
        let name = self.name();
        let generation = self.generation();
        if generation == 0 {
            write!(f, "${name}")
        } else {
            write!(f, "${name}#{generation}")
        }
    }
}
