//! Reference types.
ghost use Rattle.std.specs.Prelude.{◌≡◌, ℕ, Some, true, IfOk, IfSome, option_map, refl, IsOk};
ghost use Rattle.wast_words.specs.Tokens.{Name};
ghost use Rattle.wasm_encoder_base.specs.Types.{FuncHeap, ExternHeap, AnyHeap, EqHeap, I31Heap, StructHeap, ArrayHeap, ExnHeap, NoFuncHeap, NoExternHeap, NoneHeap, NoExnHeap};
ghost use Rattle.wast_words.specs.Look.{ask};
ghost use Rattle.wast_words.specs.Lawful.{Lawful, Leads};
ghost use Rattle.wast_words.specs.State.{ahead};
ghost use Rattle.wast_words.specs.Reading.{Asks};
ghost use Rattle.wast_words.specs.Cursors.{stands};
ghost use Rattle.wast_value_types.specs.ValueTree.{HeapWord, Known, Cont, NoCont, shared_form};
ghost use Rattle.wast_value_types.specs.ValueTree as spec;
ghost use Rattle.wast_value_types.specs.ValueSyntax.{short_words, nullable, ref_body, ref_type, ref_starts};
ghost use Rattle.wast_value_types.specs.ValueViews.{heap_word, short_text, ref_tree};
ghost use Rattle.wast_value_types.specs.Nameless.{heap_nameless};

use crate::heap_type::{AbstractHeapType, HeapType};
use crate::keyword::{Null, Ref};
use std::alloc::{AllocError, Global};
use wast_words::{
    Cursor, Error, Group, Item, Meaning, Parse, Parser, Peek, Word, Words, Written, find, group_of,
    optional, or_peek,
};

/// A reference type (6.4.3). Indices are the same wherever they stand; equal reference types hash alike.
#[derive(Drop)]
#[derive_where(PartialEq, Eq, Hash)]
pub struct RefType<'a> {
    pub nullable: bool,
    pub heap: HeapType<'a>,
}

impl<'a> RefType<'a> {
    /// `funcref`
    pub fn func() -> Self
        ensures { ref_tree result ≡ nullable (Known FuncHeap) }
    {
        RefType::nullable(AbstractHeapType::Func)
    }

    /// `externref`
    pub fn extern_() -> Self
        ensures { ref_tree result ≡ nullable (Known ExternHeap) }
    {
        RefType::nullable(AbstractHeapType::Extern)
    }

    /// `exnref`
    pub fn exn() -> Self
        ensures { ref_tree result ≡ nullable (Known ExnHeap) }
    {
        RefType::nullable(AbstractHeapType::Exn)
    }

    /// `contref`
    pub fn cont() -> Self
        ensures { ref_tree result ≡ nullable Cont }
    {
        RefType::nullable(AbstractHeapType::Cont)
    }

    /// `anyref`
    pub fn any() -> Self
        ensures { ref_tree result ≡ nullable (Known AnyHeap) }
    {
        RefType::nullable(AbstractHeapType::Any)
    }

    /// `eqref`
    pub fn eq() -> Self
        ensures { ref_tree result ≡ nullable (Known EqHeap) }
    {
        RefType::nullable(AbstractHeapType::Eq)
    }

    /// `structref`
    pub fn struct_() -> Self
        ensures { ref_tree result ≡ nullable (Known StructHeap) }
    {
        RefType::nullable(AbstractHeapType::Struct)
    }

    /// `arrayref`
    pub fn array() -> Self
        ensures { ref_tree result ≡ nullable (Known ArrayHeap) }
    {
        RefType::nullable(AbstractHeapType::Array)
    }

    /// `i31ref`
    pub fn i31() -> Self
        ensures { ref_tree result ≡ nullable (Known I31Heap) }
    {
        RefType::nullable(AbstractHeapType::I31)
    }

    /// `nullfuncref`
    pub fn nullfuncref() -> Self
        ensures { ref_tree result ≡ nullable (Known NoFuncHeap) }
    {
        RefType::nullable(AbstractHeapType::NoFunc)
    }

    /// `nullexternref`
    pub fn nullexternref() -> Self
        ensures { ref_tree result ≡ nullable (Known NoExternHeap) }
    {
        RefType::nullable(AbstractHeapType::NoExtern)
    }

    /// `nullref`
    pub fn nullref() -> Self
        ensures { ref_tree result ≡ nullable (Known NoneHeap) }
    {
        RefType::nullable(AbstractHeapType::None)
    }

    /// `nullexnref`
    pub fn nullexnref() -> Self
        ensures { ref_tree result ≡ nullable (Known NoExnHeap) }
    {
        RefType::nullable(AbstractHeapType::NoExn)
    }

    /// `nullcontref`
    pub fn nullcontref() -> Self
        ensures { ref_tree result ≡ nullable NoCont }
    {
        RefType::nullable(AbstractHeapType::NoCont)
    }

    /// The nullable reference type of an abstract heap type, which is not shared.
    fn nullable(ty: AbstractHeapType) -> Self
        ensures { ref_tree result ≡ nullable (heap_word ty) }
    {
        RefType {
            nullable: true,
            heap: HeapType::Abstract { shared: false, ty },
        }
    }

    /// The same type with a shared heap type, nullable as before; none where the heap type is no abstract one. Of a shared
    /// one it is that one.
    pub fn shared(self) -> Option<Self>
        ensures shared { option_map ref_tree result ≡ shared_form (ref_tree self.entry) }
        ensures again { IfSome result (λ r. shared_form (ref_tree r) ≡ Some (ref_tree r)) }
    {
        match self.heap {
            HeapType::Abstract { ty, .. } => Some(RefType {
                nullable: self.nullable,
                heap: HeapType::Abstract { shared: true, ty },
            }),
            _ => None,
        }
    }

    /// The same reference type at the same place. Fails only for want of memory, of which one without a name needs none.
    pub fn clone(&self, alloc: Global) -> Result<Self, AllocError>
        ensures same { IfOk result (λ copy. copy ≡ self.now) }
        ensures plain { heap_nameless self.now.heap ≡ true → IsOk result }
    {
        Ok(RefType {
            nullable: self.nullable,
            heap: self.heap.clone(alloc)?,
        })
    }
}

impl<'a> Meaning for RefType<'a> {
    ghost Tree = { spec.RefType Name ℕ };

    ghost tree = { ref_tree };

    ghost syntax = { ref_type };

    fn lawful()
        ensures { Lawful (ref_type {N = Name} {P = ℕ}) }
    {}
}

impl<'a> Parse<'a> for RefType<'a> {
    fn parse(parser: &mut Parser<'a>) -> Result<Self, Error> {
        if parser.peek::<Group<Ref>>()? {
            let body: RefBody = group_of(parser, "ref")?;
            Ok(body.ref_type)
        } else {
            let short: Word<ShortForm> = parser.parse()?;
            Ok(RefType::nullable(short.value.0))
        }
    }
}

impl<'a> Peek for RefType<'a> {
    ghost plain = { refl };

    ghost sure = { refl };

    fn leads()
        ensures { Leads (ref_type {N = Name} {P = ℕ}).spells ref_starts }
    {}

    fn peek(cursor: Cursor<'_, '_>) -> Result<bool, Error>
        ensures { Asks result (stands cursor.entry).source (ask ref_starts (ahead (stands cursor.entry))) }
    {
        or_peek::<Word<ShortForm>>(cursor.peek_group("ref"), cursor)
    }

    fn display() -> &'static str {
        "a reference type"
    }
}

impl<'a> Item for RefType<'a> {
    ghost inside = { refl };
}

/// What stands behind the word of `(ref ..)`.
#[derive(Drop)]
struct RefBody<'a> {
    ref_type: RefType<'a>,
}

impl<'a> Meaning for RefBody<'a> {
    ghost Tree = { spec.RefType Name ℕ };

    ghost tree = { λ b. ref_tree b.ref_type };

    ghost syntax = { ref_body };

    fn lawful()
        ensures { Lawful (ref_body {N = Name} {P = ℕ}) }
    {}
}

impl<'a> Parse<'a> for RefBody<'a> {
    fn parse(parser: &mut Parser<'a>) -> Result<Self, Error> {
        let nullable = optional::<Null>(parser)?;
        let heap = HeapType::parse(parser)?;
        Ok(RefBody {
            ref_type: RefType { nullable, heap },
        })
    }
}

/// The abbreviation of the nullable reference type of an abstract heap type.
#[derive(Clone, Copy)]
struct ShortForm(AbstractHeapType);

/// The abbreviations in the order of their keywords.
const SHORT_FORMS: [ShortForm; 14] = [
    ShortForm(AbstractHeapType::Func),
    ShortForm(AbstractHeapType::Extern),
    ShortForm(AbstractHeapType::Exn),
    ShortForm(AbstractHeapType::Cont),
    ShortForm(AbstractHeapType::Any),
    ShortForm(AbstractHeapType::Eq),
    ShortForm(AbstractHeapType::Struct),
    ShortForm(AbstractHeapType::Array),
    ShortForm(AbstractHeapType::I31),
    ShortForm(AbstractHeapType::NoFunc),
    ShortForm(AbstractHeapType::NoExtern),
    ShortForm(AbstractHeapType::None),
    ShortForm(AbstractHeapType::NoExn),
    ShortForm(AbstractHeapType::NoCont),
];

impl Written for ShortForm {
    ghost Tree = { HeapWord };

    ghost entry = { λ s. (short_text s.0, heap_word s.0) };

    ghost entries = { short_words };

    fn text(self) -> &'static str {
        match self.0 {
            AbstractHeapType::Func => "funcref",
            AbstractHeapType::Extern => "externref",
            AbstractHeapType::Exn => "exnref",
            AbstractHeapType::Cont => "contref",
            AbstractHeapType::Any => "anyref",
            AbstractHeapType::Eq => "eqref",
            AbstractHeapType::Struct => "structref",
            AbstractHeapType::Array => "arrayref",
            AbstractHeapType::I31 => "i31ref",
            AbstractHeapType::NoFunc => "nullfuncref",
            AbstractHeapType::NoExtern => "nullexternref",
            AbstractHeapType::None => "nullref",
            AbstractHeapType::NoExn => "nullexnref",
            AbstractHeapType::NoCont => "nullcontref",
        }
    }
}

impl Words for ShortForm {
    const NAME: &'static str = "a reference type";

    const EXPECTED: &'static str = "expected a reference type";

    fn of(text: &[u8]) -> Option<Self> {
        find(&SHORT_FORMS, text)
    }
}
