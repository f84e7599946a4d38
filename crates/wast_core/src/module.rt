//! Modules.
ghost use Rattle.std.specs.Prelude.{◌≡◌, ℕ, map, is_some, not};
ghost use Rattle.wast_grammar.specs.Tokens.{Name};
ghost use Rattle.wast_parser.specs.Lawful.{Lawful};
ghost use Rattle.wast_parser.specs.State.{ahead, Keeps};
ghost use Rattle.wast_parser.specs.Reading.{Gives};
ghost use Rattle.wast_module_fields.specs.FieldTree as spec;
ghost use Rattle.wast_module_fields.specs.FieldTree.{one_start};
ghost use Rattle.wast_core.specs.ModuleSyntax.{fields, content, module_form};
ghost use Rattle.wast_module_fields.specs.ModuleFieldViews.{field_tree};
ghost use Rattle.wast_core.specs.ModuleViews.{content_tree, module_tree};

use crate::keyword;
use std::mem;
use wasm_encoder_base::Bytes;
use wast_imports::Head;
use wast_lexer::Span;
use wast_module_fields::ModuleField;
use wast_parser::{
    Error, Id, Keyword, LParen, Meaning, NameAnnotation, Parse, Parser, closed_or, list_of,
};

/// A module (6.6, modules): `(module $m ..)`.
pub struct Module<'a> {
    /// Where the word `module` stands.
    pub span: Span,
    pub id: Option<Id<'a>>,
    /// The name that an annotation gives it.
    pub name: Option<NameAnnotation<'a>>,
    pub kind: ModuleKind<'a>,
    /// What a resolver refused the module with; none where it is read.
    pub refusal: Option<Error>,
}

// By hand, so that what drops one is proved here once, and not in each crate that holds one.
impl Drop for Module<'_> {
    fn drop(self) {
        let Module {
            span: _,
            id,
            name,
            kind,
            refusal,
        } = self;
        mem::drop(id);
        mem::drop(name);
        mem::drop(kind);
        mem::drop(refusal);
    }
}

/// What a module holds.
#[derive(Drop)]
pub enum ModuleKind<'a> {
    /// Fields, among which is one start function at most where they are read.
    Text(Vec<ModuleField<'a>>),
    /// `(module binary "\00asm" ..)`: the bytes of each string.
    Binary(Vec<Bytes<'a>>),
}

impl<'a> Meaning for Module<'a> {
    ghost Tree = { spec.Module Name ℕ };

    ghost tree = { module_tree };

    ghost syntax = { module_form };

    fn lawful()
        ensures { Lawful (module_form {N = Name} {P = ℕ}) }
    {}
}

impl<'a> Parse<'a> for Module<'a> {
    fn parse(parser: &mut Parser<'a>) -> Result<Self, Error> {
        LParen::parse(parser)?;
        let span = parser.word("module")?;
        let head = Head::parse(parser)?;
        let kind = parse_content(parser)?;
        let expected = expected_behind(&kind);
        let (head, kind) = closed_or(parser, (head, kind), expected)?;
        Ok(Module {
            span,
            id: head.id,
            name: head.name,
            kind,
            refusal: None,
        })
    }
}

/// What is said where neither more of a module nor its end is read.
fn expected_behind(kind: &ModuleKind<'_>) -> &'static str {
    match kind {
        ModuleKind::Text(_) => "expected a field of a module or `)`",
        ModuleKind::Binary(_) => "expected a string or `)`",
    }
}

/// Reads what stands behind the name of a module.
fn parse_content<'a>(parser: &mut Parser<'a>) -> Result<ModuleKind<'a>, Error>
    ensures read { Gives content_tree result parser.new (content.reads (ahead parser.old)) }
    ensures keeps { Keeps parser.old parser.new }
{
    if parser.peek::<Keyword<keyword::Binary>>()? {
        parser.word("binary")?;
        let pieces = list_of(parser)?;
        Ok(ModuleKind::Binary(pieces))
    } else {
        let fields = parse_fields(parser)?;
        Ok(ModuleKind::Text(fields))
    }
}

/// Reads fields, as many as there are. Refused where two of them are start functions, with an error at the second (no clause sees the place).
fn parse_fields<'a>(parser: &mut Parser<'a>) -> Result<Vec<ModuleField<'a>>, Error>
    ensures read { Gives (λ fs. map field_tree fs.items) result parser.new (fields.reads (ahead parser.old)) }
    ensures keeps { Keeps parser.old parser.new }
{
    let fields = list_of(parser)?;
    match second_start(&fields) {
        Some(span) => Err(parser.error_at(span, "a module has one start function at most")),
        None => Ok(fields),
    }
}

/// Where a second start function stands, if there is one (no clause sees the place).
pub(crate) fn second_start(fields: &[ModuleField<'_>]) -> Option<Span>
    ensures { is_some result ≡ not (one_start (map field_tree fields.now)) }
{
    let mut found = false;
    for field in fields {
        if let ModuleField::Start(start) = field {
            if found {
                return Some(start.span);
            }
            found = true;
        }
    }
    None
}
