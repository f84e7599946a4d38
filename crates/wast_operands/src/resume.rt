//! Operands of instructions on continuations.
ghost use Rattle.std.specs.Prelude.{ℕ, List, Option, option_map, codes, refl};
ghost use Rattle.wast_vector_operands.specs.Tokens.{Name};
ghost use Rattle.wast_vector_operands.specs.Grammar.{led};
ghost use Rattle.wast_vector_operands.specs.Look.{ask};
ghost use Rattle.wast_vector_operands.specs.Lawful.{Lawful, Leads};
ghost use Rattle.wast_vector_operands.specs.State.{ahead, Keeps};
ghost use Rattle.wast_vector_operands.specs.Reading.{Asks, Gives};
ghost use Rattle.wast_vector_operands.specs.Cursors.{stands};
ghost use Rattle.wast_vector_operands.specs.Identifiers.{Reference, index_tree};
ghost use Rattle.wast_operands.specs.OperandTree as spec;
ghost use Rattle.wast_operands.specs.OperandSyntax.{two_indices, handled, handle_body, handle, handle_starts, handlers, resume, resume_throw};
ghost use Rattle.wast_operands.specs.OperandViews.{handle_tree, handlers_tree, resume_tree, resume_throw_tree, resume_throw_ref_tree, switch_tree, cont_bind_tree};

use wast_vector_operands::{
    Cursor, Error, Index, Item, Meaning, Parse, Parser, Peek, list_of, pair,
};

/// What handles a tag of a continuation that is resumed.
#[derive(Drop)]
pub enum Handle<'a> {
    /// `(on tag label)`
    OnLabel { tag: Index<'a>, label: Index<'a> },
    /// `(on tag switch)`
    OnSwitch { tag: Index<'a> },
}

impl<'a> Meaning for Handle<'a> {
    ghost Tree = { spec.Handle Name ℕ };

    ghost tree = { handle_tree };

    ghost syntax = { handle };

    fn lawful()
        ensures { Lawful (handle {N = Name} {P = ℕ}) }
    {}
}

impl<'a> Parse<'a> for Handle<'a> {
    fn parse(parser: &mut Parser<'a>) -> Result<Self, Error> {
        let body: HandleBody = parser.parens_of()?;
        Ok(body.handle)
    }
}

impl<'a> Peek for Handle<'a> {
    ghost plain = { refl };

    ghost sure = { refl };

    fn leads()
        ensures { Leads (handle {N = Name} {P = ℕ}).spells handle_starts }
    {}

    fn peek(cursor: Cursor<'_, '_>) -> Result<bool, Error>
        ensures { Asks result (stands cursor.entry).source (ask handle_starts (ahead (stands cursor.entry))) }
    {
        cursor.peek_group("on")
    }

    fn display() -> &'static str {
        "a handler"
    }
}

impl<'a> Item for Handle<'a> {
    ghost inside = { refl };
}

/// What stands between the parentheses of a handler.
#[derive(Drop)]
struct HandleBody<'a> {
    handle: Handle<'a>,
}

impl<'a> Meaning for HandleBody<'a> {
    ghost Tree = { spec.Handle Name ℕ };

    ghost tree = { λ b. handle_tree b.handle };

    ghost syntax = { led (codes "on") handle_body };

    fn lawful()
        ensures { Lawful (led {N = Name} {P = ℕ} (codes "on") handle_body) }
    {}
}

impl<'a> Parse<'a> for HandleBody<'a> {
    fn parse(parser: &mut Parser<'a>) -> Result<Self, Error> {
        parser.word("on")?;
        let tag = Index::parse(parser)?;
        match label(parser)? {
            Some(label) => Ok(HandleBody {
                handle: Handle::OnLabel { tag, label },
            }),
            None => Ok(HandleBody {
                handle: Handle::OnSwitch { tag },
            }),
        }
    }
}

/// A label, or the word `switch`.
fn label<'a>(parser: &mut Parser<'a>) -> Result<Option<Index<'a>>, Error>
    ensures read { Gives (option_map index_tree) result parser.new (handled.reads (ahead parser.old)) }
    ensures keeps { Keeps parser.old parser.new }
{
    if parser.peek::<Index>()? {
        Ok(Some(Index::parse(parser)?))
    } else {
        parser.word("switch")?;
        Ok(None)
    }
}

/// The handlers of a continuation that is resumed.
#[derive(Drop)]
pub struct ResumeTable<'a> {
    pub handlers: Vec<Handle<'a>>,
}

impl<'a> Meaning for ResumeTable<'a> {
    ghost Tree = { List (spec.Handle Name ℕ) };

    ghost tree = { handlers_tree };

    ghost syntax = { handlers };

    fn lawful()
        ensures { Lawful (handlers {N = Name} {P = ℕ}) }
    {}
}

impl<'a> Parse<'a> for ResumeTable<'a> {
    fn parse(parser: &mut Parser<'a>) -> Result<Self, Error> {
        let handlers = list_of(parser)?;
        Ok(ResumeTable { handlers })
    }
}

/// The type of the continuation that is resumed, and its handlers.
#[derive(Drop)]
pub struct Resume<'a> {
    pub type_index: Index<'a>,
    pub table: ResumeTable<'a>,
}

impl<'a> Meaning for Resume<'a> {
    ghost Tree = { Reference Name ℕ × List (spec.Handle Name ℕ) };

    ghost tree = { resume_tree };

    ghost syntax = { resume };

    fn lawful()
        ensures { Lawful (resume {N = Name} {P = ℕ}) }
    {}
}

impl<'a> Parse<'a> for Resume<'a> {
    fn parse(parser: &mut Parser<'a>) -> Result<Self, Error> {
        let (type_index, table) = pair(parser)?;
        Ok(Resume { type_index, table })
    }
}

/// The type of the continuation that is resumed, the tag that is thrown in it, and its handlers.
#[derive(Drop)]
pub struct ResumeThrow<'a> {
    pub type_index: Index<'a>,
    pub tag_index: Index<'a>,
    pub table: ResumeTable<'a>,
}

impl<'a> Meaning for ResumeThrow<'a> {
    ghost Tree = { Reference Name ℕ × (Reference Name ℕ × List (spec.Handle Name ℕ)) };

    ghost tree = { resume_throw_tree };

    ghost syntax = { resume_throw };

    fn lawful()
        ensures { Lawful (resume_throw {N = Name} {P = ℕ}) }
    {}
}

impl<'a> Parse<'a> for ResumeThrow<'a> {
    fn parse(parser: &mut Parser<'a>) -> Result<Self, Error> {
        let type_index = Index::parse(parser)?;
        let (tag_index, table) = pair(parser)?;
        Ok(ResumeThrow {
            type_index,
            tag_index,
            table,
        })
    }
}

/// The type of the continuation in which an exception is thrown, and its handlers.
#[derive(Drop)]
pub struct ResumeThrowRef<'a> {
    pub type_index: Index<'a>,
    pub table: ResumeTable<'a>,
}

impl<'a> Meaning for ResumeThrowRef<'a> {
    ghost Tree = { Reference Name ℕ × List (spec.Handle Name ℕ) };

    ghost tree = { resume_throw_ref_tree };

    ghost syntax = { resume };

    fn lawful()
        ensures { Lawful (resume {N = Name} {P = ℕ}) }
    {}
}

impl<'a> Parse<'a> for ResumeThrowRef<'a> {
    fn parse(parser: &mut Parser<'a>) -> Result<Self, Error> {
        let (type_index, table) = pair(parser)?;
        Ok(ResumeThrowRef { type_index, table })
    }
}

/// The type of the continuation that is switched to, and the tag.
#[derive(Drop)]
pub struct Switch<'a> {
    pub type_index: Index<'a>,
    pub tag_index: Index<'a>,
}

impl<'a> Meaning for Switch<'a> {
    ghost Tree = { Reference Name ℕ × Reference Name ℕ };

    ghost tree = { switch_tree };

    ghost syntax = { two_indices };

    fn lawful()
        ensures { Lawful (two_indices {N = Name} {P = ℕ}) }
    {}
}

impl<'a> Parse<'a> for Switch<'a> {
    fn parse(parser: &mut Parser<'a>) -> Result<Self, Error> {
        let (type_index, tag_index) = pair(parser)?;
        Ok(Switch {
            type_index,
            tag_index,
        })
    }
}

/// The types of a continuation before and after some of its arguments are bound.
#[derive(Drop)]
pub struct ContBind<'a> {
    pub argument_index: Index<'a>,
    pub result_index: Index<'a>,
}

impl<'a> Meaning for ContBind<'a> {
    ghost Tree = { Reference Name ℕ × Reference Name ℕ };

    ghost tree = { cont_bind_tree };

    ghost syntax = { two_indices };

    fn lawful()
        ensures { Lawful (two_indices {N = Name} {P = ℕ}) }
    {}
}

impl<'a> Parse<'a> for ContBind<'a> {
    fn parse(parser: &mut Parser<'a>) -> Result<Self, Error> {
        let (argument_index, result_index) = pair(parser)?;
        Ok(ContBind {
            argument_index,
            result_index,
        })
    }
}
