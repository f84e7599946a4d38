//! The types that uses take.
ghost use Rattle.std.specs.Prelude.{◌≡◌, IfOk, option_map, unwrap_or};
ghost use Rattle.wast_parser.specs.Identifiers.{ByNumber, index_tree};
ghost use Rattle.wast_signatures.specs.SignatureViews.{sig_tree};
ghost use Rattle.wast_meaning.specs.Implied.{no_sig};
ghost use Rattle.wast_implied.specs.Views.{known};
ghost use Rattle.wast_changed.specs.Rewritten.{everywhere};
ghost use Rattle.wast_expanded.specs.Expanding.{taken, taking_of};

use std::alloc::{AllocError, Global};
use wast_changed::{Changing, Rewriting};
use wast_changed_fields::change_expression;
use wast_implied::{Implied, is_short};
use wast_meaning::Space;
use wast_module_fields::{Expression, FunctionType, Local, TypeUse};
use wast_parser::{Index, Span};

/// What becomes of the indices in a field: a type use without one takes the number of its type. All others stay.
#[derive(Drop)]
pub(crate) struct Taking<'t, 'a> {
    /// The types of the module.
    pub(crate) implied: &'t Implied<'a>,
    /// Where the keyword of the field stands.
    pub(crate) place: Span,
}

impl<'t, 'a> Taking<'t, 'a> {
    /// The number of the type that a use without an index takes, at the place of the field.
    fn index_taken(
        &self,
        inline: Option<&FunctionType<'a>>,
    ) -> Result<Option<Index<'a>>, AllocError>
        ensures { IfOk result (λ new. option_map index_tree new ≡ option_map (λ n. ByNumber n self.now.place) (taken (known self.now.implied.now) (unwrap_or (option_map (λ s. sig_tree s.now) inline.entry) no_sig))) }
    {
        match self.implied.number_of(inline)? {
            Some(number) => Ok(Some(Index::Num(number, self.place))),
            None => Ok(None),
        }
    }
}

impl<'t, 'a> Changing<'a> for Taking<'t, 'a> {
    ghost change = { taking_of };

    fn index(&self, _space: Space, _index: &mut Index<'a>) {}

    fn member(&self, _owner: &Index<'a>, _field: &mut Index<'a>) {}

    fn type_use(
        &self,
        index: &mut Option<Index<'a>>,
        inline: Option<&FunctionType<'a>>,
    ) -> Result<(), AllocError> {
        if index.is_none() {
            *index = self.index_taken(inline)?;
        }
        Ok(())
    }

    fn block_use(
        &self,
        index: &mut Option<Index<'a>>,
        inline: Option<&FunctionType<'a>>,
    ) -> Result<(), AllocError> {
        match inline {
            Some(signature) if !is_short(signature) => self.type_use(index, inline),
            _ => Ok(()),
        }
    }
}

impl<'t, 'a> Rewriting<'a> for Taking<'t, 'a> {
    ghost in_constant = { λ t. everywhere (taking_of t) };

    ghost in_function = { λ t f. everywhere (taking_of t) };

    fn constant(&self, _alloc: Global, expression: &mut Expression<'a>) -> Result<(), AllocError> {
        change_expression(self, expression)
    }

    fn body(
        &self,
        _alloc: Global,
        _ty: &TypeUse<'a, FunctionType<'a>>,
        _locals: &[Local<'a>],
        body: &mut Expression<'a>,
    ) -> Result<(), AllocError> {
        change_expression(self, body)
    }
}
