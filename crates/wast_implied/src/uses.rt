//! The uses in fields, in their order: a field's own before those of its expressions.
ghost use Rattle.std.specs.Prelude.{◌≡◌, ◌++◌, map, option_map, option_to_list, OnOk};
ghost use Rattle.std.specs.List.{flat_map};
ghost use Rattle.wast_imports.specs.ImportViews.{extern_tree, imports_tree, member_tree};
ghost use Rattle.wast_core_instr.specs.InstructionViews.{instruction_tree};
ghost use Rattle.wast_core_instr.specs.ExpressionViews.{expression_tree};
ghost use Rattle.wast_module_fields.specs.MemoryViews.{data_tree};
ghost use Rattle.wast_module_fields.specs.FuncViews.{func_definition, global_definition, tag_definition};
ghost use Rattle.wast_module_fields.specs.ElemViews.{elem_tree, elements_tree, mode_tree, table_definition};
ghost use Rattle.wast_meaning.specs.Mentions.{Constant, data_mode_parts, defined_parts, elem_mode_parts, elements_parts, expr_mentions, extern_mentions, import_mentions, instr_mentions, part_mentions};
ghost use Rattle.wast_implied.specs.Known.{after_mentions};
ghost use Rattle.wast_implied.specs.Views.{known};

use crate::gathered::Implied;
use std::alloc::AllocError;
use wast_core_instr::{Expression, Instruction};
use wast_imports::{ImportGroup1Item, ImportItems, Imports, ItemKind, TagType};
use wast_module_fields::{
    Data, DataKind, Elem, ElemKind, ElemPayload, Func, FuncKind, Global, GlobalKind, Table,
    TableKind, Tag,
};
use wast_parser::Span;

impl<'a> Implied<'a> {
    /// Takes up the types that the uses in imports imply.
    pub(crate) fn add_imports(&mut self, imports: &Imports<'a>) -> Result<(), AllocError>
        ensures { OnOk result (known self.new ≡ after_mentions imports.now.span (known self.old) (import_mentions (imports_tree imports.now).items)) }
    {
        match &imports.items {
            ImportItems::Single { sig, .. } => self.add_item(imports.span, &sig.kind),
            ImportItems::Group1 { items, .. } => self.add_items(imports.span, items),
            ImportItems::Group2 { sig, .. } => self.add_item(imports.span, &sig.kind),
        }
    }

    /// The same of a group of imports.
    fn add_items(&mut self, span: Span, items: &[ImportGroup1Item<'a>]) -> Result<(), AllocError>
        ensures { OnOk result (known self.new ≡ after_mentions span (known self.old) (flat_map (λ i. extern_mentions i.1.extern_type) (map member_tree items.now))) }
    {
        for item in items {
            self.add_item(span, &item.sig.kind)?;
        }
        Ok(())
    }

    /// The same of what is imported.
    fn add_item(&mut self, span: Span, kind: &ItemKind<'a>) -> Result<(), AllocError>
        ensures { OnOk result (known self.new ≡ after_mentions span (known self.old) (extern_mentions (extern_tree kind.now))) }
    {
        match kind {
            ItemKind::Func(ty) => self.add_use(span, ty),
            ItemKind::FuncExact(ty) => self.add_use(span, ty),
            ItemKind::Tag(TagType::Exception(ty)) => self.add_use(span, ty),
            ItemKind::Table(_) => Ok(()),
            ItemKind::Memory(_) => Ok(()),
            ItemKind::Global(_) => Ok(()),
        }
    }

    /// The same of a function: its own use, then those of its body.
    pub(crate) fn add_func(&mut self, func: &Func<'a>) -> Result<(), AllocError>
        ensures { OnOk result (known self.new ≡ after_mentions func.now.span (known self.old) (flat_map part_mentions (defined_parts (func_definition func.now).defined))) }
    {
        self.add_use(func.span, &func.ty)?;
        match &func.kind {
            FuncKind::Import { .. } => Ok(()),
            FuncKind::Inline { expression, .. } => self.add_expression(func.span, expression),
        }
    }

    /// The same of a tag.
    #[tactic(auto, using(crate::proofs::Instructions::tag_says))]
    pub(crate) fn add_tag(&mut self, tag: &Tag<'a>) -> Result<(), AllocError>
        ensures { OnOk result (known self.new ≡ after_mentions tag.now.span (known self.old) (flat_map part_mentions (defined_parts (tag_definition tag.now).defined))) }
    {
        match &tag.ty {
            TagType::Exception(ty) => self.add_use(tag.span, ty),
        }
    }

    /// The same of a table.
    pub(crate) fn add_table(&mut self, table: &Table<'a>) -> Result<(), AllocError>
        ensures { OnOk result (known self.new ≡ after_mentions table.now.span (known self.old) (flat_map part_mentions (defined_parts (table_definition table.now).defined))) }
    {
        match &table.kind {
            TableKind::Import { .. } => Ok(()),
            TableKind::Normal { init_expr, .. } => self.add_if(table.span, init_expr),
            TableKind::Inline { payload, .. } => self.add_elements(table.span, payload),
        }
    }

    /// The same of a global.
    pub(crate) fn add_global(&mut self, global: &Global<'a>) -> Result<(), AllocError>
        ensures { OnOk result (known self.new ≡ after_mentions global.now.span (known self.old) (flat_map part_mentions (defined_parts (global_definition global.now).defined))) }
    {
        match &global.kind {
            GlobalKind::Import(_) => Ok(()),
            GlobalKind::Inline(init) => self.add_expression(global.span, init),
        }
    }

    /// The same of an element segment: its offset, then its elements.
    pub(crate) fn add_elem(&mut self, elem: &Elem<'a>) -> Result<(), AllocError>
        ensures { OnOk result (known self.new ≡ after_mentions elem.now.span (known self.old) (flat_map part_mentions (elem_mode_parts (elem_tree elem.now).mode ++ elements_parts (elem_tree elem.now).elements))) }
    {
        self.add_mode(elem.span, &elem.kind)?;
        self.add_elements(elem.span, &elem.payload)
    }

    /// The same of the offset of an element segment, where it has one.
    fn add_mode(&mut self, span: Span, kind: &ElemKind<'a>) -> Result<(), AllocError>
        ensures { OnOk result (known self.new ≡ after_mentions span (known self.old) (flat_map part_mentions (elem_mode_parts (mode_tree kind.now)))) }
    {
        match kind {
            ElemKind::Passive => Ok(()),
            ElemKind::Declared => Ok(()),
            ElemKind::Active { offset, .. } => self.add_expression(span, offset),
        }
    }

    /// The same of elements.
    fn add_elements(&mut self, span: Span, elements: &ElemPayload<'a>) -> Result<(), AllocError>
        ensures { OnOk result (known self.new ≡ after_mentions span (known self.old) (flat_map part_mentions (elements_parts (elements_tree elements.now)))) }
    {
        match elements {
            ElemPayload::Indices(_) => Ok(()),
            ElemPayload::Exprs { exprs, .. } => self.add_expressions(span, exprs),
        }
    }

    /// The same of a data segment: its offset, where it has one.
    pub(crate) fn add_data(&mut self, segment: &Data<'a>) -> Result<(), AllocError>
        ensures { OnOk result (known self.new ≡ after_mentions segment.now.span (known self.old) (flat_map part_mentions (data_mode_parts (data_tree segment.now).mode))) }
    {
        match &segment.kind {
            DataKind::Passive => Ok(()),
            DataKind::Active { offset, .. } => self.add_expression(segment.span, offset),
        }
    }

    /// The same of a constant expression, where one is written.
    fn add_if(&mut self, span: Span, expression: &Option<Expression<'a>>) -> Result<(), AllocError>
        ensures { OnOk result (known self.new ≡ after_mentions span (known self.old) (flat_map part_mentions (map Constant (option_to_list (option_map expression_tree expression.now))))) }
    {
        match expression {
            Some(expression) => self.add_expression(span, expression),
            None => Ok(()),
        }
    }

    /// The same of constant expressions.
    fn add_expressions(
        &mut self,
        span: Span,
        expressions: &[Expression<'a>],
    ) -> Result<(), AllocError>
        ensures { OnOk result (known self.new ≡ after_mentions span (known self.old) (flat_map expr_mentions (map expression_tree expressions.now))) }
    {
        for expression in expressions {
            self.add_expression(span, expression)?;
        }
        Ok(())
    }

    /// The same of an expression.
    fn add_expression(&mut self, span: Span, expression: &Expression<'a>) -> Result<(), AllocError>
        ensures { OnOk result (known self.new ≡ after_mentions span (known self.old) (expr_mentions (expression_tree expression.now))) }
    {
        self.add_instructions(span, &expression.instrs)
    }

    /// The same of instructions.
    fn add_instructions(
        &mut self,
        span: Span,
        instructions: &[Instruction<'a>],
    ) -> Result<(), AllocError>
        ensures { OnOk result (known self.new ≡ after_mentions span (known self.old) (flat_map instr_mentions (map instruction_tree instructions.now))) }
    {
        for instruction in instructions {
            self.add_instruction(span, instruction)?;
        }
        Ok(())
    }

    /// The same of an instruction.
    fn add_instruction(
        &mut self,
        span: Span,
        instruction: &Instruction<'a>,
    ) -> Result<(), AllocError>
        ensures { OnOk result (known self.new ≡ after_mentions span (known self.old) (instr_mentions (instruction_tree instruction.now))) }
    {
        match instruction {
            Instruction::Block(block)
            | Instruction::Loop(block)
            | Instruction::If(block)
            | Instruction::Try(block) => self.add_block(span, &block.ty),
            Instruction::TryTable(try_table) => self.add_block(span, &try_table.block.ty),
            Instruction::CallIndirect(call) | Instruction::ReturnCallIndirect(call) => {
                self.add_use(span, &call.ty)
            }
            _ => Ok(()),
        }
    }
}
