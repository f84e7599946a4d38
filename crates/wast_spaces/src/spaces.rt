//! Index spaces.

ghost use Rattle.std.specs.Prelude.{◌≡◌, ℕ, Option, List, [], ◌∷◌, map, IfOk, OnOk, option_map, slice_get};
ghost use Rattle.std.specs.List.{flat_map};
ghost use Rattle.wasm_encoder_base.specs.Table.{Fields};
ghost use Rattle.wast_grammar.specs.Spelling.{same_name};
ghost use Rattle.wast_parser.specs.Identifiers.{identifier_tree};
ghost use Rattle.wast_core_types.specs.TypeViews.{inner_tree, item_tree};
ghost use Rattle.wast_imports.specs.ImportViews.{extern_tree, items_tree, member_name_tree, member_tree};
ghost use Rattle.wast_imports.specs.ImportViews.{item_tree as imported_tree};
ghost use Rattle.wast_module_fields.specs.FieldTree.{Define};
ghost use Rattle.wast_module_fields.specs.ElemViews.{table_definition};
ghost use Rattle.wast_module_fields.specs.MemoryViews.{memory_definition};
ghost use Rattle.wast_module_fields.specs.ModuleFieldViews.{field_tree};
ghost use Rattle.wast_names.specs.Demand.{Answers};
ghost use Rattle.wast_names.specs.Space as names;
ghost use Rattle.wast_names.specs.Views.{space};
ghost use Rattle.wast_meaning.specs.Demands.{item_demands};
ghost use Rattle.wast_meaning.specs.Spaces.{bound, bound_import, bound_imports, bound_type, fields_of, items, space_word};
ghost use Rattle.wast_meaning.specs.Views.{space_view};
ghost use Rattle.wast_meaning.specs.Written.{kind_of_type, space_of_kind};
ghost use Rattle.wast_spaces.specs.Joins.{Joins, spaces_behind, type_fields};
ghost use Rattle.wast_spaces.specs.Views.{fields_of_types, kind_space, spaces_of};

use std::alloc::{AllocError, Global};
use wast_core_types::InnerTypeKind;
use wast_meaning::Space;
use wast_module_fields::{
    ImportGroup1Item, ImportGroup2Item, ImportItems, Imports, ItemKind, ItemSig, Memory,
    MemoryKind, ModuleField, Table, TableKind, TypeItem,
};
use wast_names::{Namespace, copied_id};
use wast_parser::{Error, Id};
use wast_signatures::StructField;

/// The index spaces of a module (6.1.3), with the names of their items, and those of the fields of each type.
#[derive(Drop)]
pub struct Spaces<'a> {
    alloc: Global,
    functions: Namespace<'a>,
    types: Namespace<'a>,
    tables: Namespace<'a>,
    memories: Namespace<'a>,
    globals: Namespace<'a>,
    tags: Namespace<'a>,
    datas: Namespace<'a>,
    elems: Namespace<'a>,
    /// The space of what isn't the module's: it stays without items.
    others: Namespace<'a>,
    /// Those of the fields of each type.
    fields: Vec<Namespace<'a>>,
}

/// A kind of item of a module; types are none of these.
#[derive(Clone, Copy)]
enum Kind {
    Function,
    Table,
    Memory,
    Global,
    Tag,
    Data,
    Elem,
}

impl<'a> Spaces<'a> {
    /// Spaces without items.
    pub fn new(alloc: Global) -> Self
        ensures spaces { spaces_of result ≡ (λ s. names.empty) }
        ensures fields { fields_of_types result ≡ [] }
    {
        Spaces {
            alloc,
            functions: Namespace::new(alloc),
            types: Namespace::new(alloc),
            tables: Namespace::new(alloc),
            memories: Namespace::new(alloc),
            globals: Namespace::new(alloc),
            tags: Namespace::new(alloc),
            datas: Namespace::new(alloc),
            elems: Namespace::new(alloc),
            others: Namespace::new(alloc),
            fields: Vec::new(alloc),
        }
    }

    /// The spaces of the items of these fields, in order.
    ///
    /// Refuses the first item that bears the name of one before it, and isn't a segment, or the first field of a structure that bears the
    /// name of another of it, by `duplicate func identifier` and the like, at its identifier; else only where no memory is found, or a
    /// space would have more than 4294967295 items.
    pub fn of(alloc: Global, fields: &[ModuleField<'a>]) -> Result<Self, Error>
        ensures spaces { IfOk result (λ s. spaces_of s ≡ spaces_behind (λ t. names.empty) (flat_map items (map field_tree fields.now))) }
        ensures fields { IfOk result (λ s. fields_of_types s ≡ type_fields (flat_map items (map field_tree fields.now))) }
        ensures answers { Answers result (item_demands same_name (flat_map items (map field_tree fields.now))) }
    {
        let mut spaces = Spaces::new(alloc);
        spaces.add_fields(fields)?;
        Ok(spaces)
    }

    /// An index space of the module. Labels, locals and fields have none: what is answered has no items then.
    pub fn space(&self, kind: Space) -> &Namespace<'a>
        ensures { space result.now ≡ spaces_of self.now (space_view kind) }
    {
        match kind {
            Space::Functions => &self.functions,
            Space::Types => &self.types,
            Space::Tables => &self.tables,
            Space::Memories => &self.memories,
            Space::Globals => &self.globals,
            Space::Tags => &self.tags,
            Space::Datas => &self.datas,
            Space::Elems => &self.elems,
            Space::Labels | Space::Locals | Space::Fields => &self.others,
        }
    }

    /// The fields of the type with this number, where there is one; a type that is no structure has no fields.
    pub fn fields_of(&self, number: u32) -> Option<&Namespace<'a>>
        ensures { option_map (λ names. space names.now) result ≡ slice_get (fields_of_types self.now) number }
    {
        self.fields.get(number as usize)
    }

    /// The items of fields, in order.
    fn add_fields(&mut self, fields: &[ModuleField<'a>]) -> Result<(), Error>
        ensures { Joins result self.old self.new (flat_map items (map field_tree fields.now)) }
    {
        for field in fields {
            self.add_field(field)?;
        }
        Ok(())
    }

    /// The items of a field.
    fn add_field(&mut self, field: &ModuleField<'a>) -> Result<(), Error>
        ensures { Joins result self.old self.new (items (field_tree field.now)) }
    {
        match field {
            ModuleField::TypeItem(item) => self.add_type(item),
            ModuleField::Rec(group) => self.add_types(&group.types),
            ModuleField::Import(imports) => self.add_imports(imports),
            ModuleField::Func(func) => self.add(Kind::Function, &func.id),
            ModuleField::Table(table) => self.add_table(table),
            ModuleField::Memory(memory) => self.add_memory(memory),
            ModuleField::Global(global) => self.add(Kind::Global, &global.id),
            ModuleField::Tag(tag) => self.add(Kind::Tag, &tag.id),
            ModuleField::Elem(elem) => self.add(Kind::Elem, &elem.id),
            ModuleField::Data(data) => self.add(Kind::Data, &data.id),
            ModuleField::Export(_) | ModuleField::Start(_) | ModuleField::Custom(_) => Ok(()),
        }
    }

    /// A table, and the segment that stands inline.
    fn add_table(&mut self, table: &Table<'a>) -> Result<(), Error>
        ensures { Joins result self.old self.new (items (Define (table_definition table.now))) }
    {
        self.add(Kind::Table, &table.id)?;
        match &table.kind {
            TableKind::Inline { .. } => self.add(Kind::Elem, &None),
            TableKind::Import { .. } | TableKind::Normal { .. } => Ok(()),
        }
    }

    /// A memory, and the segment that stands inline.
    fn add_memory(&mut self, memory: &Memory<'a>) -> Result<(), Error>
        ensures { Joins result self.old self.new (items (Define (memory_definition memory.now))) }
    {
        self.add(Kind::Memory, &memory.id)?;
        match &memory.kind {
            MemoryKind::Inline { .. } => self.add(Kind::Data, &None),
            MemoryKind::Import { .. } | MemoryKind::Normal(_) => Ok(()),
        }
    }

    /// Types, one after the other.
    fn add_types(&mut self, types: &[TypeItem<'a>]) -> Result<(), Error>
        ensures { Joins result self.old self.new (map bound_type (map item_tree types.now)) }
    {
        for item in types {
            self.add_type(item)?;
        }
        Ok(())
    }

    /// A type, and the fields of its structure.
    fn add_type(&mut self, item: &TypeItem<'a>) -> Result<(), Error>
        ensures { Joins result self.old self.new (bound_type (item_tree item.now) ∷ []) }
    {
        register(self.alloc, &mut self.types, &item.id, "type")?;
        let names = fields_named(self.alloc, &item.def.kind)?;
        self.fields.push(names)?;
        Ok(())
    }

    /// What is imported; of a group that is alike the same item for each name.
    fn add_imports(&mut self, imports: &Imports<'a>) -> Result<(), Error>
        ensures { Joins result self.old self.new (bound_imports (items_tree imports.now.items)) }
    {
        match &imports.items {
            ImportItems::Single { sig, .. } => self.add_import(sig),
            ImportItems::Group1 { items, .. } => self.add_members(items),
            ImportItems::Group2 { sig, items, .. } => self.add_for_each(sig, items),
        }
    }

    /// The members of a group, one after the other.
    fn add_members(&mut self, members: &[ImportGroup1Item<'a>]) -> Result<(), Error>
        ensures { Joins result self.old self.new (map (λ i. bound_import i.1) (map member_tree members.now)) }
    {
        for member in members {
            self.add_import(&member.sig)?;
        }
        Ok(())
    }

    /// The same item for each member of a group.
    fn add_for_each(
        &mut self,
        sig: &ItemSig<'a>,
        members: &[ImportGroup2Item<'a>],
    ) -> Result<(), Error>
        ensures { Joins result self.old self.new (map (λ name. bound_import (imported_tree sig.now)) (map member_name_tree members.now)) }
    {
        for _member in members {
            self.add_import(sig)?;
        }
        Ok(())
    }

    /// What is imported under one name.
    fn add_import(&mut self, sig: &ItemSig<'a>) -> Result<(), Error>
        ensures { Joins result self.old self.new (bound_import (imported_tree sig.now) ∷ []) }
    {
        self.add(kind_of(&sig.kind), &sig.id)
    }

    /// One more item of a kind.
    fn add(&mut self, kind: Kind, id: &Option<Id<'a>>) -> Result<(), Error>
        ensures { (given : Option (List ℕ)) → Joins result self.old self.new (bound (kind_space kind) (option_map identifier_tree id.now) given ∷ []) }
    {
        match kind {
            Kind::Function => register(self.alloc, &mut self.functions, id, "func"),
            Kind::Table => register(self.alloc, &mut self.tables, id, "table"),
            Kind::Memory => register(self.alloc, &mut self.memories, id, "memory"),
            Kind::Global => register(self.alloc, &mut self.globals, id, "global"),
            Kind::Tag => register(self.alloc, &mut self.tags, id, "tag"),
            Kind::Data => register(self.alloc, &mut self.datas, id, "data"),
            Kind::Elem => register(self.alloc, &mut self.elems, id, "elem"),
        }
    }
}

/// One more item of a space, where there is a number left for it.
fn register<'a>(
    alloc: Global,
    joined: &mut Namespace<'a>,
    id: &Option<Id<'a>>,
    word: &str,
) -> Result<(), Error>
    ensures joined { OnOk result (space joined.new ≡ names.after_item same_name word.now (space joined.old) (option_map identifier_tree id.now)) }
    ensures answers { Answers result (names.fresh word.now (space joined.old) (option_map identifier_tree id.now)) }
{
    if joined.count() == u32::MAX {
        return Err(Error::from(AllocError));
    }
    joined.register(copied_id(alloc, id)?, word)?;
    Ok(())
}

/// The names of the fields of a structure; another type has none.
fn fields_named<'a>(alloc: Global, kind: &InnerTypeKind<'a>) -> Result<Namespace<'a>, Error>
    ensures numbers { IfOk result (λ n. space n ≡ names.space_of same_name (space_word Fields) (fields_of (inner_tree kind.now))) }
    ensures answers { Answers result (names.distinct same_name (space_word Fields) (fields_of (inner_tree kind.now))) }
{
    let ids = field_ids(alloc, kind)?;
    if ids.len() > 4_294_967_295 {
        return Err(Error::from(AllocError));
    }
    Namespace::of(alloc, &ids, "field")
}

/// The identifiers of the fields of a structure; another type has none.
fn field_ids<'a>(alloc: Global, kind: &InnerTypeKind<'a>) -> Result<Vec<Option<Id<'a>>>, AllocError>
    ensures { IfOk result (λ ids. map (option_map identifier_tree) ids.items ≡ fields_of (inner_tree kind.now)) }
{
    match kind {
        InnerTypeKind::Struct(structure) => ids_of(alloc, &structure.fields),
        _ => Ok(Vec::new(alloc)),
    }
}

/// The identifiers of fields.
fn ids_of<'a>(alloc: Global, fields: &[StructField<'a>]) -> Result<Vec<Option<Id<'a>>>, AllocError>
    ensures { IfOk result (λ ids. ids.items ≡ map (λ f. f.id) fields.now) }
{
    let mut ids = Vec::new(alloc);
    for field in fields {
        ids.push(copied_id(alloc, &field.id)?)?;
    }
    Ok(ids)
}

/// Which kind of item is imported.
fn kind_of(kind: &ItemKind<'_>) -> Kind
    ensures { kind_space result ≡ space_of_kind (kind_of_type (extern_tree kind.now)) }
{
    match kind {
        ItemKind::Func(_) | ItemKind::FuncExact(_) => Kind::Function,
        ItemKind::Table(_) => Kind::Table,
        ItemKind::Memory(_) => Kind::Memory,
        ItemKind::Global(_) => Kind::Global,
        ItemKind::Tag(_) => Kind::Tag,
    }
}
