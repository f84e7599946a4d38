//! Which kinds of section there may be.
ghost use Rattle.std.specs.Prelude.{◌≡◌};
ghost use Rattle.wast_binary.specs.Noted.{Covers, Notes, has};

use crate::stop::Kind;
use wast_module_fields::ModuleField;

/// Which fields there are, so that fields needn't be gone over again for a section that none of them has anything in.
#[derive(Clone, Copy)]
pub(crate) struct Present {
    types: bool,
    imports: bool,
    functions: bool,
    tables: bool,
    memories: bool,
    tags: bool,
    globals: bool,
    exports: bool,
    starts: bool,
    elements: bool,
    datas: bool,
}

impl Present {
    /// Those of a module.
    pub(crate) fn of(fields: &[ModuleField<'_>]) -> Self
        ensures { Covers result fields.now }
    {
        let mut present = Present {
            types: false,
            imports: false,
            functions: false,
            tables: false,
            memories: false,
            tags: false,
            globals: false,
            exports: false,
            starts: false,
            elements: false,
            datas: false,
        };
        for field in fields {
            present.note(field);
        }
        present
    }

    /// One more field.
    fn note(&mut self, field: &ModuleField<'_>)
        ensures { Notes field.now self.old self.new }
    {
        match field {
            ModuleField::TypeItem(_) => self.types = true,
            ModuleField::Rec(_) => self.types = true,
            ModuleField::Import(_) => self.imports = true,
            ModuleField::Func(_) => self.functions = true,
            ModuleField::Table(_) => self.tables = true,
            ModuleField::Memory(_) => self.memories = true,
            ModuleField::Tag(_) => self.tags = true,
            ModuleField::Global(_) => self.globals = true,
            ModuleField::Export(_) => self.exports = true,
            ModuleField::Start(_) => self.starts = true,
            ModuleField::Elem(_) => self.elements = true,
            ModuleField::Data(_) => self.datas = true,
            ModuleField::Custom(_) => {}
        }
    }

    /// Whether there may be a section of a kind: those of functions need one, and names may be the module's own.
    pub(crate) fn has(&self, kind: Kind) -> bool
        ensures { result ≡ has self.now kind }
    {
        match kind {
            Kind::Types => self.types,
            Kind::Imports => self.imports,
            Kind::Functions | Kind::DataCount | Kind::Hints | Kind::Codes => self.functions,
            Kind::Tables => self.tables,
            Kind::Memories => self.memories,
            Kind::Tags => self.tags,
            Kind::Globals => self.globals,
            Kind::Exports => self.exports,
            Kind::Starts => self.starts,
            Kind::Elements => self.elements,
            Kind::Datas => self.datas,
            Kind::Names => true,
        }
    }
}
