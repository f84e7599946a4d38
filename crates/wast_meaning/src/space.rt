//! Index spaces as the code tells them apart.

ghost use Rattle.std.specs.Prelude.{◌≡◌};
ghost use Rattle.wast_exports.specs.ExportViews.{kind_view};
ghost use Rattle.wast_imports.specs.ImportViews.{extern_tree};
ghost use Rattle.wast_meaning.specs.Spaces.{space_word};
ghost use Rattle.wast_meaning.specs.Views.{space_view};
ghost use Rattle.wast_meaning.specs.Written.{kind_of_type, space_of_kind};

use wast_exports::ExportKind;
use wast_imports::ItemKind;

/// An index space (6.6.1).
#[derive(Clone, Copy, PartialEq, Eq)]
pub enum Space {
    Labels,
    Locals,
    Functions,
    Types,
    Tables,
    Memories,
    Globals,
    Tags,
    Datas,
    Elems,
    Fields,
}

impl Space {
    /// That of what is imported.
    pub fn of_import(kind: &ItemKind<'_>) -> Self
        ensures { space_view result ≡ space_of_kind (kind_of_type (extern_tree kind.now)) }
    {
        match kind {
            ItemKind::Func(_) | ItemKind::FuncExact(_) => Space::Functions,
            ItemKind::Table(_) => Space::Tables,
            ItemKind::Memory(_) => Space::Memories,
            ItemKind::Global(_) => Space::Globals,
            ItemKind::Tag(_) => Space::Tags,
        }
    }

    /// That of what is exported.
    pub fn of_export(kind: ExportKind) -> Self
        ensures { space_view result ≡ space_of_kind (kind_view kind) }
    {
        match kind {
            ExportKind::Func => Space::Functions,
            ExportKind::Table => Space::Tables,
            ExportKind::Memory => Space::Memories,
            ExportKind::Global => Space::Globals,
            ExportKind::Tag => Space::Tags,
        }
    }

    /// What an item of it is called in complaints: `label local func type table memory global tag data elem field`.
    pub fn word(self) -> &'static str
        ensures { result.now ≡ space_word (space_view self) }
    {
        match self {
            Space::Labels => "label",
            Space::Locals => "local",
            Space::Functions => "func",
            Space::Types => "type",
            Space::Tables => "table",
            Space::Memories => "memory",
            Space::Globals => "global",
            Space::Tags => "tag",
            Space::Datas => "data",
            Space::Elems => "elem",
            Space::Fields => "field",
        }
    }
}
