//! The kinds of name maps.
ghost use Rattle.std.specs.Prelude.{◌≡◌};
ghost use Rattle.wast_meaning.specs.Views.{space_view};
ghost use Rattle.wast_meant.specs.NamesMeant.{space_of};
ghost use Rattle.wast_name_maps.specs.Kinds.{items_view};

use wast_meaning::Space;

/// A name map (appendix, Name Section).
#[derive(Clone, Copy)]
pub(crate) enum Map {
    /// The name of the module.
    Module,
    /// The names of the items of an index space.
    Items(Items),
    /// The names of what is inside of items.
    Inside(Inside),
}

/// The index spaces whose items have a map.
#[derive(Clone, Copy)]
pub(crate) enum Items {
    Functions,
    Types,
    Tables,
    Memories,
    Globals,
    Elements,
    DataSegments,
    Tags,
}

/// What is inside of items and has a map: locals and labels of functions, fields of structure types, parameters of function types
/// and of tags.
#[derive(Clone, Copy)]
pub(crate) enum Inside {
    Locals,
    Labels,
    Fields,
    Parameters,
    TagParameters,
}

/// The maps in the order of their numbers.
pub(crate) const ORDER: [Map; 14] = [
    Map::Module,
    Map::Items(Items::Functions),
    Map::Inside(Inside::Locals),
    Map::Inside(Inside::Labels),
    Map::Items(Items::Types),
    Map::Items(Items::Tables),
    Map::Items(Items::Memories),
    Map::Items(Items::Globals),
    Map::Items(Items::Elements),
    Map::Items(Items::DataSegments),
    Map::Inside(Inside::Fields),
    Map::Items(Items::Tags),
    Map::Inside(Inside::Parameters),
    Map::Inside(Inside::TagParameters),
];

impl Items {
    /// The index space.
    pub(crate) fn space(self) -> Space
        ensures { space_view result ≡ space_of (items_view self) }
    {
        match self {
            Items::Functions => Space::Functions,
            Items::Types => Space::Types,
            Items::Tables => Space::Tables,
            Items::Memories => Space::Memories,
            Items::Globals => Space::Globals,
            Items::Elements => Space::Elems,
            Items::DataSegments => Space::Datas,
            Items::Tags => Space::Tags,
        }
    }
}
