//! The laws over the definitions that contracts cite: a function without parameters whose contract they are. It does nothing.

ghost use Rattle.wast_customs.specs.Laws.{JoinedApart, JoiningKeeps};

/// Where neighbouring subsections are joined every entry is kept, in its place: the entries of the joined ones, one after the
/// other, are those of the ones that are joined. No two neighbours are left that both speak of exports, or both of imports.
pub fn joining_keeps()
    ensures kept { JoiningKeeps }
    ensures apart { JoinedApart }
{}
