//! Name spaces.

ghost use Rattle.std.specs.Prelude.{◌≡◌, ◌⊎◌, ◌+◌, ◌-◌, ◌^◌, ◌<◌, true, false, [], ◌∷◌, IfErr, IfOk, IsOk, OnErr, OnOk, None, Some, is_some, option_map, length, map};
ghost use Rattle.wast_parser.specs.Spelling.{same_name};
ghost use Rattle.wast_parser.specs.Identifiers.{identifier_tree, index_tree};
ghost use Rattle.wast_parser.specs.Reading.{out_of_memory};
ghost use Rattle.wast_names.specs.Demand.{Answers, Unknown, told};
ghost use Rattle.wast_names.specs.Views.{space};
ghost use Rattle.wast_names.specs.Space.{bound, distinct, empty, fresh, grown, is_free, known, last_counts, name_in, number_of, registered, resolved, space_of};

use std::alloc::{AllocError, Global};
use std::collections::BTreeMap;
use wast_parser::{Error, Id, Index};

/// An index space in the making (6.1.3): how many items it has, and which number each name means. Contracts see a `Space` of `specs/`.
///
/// A kind of item is a word: `func table global memory tag type data elem local field` or `label`. It stands in messages, and of `elem`
/// and `data` the last item that bears a name counts.
#[derive(Drop)]
pub struct Namespace<'a> {
    alloc: Global,
    names: BTreeMap<Id<'a>, u32>,
    count: u32,
}

impl<'a> Namespace<'a> {
    /// A space without items.
    pub fn new(alloc: Global) -> Self
        ensures { space result ≡ empty }
    {
        Namespace {
            alloc,
            names: BTreeMap::new(alloc),
            count: 0,
        }
    }

    /// The space of these items of a kind, in order, each with its identifier or none. There are fewer than 2^32.
    ///
    /// Where the last doesn't count, refuses the first that bears the name of one before it, by `duplicate func identifier` at its
    /// identifier; else only where no memory is found.
    pub fn of(alloc: Global, items: &[Option<Id<'a>>], desc: &str) -> Result<Self, Error>
        requires { length items.now < 2 ^ 32 }
        ensures numbers { IfOk result (λ names. space names ≡ space_of same_name desc.now (map (option_map identifier_tree) items.now)) }
        ensures answers { Answers result (distinct same_name desc.now (map (option_map identifier_tree) items.now)) }
    {
        let mut names = Namespace::new(alloc);
        for item in items {
            names.register(copied_id(alloc, item)?, desc)?;
        }
        Ok(names)
    }

    /// How many items there are.
    pub fn count(&self) -> u32
        ensures { result ≡ (space self.now).count }
    {
        self.count
    }

    /// The number that a name means, if it means one. Names are the same wherever they stand.
    pub fn get(&self, id: &Id<'a>) -> Option<u32>
        ensures { result ≡ (space self.now).look (identifier_tree id.now).0 }
    {
        self.names.get(id).copied()
    }

    /// The number that an index means: itself, or that of its name, if it means one.
    pub fn number_of(&self, index: &Index<'a>) -> Option<u32>
        ensures { result ≡ number_of (space self.now) (index_tree index.now) }
    {
        match index {
            Index::Num(number, _) => Some(*number),
            Index::Id(id) => self.get(id),
        }
    }

    /// One more item, without a name; answers its number. There are fewer than `u32::MAX` before.
    pub fn alloc(&mut self) -> u32
        requires { (space self.old).count < 2 ^ 32 - 1 }
        ensures number { result ≡ (space self.old).count }
        ensures grows { space self.new ≡ grown same_name (space self.old) None }
    {
        let number = self.count;
        self.count += 1;
        number
    }

    /// One more item of a kind, with its identifier or none; answers its number. There are fewer than `u32::MAX` before.
    ///
    /// Where the last doesn't count, refuses a name that means a number, by `duplicate func identifier` at the identifier; else only
    /// where no memory is found for a name. Nothing is changed then.
    pub fn register(&mut self, name: Option<Id<'a>>, desc: &str) -> Result<u32, Error>
        requires { (space self.old).count < 2 ^ 32 - 1 }
        ensures number { IfOk result (λ number. number ≡ (space self.old).count) }
        ensures grows { OnOk result (space self.new ≡ registered same_name desc.now (space self.old) (name_in (option_map identifier_tree name.entry))) }
        ensures answers { Answers result (fresh desc.now (space self.old) (option_map identifier_tree name.entry)) }
        ensures named { OnErr result (is_some name.entry ≡ true) }
        ensures refused { OnErr result (space self.new ≡ space self.old) }
    {
        match name {
            Some(id) if last_counts(desc) => self.bind(id, self.count)?,
            Some(id) => self.register_specific(id, self.count, desc)?,
            None => {}
        }
        Ok(self.alloc())
    }

    /// Gives a name this number. The count of items stays.
    ///
    /// Refuses a name that means a number, of any kind, by `duplicate func identifier` at the identifier; else only where no memory is
    /// found. Nothing is changed then.
    pub fn register_specific(&mut self, id: Id<'a>, number: u32, desc: &str) -> Result<(), Error>
        ensures bound { OnOk result (space self.new ≡ bound same_name (space self.old) (identifier_tree id.entry).0 number) }
        ensures answers { Answers result (is_free desc.now (space self.old) (identifier_tree id.entry) ∷ []) }
        ensures refused { OnErr result (space self.new ≡ space self.old) }
    {
        self.refuse_taken(&id, desc)?;
        self.bind(id, number)
    }

    /// Makes an index the number that it means, at the same place, and answers that.
    ///
    /// Refuses a name that means none by `` unknown func: failed to find name `$f` `` at the identifier, or by want of memory for this
    /// message. The index is unchanged then.
    pub fn resolve(&self, index: &mut Index<'a>, desc: &str) -> Result<u32, Error>
        ensures number { IfOk result (λ number. number_of (space self.now) (index_tree index.old) ≡ Some number) }
        ensures resolved { OnOk result (index_tree index.new ≡ resolved (space self.now) (index_tree index.old)) }
        ensures answers { Answers result (known desc.now (space self.now) (index_tree index.old)) }
        ensures unknown { OnErr result (number_of (space self.now) (index_tree index.old) ≡ None) }
        ensures refused { OnErr result (index.new ≡ index.old) }
    {
        let number = match index {
            Index::Num(number, _) => return Ok(*number),
            Index::Id(id) => match self.get(id) {
                Some(number) => number,
                None => return Err(resolve_error(self.alloc, id, desc)),
            },
        };
        *index = Index::Num(number, index.span());
        Ok(number)
    }

    /// The same where a name that means no number is no error: the index is then unchanged.
    pub fn try_resolve(&self, index: &mut Index<'a>) -> Option<u32>
        ensures number { result ≡ number_of (space self.now) (index_tree index.old) }
        ensures resolved { index_tree index.new ≡ resolved (space self.now) (index_tree index.old) }
    {
        let number = self.number_of(index)?;
        *index = Index::Num(number, index.span());
        Some(number)
    }

    /// The name means the number from now on.
    fn bind(&mut self, id: Id<'a>, number: u32) -> Result<(), Error>
        ensures bound { OnOk result (space self.new ≡ bound same_name (space self.old) (identifier_tree id.entry).0 number) }
        ensures refused { OnErr result (space self.new ≡ space self.old) }
        ensures memory { IfErr result (λ e. e ≡ out_of_memory) }
    {
        self.names.insert(id, number)?;
        Ok(())
    }

    /// Refuses a name that means a number.
    fn refuse_taken(&self, id: &Id<'a>, desc: &str) -> Result<(), Error>
        ensures { Answers result (is_free desc.now (space self.now) (identifier_tree id.now) ∷ []) }
    {
        if self.get(id).is_none() {
            return Ok(());
        }
        let text = format!(in self.alloc; "duplicate {desc} identifier")?;
        Err(Error::new(id.span(), text))
    }
}

/// The error that an identifier means nothing in a space of this kind: `` unknown func: failed to find name `$f` ``, at the identifier;
/// or want of memory for this message.
pub fn resolve_error(alloc: Global, id: &Id<'_>, ns: &str) -> Error
    ensures { (result ≡ out_of_memory) ⊎ (result ≡ told (record { place = (identifier_tree id.now).1; complaint = Unknown ns.now (identifier_tree id.now).0; holds = false })) }
{
    let name = id.name();
    match format!(in alloc; "unknown {ns}: failed to find name `${name}`") {
        Ok(text) => Error::new(id.span(), text),
        Err(e) => Error::from(e),
    }
}

/// The identifier that an item bears, once more, or none. Fails only for want of memory, of which none is asked for where it bears none.
pub fn copied_id<'a>(alloc: Global, id: &Option<Id<'a>>) -> Result<Option<Id<'a>>, AllocError>
    ensures same { IfOk result (λ copy. copy ≡ id.now) }
    ensures none { id.now ≡ None → IsOk result }
{
    match id {
        Some(id) => Ok(Some(id.clone(alloc)?)),
        None => Ok(None),
    }
}

/// Whether of items of this kind the last that bears a name counts.
fn last_counts(desc: &str) -> bool
    ensures { result ≡ last_counts desc.now }
{
    desc == "elem" || desc == "data"
}
