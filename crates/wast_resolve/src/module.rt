//! Modules, resolved.
ghost use Rattle.std.specs.Prelude.{◌≡◌, ◌⊎◌, ℕ, ◌+◌, ◌^◌, ◌<◌, ◌≤◌, [], None, Some, false, length, slice_get, IfErr, IfOk, IsOk, OnOk, true};
ghost use Rattle.wast_grammar.specs.Tokens.{Name};
ghost use Rattle.wast_grammar.specs.Spelling.{same_name};
ghost use Rattle.wast_parser.specs.Problem.{Problem, is_memory};
ghost use Rattle.wast_parser.specs.Reading.{out_of_memory};
ghost use Rattle.wast_core.specs.ModuleViews.{content_tree, module_tree};
ghost use Rattle.wast_field_syntax.specs.FieldTree as spec;
ghost use Rattle.wast_names.specs.Demand.{Answers, Refuses};
ghost use Rattle.wast_meaning.specs.Modules.{content_fields, module_breaches};
ghost use Rattle.wast_meaning.specs.Made.{is_made};
ghost use Rattle.wast_resolve.specs.Resolving.{Means};
ghost use Rattle.wast_resolve.specs.Whole.{IsCalledAlike, IsRefused, content_by, is_pieces, counter_after, demands_by, module_by, module_demands_by, names_spaces, written_by};

use crate::names::Resolver;
use crate::whole::{Names, resolve_in_place};
use std::alloc::Global;
use wast_bound::first_breach_of;
use wast_core::{Module, ModuleKind};
use wast_parser::{Error, Gensym, Span};
use wast_spaces::Spaces;

/// A module whose names can be resolved, and which may be well formed.
pub trait ResolveModule<'a> {
    /// What contracts see of it.
    ghost tree: { Self → spec.Module Name ℕ };

    /// Writes the fields out, gives each use its type and makes each index the number that it means (6.1.3, and 6.6, type uses), and answers what
    /// names mean. Pieces of a binary stay as they are, and want no memory; place and name of the module stay too. A field that is referred to and
    /// has no name takes the next one of `gensym`, and there is room for one a field. A name that is taken is fresh where each name of the module
    /// that was made is one that `gensym` made since its last reset; else it may be that of another item.
    ///
    /// Refuses a module of which a demand of names isn't met, by the first, with its place and message; else only where no memory is found,
    /// or there are more than 4294967295 items of a kind, types with those that uses imply, fields of a structure, parameters and locals of
    /// a function, or blocks inside each other, or 2^64 bytes or more of data in an inline memory, which is told as want of memory. The module
    /// then keeps why, and each later call is refused by a copy of that, or for want of memory for the copy; it takes no name. The fields of a
    /// module that is refused may be gone, and as many names are taken as where it is resolved; fewer, it may be, where no memory is found.
    fn resolve(&mut self, alloc: Global, gensym: &mut Gensym) -> Result<Names<'a>, Error>
        requires { (tree self.old).refusal ≡ None → gensym.old + length (content_fields (tree self.old).content) < 2 ^ 32 }
        ensures answers { (tree self.old).refusal ≡ None → Answers result (module_demands_by gensym.old (tree self.old)) }
        ensures resolved { OnOk result (((tree self.old).refusal ≡ None) × (tree self.new ≡ module_by gensym.old (tree self.old))) }
        ensures names { IfOk result (λ n. Means (names_spaces n) (written_by gensym.old (content_fields (tree self.old).content))) }
        ensures counted { OnOk result (gensym.new ≡ counter_after gensym.old (content_fields (tree self.old).content)) }
        ensures rises { gensym.old ≤ gensym.new }
        ensures bounded { gensym.new ≤ counter_after gensym.old (content_fields (tree self.old).content) }
        ensures counted_unmet { (tree self.old).refusal ≡ None → (why : Problem) → (tree self.new).refusal ≡ Some why → is_memory why.cause ≡ false → gensym.new ≡ counter_after gensym.old (content_fields (tree self.old).content) }
        ensures refused { IfErr result (IsRefused (tree self.new)) }
        ensures cause { (tree self.old).refusal ≡ None → (why : Problem) → (tree self.new).refusal ≡ Some why → Refuses (module_demands_by gensym.old (tree self.old)) why }
        ensures called { IsCalledAlike (tree self.old) (tree self.new) }
        ensures pieces { (tree self.old).refusal ≡ None → is_pieces (tree self.old).content ≡ true → IsOk result }
        ensures kept { (why : Problem) → (tree self.old).refusal ≡ Some why → tree self.new ≡ tree self.old }
        ensures uncounted { (why : Problem) → (tree self.old).refusal ≡ Some why → gensym.new ≡ gensym.old };

    /// Where the keyword of the first field stands that isn't well formed, if there is one (3.4.13, 6.5, 6.6.1 and 6.6, modules, and the
    /// proposals on branch hints and page sizes). In fields that are, alignments are powers of two below 65536, in bytes; branch hints rise,
    /// each stands on an instruction, and their values are below 128; constant expressions close each block that they open, and no other;
    /// a memory with its segment inline has pages of 2 to a power below 64 bytes; no start function stands behind another; and each name
    /// that is made up means something wherever an index mentions it. Takes no memory, and changes nothing.
    fn well_formed(&self) -> Option<Span>
        ensures { result ≡ slice_get (module_breaches same_name is_made (tree self.now)) 0 };
}

impl<'a> ResolveModule<'a> for Module<'a> {
    ghost tree = { module_tree };

    fn resolve(&mut self, alloc: Global, gensym: &mut Gensym) -> Result<Names<'a>, Error> {
        match &self.refusal {
            Some(why) => Err(copy_of(alloc, why)),
            None => resolve_first(alloc, self, gensym),
        }
    }

    fn well_formed(&self) -> Option<Span> {
        first_breach_of(self)
    }
}

/// The same of a module that isn't refused.
fn resolve_first<'a>(
    alloc: Global,
    module: &mut Module<'a>,
    gensym: &mut Gensym,
) -> Result<Names<'a>, Error>
    requires unrefused { (module_tree «module».old).refusal ≡ None }
    requires room { gensym.old + length (content_fields (content_tree «module».old.kind)) < 2 ^ 32 }
    ensures answers { Answers result (module_demands_by gensym.old (module_tree «module».old)) }
    ensures resolved { OnOk result (module_tree «module».new ≡ module_by gensym.old (module_tree «module».old)) }
    ensures names { IfOk result (λ n. Means (names_spaces n) (written_by gensym.old (content_fields (content_tree «module».old.kind)))) }
    ensures counted { OnOk result (gensym.new ≡ counter_after gensym.old (content_fields (content_tree «module».old.kind))) }
    ensures rises { gensym.old ≤ gensym.new }
    ensures bounded { gensym.new ≤ counter_after gensym.old (content_fields (content_tree «module».old.kind)) }
    ensures counted_unmet { (why : Problem) → (module_tree «module».new).refusal ≡ Some why → is_memory why.cause ≡ false → gensym.new ≡ counter_after gensym.old (content_fields (content_tree «module».old.kind)) }
    ensures refused { IfErr result (IsRefused (module_tree «module».new)) }
    ensures cause { (why : Problem) → (module_tree «module».new).refusal ≡ Some why → Refuses (module_demands_by gensym.old (module_tree «module».old)) why }
    ensures called { IsCalledAlike (module_tree «module».old) (module_tree «module».new) }
    ensures pieces { is_pieces (content_tree «module».old.kind) ≡ true → IsOk result }
{
    match resolve_content(alloc, &mut module.kind, gensym) {
        Ok(names) => Ok(names),
        Err(why) => {
            let told = copy_of(alloc, &why);
            module.refusal = Some(why);
            Err(told)
        }
    }
}

/// The same of what a module holds; refused, its fields may be gone.
fn resolve_content<'a>(
    alloc: Global,
    content: &mut ModuleKind<'a>,
    gensym: &mut Gensym,
) -> Result<Names<'a>, Error>
    requires { gensym.old + length (content_fields (content_tree content.old)) < 2 ^ 32 }
    ensures answers { Answers result (demands_by gensym.old (content_fields (content_tree content.old))) }
    ensures resolved { OnOk result (content_tree content.new ≡ content_by gensym.old (content_tree content.old)) }
    ensures names { IfOk result (λ n. Means (names_spaces n) (written_by gensym.old (content_fields (content_tree content.old)))) }
    ensures counted { OnOk result (gensym.new ≡ counter_after gensym.old (content_fields (content_tree content.old))) }
    ensures rises { gensym.old ≤ gensym.new }
    ensures bounded { gensym.new ≤ counter_after gensym.old (content_fields (content_tree content.old)) }
    ensures counted_unmet { IfErr result (λ e. is_memory e.cause ≡ false → gensym.new ≡ counter_after gensym.old (content_fields (content_tree content.old))) }
    ensures pieces { is_pieces (content_tree content.old) ≡ true → IsOk result }
{
    match content {
        ModuleKind::Text(fields) => resolve_in_place(alloc, fields, gensym),
        ModuleKind::Binary(_) => Ok(no_names(alloc)),
    }
}

/// What the names mean of a module without fields.
fn no_names<'a>(alloc: Global) -> Names<'a>
    ensures { Means (names_spaces result) [] }
{
    Names {
        resolver: Resolver {
            spaces: Spaces::new(alloc),
        },
    }
}

/// A copy of an error, or that there is no memory for one.
fn copy_of(alloc: Global, why: &Error) -> Error
    ensures { (result ≡ why.now) ⊎ (result ≡ out_of_memory) }
{
    match why.clone(alloc) {
        Ok(copy) => copy,
        Err(e) => Error::from(e),
    }
}
