//! A list of what a file declares, each entry below one before it, and of its references.

ghost use Rattle.std.specs.Prelude.{◌≡◌, ◌<◌, ◌≤◌, length, [], ◌∷◌, IfOk, OnOk, Some};
ghost use Rattle.proto_names_outline.specs.FromTree.{used_as};
ghost use Rattle.proto_names_outline.specs.Listing.{Adds, last_token, needs, path_at, read, seen, whole};
ghost use Rattle.proto_names_rules.specs.Skeleton.{Token};
ghost use Rattle.proto_names_rules.specs.Tree.{place};

use proto_base::NoMemory;
use proto_names_rules::{Kind, Wants};
use proto_tree::Reference;
use std::alloc::Global;

/// What an entry stands right below: nothing, or the entry with an index.
#[derive(Clone, Copy)]
pub enum Above {
    Outermost,
    Below(usize),
}

/// The last word of a name.
#[derive(Clone, Copy)]
pub enum LastWord {
    /// The text of its token.
    Text,
    /// The entry's name that is made of the text.
    EntryName,
    /// `key`
    Key,
    /// `value`
    Value,
}

/// A declaration, by the token that it stands at.
#[derive(Clone, Copy)]
pub struct Listed {
    pub above: Above,
    pub word: LastWord,
    pub token: u32,
    pub kind: Kind,
}

/// A reference right below an entry, or below nothing.
#[derive(Clone, Copy)]
pub struct Use<'a> {
    pub scope: Above,
    pub wants: Wants,
    pub reference: &'a Reference,
}

/// What a file declares and refers to, in order.
#[derive(Drop)]
pub struct Listing<'a> {
    pub declared: Vec<Listed>,
    pub used: Vec<Use<'a>>,
}

impl<'a> Listing<'a> {
    /// No entries and no references yet.
    pub(crate) fn new(alloc: Global) -> Listing<'a>
        ensures declared { result.declared.items ≡ [] }
        ensures used { result.used.items ≡ [] }
    {
        Listing {
            declared: Vec::new(alloc),
            used: Vec::new(alloc),
        }
    }

    /// Adds an entry; answers its index.
    pub(crate) fn add(&mut self, entry: Listed) -> Result<usize, NoMemory>
        requires within { needs entry.above ≤ length self.old.declared.items }
        requires token { last_token (whole
            (seen (path_at (read self.old.declared.items) entry.above) entry)) ≡ Some entry.token }
        ensures index { IfOk result (λ k. (k ≡ length self.old.declared.items)
            × (k < length self.new.declared.items)) }
        ensures adds { OnOk result (Adds self.old self.new entry.above
            (λ path. seen path entry ∷ []) (λ path. [])) }
    {
        let index = self.declared.len();
        self.declared.push(entry)?;
        Ok(index)
    }

    /// Adds a declaration whose last word is the text of its token; answers its index.
    pub(crate) fn name(&mut self, above: Above, token: u32, kind: Kind) -> Result<usize, NoMemory>
        requires { needs above ≤ length self.old.declared.items }
        ensures index { IfOk result (λ k. (k ≡ length self.old.declared.items)
            × (k < length self.new.declared.items)) }
        ensures adds { OnOk result (Adds self.old self.new above
            (λ path. place path (Token token) kind ∷ []) (λ path. [])) }
    {
        let word = LastWord::Text;
        self.add(Listed {
            above,
            word,
            token,
            kind,
        })
    }

    /// Adds a reference.
    pub(crate) fn refer(
        &mut self,
        scope: Above,
        wants: Wants,
        reference: &'a Reference,
    ) -> Result<(), NoMemory>
        requires { needs scope ≤ length self.old.declared.items }
        ensures { OnOk result (Adds self.old self.new
            scope (λ path. []) (λ path. used_as path wants reference.now ∷ [])) }
    {
        self.used.push(Use {
            scope,
            wants,
            reference,
        })?;
        Ok(())
    }
}
