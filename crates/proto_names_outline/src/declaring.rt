//! What trees declare.

ghost use Rattle.std.specs.Prelude.{◌≡◌, ◌≢◌, ◌++◌, ◌∷◌, ◌⊎◌, [], ℕ, List, Some, true, map};
ghost use Rattle.std.specs.List.{All, Contains};
ghost use Rattle.proto_text.specs.Tokens.{Lexeme};
ghost use Rattle.proto_tree.specs.Tree.{Tree, Spells};
ghost use Rattle.proto_base.specs.declared.profile.Profile.{Profile};
ghost use Rattle.proto_tree.specs.Words.{classes_in};
ghost use Rattle.proto_names_outline.specs.FromTree.{file_names};
ghost use Rattle.proto_names_outline.specs.Roles.{DeclaredTokensAreNames, NamesAreNoUses, TokensAreUsedOnce, UsedTokensRefer, UsedWordsStandApart};
ghost use Rattle.proto_names_rules.specs.Names.{Import};
ghost use Rattle.proto_names_rules.specs.Linked.{holds, IsLinked, IsNested};
ghost use Rattle.proto_names_rules.specs.Skeleton.{Skeleton, Source, IsWoven, symbol_of, workspace_of};
ghost use Rattle.proto_names_rules.specs.Tree.{Members, Placed, all_placed, AllSpan, token_of};
ghost use Rattle.proto_names_rules.specs.Grown.{skeleton_of, skeleton_of_files, FileNames, IsGrown, At};
ghost use Rattle.proto_case.specs.Camel.{entry_name};
ghost use Rattle.proto_names_rules.specs.Faults.{Fault, NameFault, ReferenceFault};
ghost use Rattle.proto_names_rules.specs.Joined.{joined, ArePlain};

/// A tree's declarations nest, and a token declares one symbol, with its entry.
pub fn trees()
    ensures stands { (ms : Members) (path : List (Source ℕ)) (p : Placed) → Contains
        (all_placed path ms) p → (p.above ≡ path) ⊎
        ((u : Placed) × Contains (all_placed path ms) u
        × (p.above ≡ u.above ++ u.last ∷ []) × (holds u.kind p.kind ≡ true)) }
    ensures one_place { (ms : Members) (path : List (Source ℕ)) (low high d : ℕ)
        → AllSpan low high ms → (p q : Placed) → Contains (all_placed path ms) p → Contains
        (all_placed path ms) q → token_of p.last
        ≡ Some d → token_of q.last ≡ Some d → p.above ≡ q.above }
    ensures nested { (text : ℕ → List ℕ) (entry : List ℕ → List ℕ) (file : ℕ)
        (ms : Members) → IsNested (map (symbol_of text entry) (skeleton_of file ms).declared) }
    ensures woven { (file low high : ℕ) (ms : Members)
        → AllSpan low high ms → IsWoven (skeleton_of file ms) }
{}

/// The names of many files nest, and each token declares one symbol, with its entry.
pub fn files()
    ensures nested { (text : At → List ℕ) (entry : List ℕ → List ℕ) (imports : List Import)
        (fs : List FileNames)
        → IsNested (map (symbol_of text entry) (skeleton_of_files imports fs).declared) }
    ensures woven { (imports : List Import) (fs : List FileNames)
        → All IsGrown fs → IsWoven (skeleton_of_files imports fs) }
{}

/// The name of a map field's entry is not the field's.
pub fn entry_names()
    ensures { (word : List ℕ) → entry_name word ≢ word }
{}

/// Names of plain words are told apart by their text.
pub fn names_as_text()
    ensures { (x y : List (List ℕ)) → ArePlain x → ArePlain y → joined x ≡ joined y → x ≡ y }
{}

/// A workspace whose names nest is linked exactly where no name and no reference is at fault.
pub fn links()
    ensures sound { (text : At → List ℕ) (k : Skeleton At) → IsNested
        (workspace_of text entry_name k).symbols → ((f : Fault) → NameFault text k.declared f → ⊥)
        → ((f : Fault) → ReferenceFault text k f → ⊥) → IsLinked (workspace_of text entry_name k) }
    ensures names { (text : At → List ℕ) (k : Skeleton At) → IsLinked
        (workspace_of text entry_name k) → (f : Fault) → NameFault text k.declared f → ⊥ }
    ensures references { (text : At → List ℕ) (k : Skeleton At)
        → IsLinked (workspace_of text entry_name k) → (f : Fault) → ReferenceFault text k f → ⊥ }
{}

/// The tokens of what a file declares are in order, and each of its references stands in one of its
/// declarations.
pub fn file_trees()
    ensures { (profile : Profile) (t : Tree) (ls : List Lexeme)
        → Spells t (classes_in profile 0 ls) → IsGrown (file_names t) }
{}

/// A token that names a declaration is no word of a reference. A token is one word of one
/// reference, and these stand a dot apart.
pub fn tokens()
    ensures names { DeclaredTokensAreNames }
    ensures uses { UsedTokensRefer }
    ensures apart { NamesAreNoUses }
    ensures once { TokensAreUsedOnce }
    ensures words { UsedWordsStandApart }
{}
