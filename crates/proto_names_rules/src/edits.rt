//! What an edit does to names and meanings.

ghost use Rattle.std.specs.Prelude.{◌≡◌, ◌≢◌, ◌↔◌, ◌++◌, ◌∷◌, [], ℕ, List, Some, true};
ghost use Rattle.std.specs.List.{Contains, AllPairs};
ghost use Rattle.proto_names_rules.specs.Names.{Workspace, Reference, Symbol, Import, Package, Name, meaning};
ghost use Rattle.proto_names_rules.specs.Edits.{Renaming, ren, renamed, renamed_reference, Collides, IsCaptured, IsAddition, with_imports, IsOvertaken, IsNeeded, deleted, import_of, is_captured, collides};
ghost use Rattle.proto_names_rules.specs.Linked.{IsLinked, IsRenaming, IsFree, IsDeletion, AreApart};
ghost use Rattle.proto_names_rules.specs.Cycles.{Leads, IsAcyclic};

/// Without collision and capture a rename keeps the workspace linked: names unique and references
/// resolved (`linked`). A reference that isn't captured means the mapped name of what it meant
/// (`means`), and a captured one doesn't (`captured`). Names of packages stay (`packages`), and
/// without collision different names stay different (`apart`).
pub fn renames()
    ensures linked { (e : Renaming) (w : Workspace)
        → IsLinked w → IsRenaming e w → IsFree e w → IsLinked (renamed e w) }
    ensures means { (e : Renaming) (w : Workspace) → IsLinked w → IsRenaming e w → (r : Reference)
        → Contains w.references r → (IsCaptured e w r → ⊥) → (m : Name)
        → meaning w r ≡ Some m → meaning (renamed e w) (renamed_reference e w r) ≡ Some (ren e m) }
    ensures captured { (e : Renaming) (w : Workspace) → IsLinked w → IsRenaming e w →
        (r : Reference) → Contains w.references r → IsCaptured e w r → (m : Name)
        → meaning w r ≡ Some m → meaning (renamed e w) (renamed_reference e w r) ≢ Some (ren e m) }
    ensures packages { (e : Renaming) (w : Workspace) → IsLinked w → IsRenaming e w
        → (t : Symbol) → Contains w.symbols t → t.kind ≡ Package → ren e t.name ≡ t.name }
    ensures apart { (e : Renaming) (w : Workspace) → IsRenaming e w → (Collides e w → ⊥) →
        (s t : Symbol) → Contains w.symbols s → Contains w.symbols t
        → ren e s.name ≡ ren e t.name → s.name ≡ t.name }
{}

/// An added import keeps every meaning that it doesn't overtake, and that of every reference of
/// another file (`means`); an overtaken reference loses its meaning (`overtaken`). Where it
/// overtakes none, the workspace stays linked (`linked`).
pub fn adds_import()
    ensures means { (w : Workspace) (imports : List Import) (file path : ℕ)
        → IsAddition w imports file path → (r : Reference) →
        (r.file ≡ file → IsOvertaken w (with_imports w imports) r → ⊥)
        → (m : Name) → meaning w r ≡ Some m → meaning (with_imports w imports) r ≡ Some m }
    ensures overtaken { (w : Workspace) (imports : List Import) (r : Reference) → IsOvertaken w
        (with_imports w imports) r → (m : Name)
        → meaning w r ≡ Some m → meaning (with_imports w imports) r ≢ Some m }
    ensures linked { (w : Workspace) (imports : List Import) (file path : ℕ) → IsLinked w
        → IsAddition w imports file path →
        ((r : Reference) → Contains w.references r → r.file
        ≡ file → IsOvertaken w (with_imports w imports) r → ⊥) → IsLinked (with_imports w imports) }
{}

/// A dropped import keeps every meaning whose file is still seen (`means`), no other (`needed`).
/// Where all are still seen, the workspace stays linked (`linked`).
pub fn drops_import()
    ensures means { (w : Workspace) (imports : List Import) → IsLinked w →
        ((i : Import) → Contains imports i → Contains w.imports i) → (r : Reference) →
        (IsNeeded w (with_imports w imports) r → ⊥)
        → (m : Name) → meaning w r ≡ Some m → meaning (with_imports w imports) r ≡ Some m }
    ensures needed { (w : Workspace) (imports : List Import) → IsLinked w → (r : Reference)
        → IsNeeded w (with_imports w imports) r →
        (m : Name) → meaning w r ≡ Some m → meaning (with_imports w imports) r ≢ Some m }
    ensures linked { (w : Workspace) (imports : List Import) → IsLinked w →
        ((i : Import) → Contains imports i → Contains w.imports i) →
        ((r : Reference) → Contains w.references r → IsNeeded w (with_imports w imports) r → ⊥)
        → IsLinked (with_imports w imports) }
{}

/// A deleted field keeps every meaning (`means`), and the workspace stays linked, whichever of its
/// references stay (`linked`).
pub fn deletes_field()
    ensures means { (e : Renaming) (w : Workspace) → IsLinked w → IsDeletion e w →
        (references : List Reference) (r : Reference) → Contains w.references r
        → (m : Name) → meaning w r ≡ Some m → meaning (deleted e w references) r ≡ Some m }
    ensures linked { (e : Renaming) (w : Workspace) → IsLinked w → IsDeletion e w →
        (references : List Reference) →
        ((r : Reference) → Contains references r → Contains w.references r)
        → IsLinked (deleted e w references) }
{}

/// An added import closes no cycle where the imported file doesn't lead back to the importing one.
pub fn adds_no_cycle()
    ensures { (imports : List Import) (file path : ℕ) → IsAcyclic imports
        → (Leads imports path file → ⊥) → IsAcyclic (imports ++ import_of file path ∷ []) }
{}

/// The tests of capture and of collision say what the relations say (`captured`, `collision`). A
/// rename that collides would leave two symbols with one name (`fault`).
pub fn decisions()
    ensures captured { (e : Renaming) (w : Workspace)
        (r : Reference) → (is_captured e w r ≡ true) ↔ IsCaptured e w r }
    ensures collision { (e : Renaming) (w : Workspace) → (collides e w ≡ true) ↔ Collides e w }
    ensures fault { (e : Renaming) (w : Workspace)
        → IsLinked w → IsRenaming e w → Collides e w → AllPairs AreApart (renamed e w).symbols → ⊥ }
{}
