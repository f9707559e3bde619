//! What an edit of tokens does to the names that they spell.

ghost use Rattle.std.specs.Prelude.{◌≡◌, ◌≢◌, ◌↔◌, List, Bool};
ghost use Rattle.std.specs.List.{Contains};
ghost use Rattle.proto_base.specs.Texts.{Text};
ghost use Rattle.proto_names_rules.specs.Names.{Import};
ghost use Rattle.proto_names_rules.specs.Edits.{renamed, with_imports};
ghost use Rattle.proto_names_rules.specs.Linked.{IsLinked, IsFree};
ghost use Rattle.proto_names_rules.specs.Skeleton.{Source, Declared, Used, MeansDeclaration, Skeleton, workspace_of, IsWoven, IsAim, IsAimEntry, renaming_of, IsRespelled, shifted};

/// What the edited words spell is the renamed workspace (`spelled`). A free rename leaves it linked
/// (`linked`), and each reference means just the declaration that it meant (`means`).
pub fn edits_words<X>()
    ensures spelled { (text text_after : X → Text) (entry : Text → Text) (k : Skeleton X)
        (token : X) (above : List (Source X)) (aim : Declared X) (is_map : Bool) (to : Text)
        → IsLinked (workspace_of text entry k) → IsWoven k → IsAim k token above aim
        → IsAimEntry k token above is_map → IsRespelled text text_after entry k token
        (renaming_of text entry token above is_map to) → ((w : Text) → entry w ≢ w)
        → workspace_of text_after entry k
        ≡ renamed (renaming_of text entry token above is_map to) (workspace_of text entry k) }
    ensures linked { (text text_after : X → Text) (entry : Text → Text) (k : Skeleton X)
        (token : X) (above : List (Source X)) (aim : Declared X) (is_map : Bool) (to : Text)
        → IsLinked (workspace_of text entry k) → IsWoven k → IsAim k token above aim
        → IsAimEntry k token above is_map → IsRespelled text text_after entry k token
        (renaming_of text entry token above is_map to) → ((w : Text) → entry w ≢ w)
        → IsFree (renaming_of text entry token above is_map to) (workspace_of text entry k)
        → IsLinked (workspace_of text_after entry k) }
    ensures means { (text text_after : X → Text) (entry : Text → Text) (k : Skeleton X)
        (token : X) (above : List (Source X)) (aim : Declared X) (is_map : Bool) (to : Text)
        → IsLinked (workspace_of text entry k) → IsWoven k → IsAim k token above aim
        → IsAimEntry k token above is_map → IsRespelled text text_after entry k token
        (renaming_of text entry token above is_map to) → ((w : Text) → entry w ≢ w)
        → IsFree (renaming_of text entry token above is_map to) (workspace_of text entry k)
        → (u : Used X) (d : Declared X) → Contains k.used u → Contains k.declared d
        → MeansDeclaration text entry k u d ↔ MeansDeclaration text_after entry k u d }
{}

/// An import that comes in or goes changes the imports alone, where each token keeps its text under
/// its new number.
pub fn edits_imports<X, Y>()
    ensures { (f : X → Y) (text : X → Text) (text_after : Y → Text) (entry : Text → Text) →
        ((i : X) → text_after (f i) ≡ text i) → (imports : List Import) (k : Skeleton X)
        → workspace_of text_after entry (shifted f imports k)
        ≡ with_imports (workspace_of text entry k) imports }
{}
