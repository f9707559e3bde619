//! Which files a file sees.

ghost use Rattle.std.specs.Prelude.{◌≡◌, ◌↔◌, ℕ, true};
ghost use Rattle.proto_names_rules.specs.Names.{Workspace, sees, Sees};
ghost use Rattle.proto_names_rules.specs.Linked.{ImportsAreOfFiles};

/// The bounded search for a seen file answers what the least relation says: a chain of public
/// imports of any length is found among at most as many imports as there are files.
pub fn sees_least()
    ensures { (w : Workspace) → ImportsAreOfFiles w → (f g : ℕ) → (sees w f g ≡ true)
        ↔ Sees w.imports f g }
{}
