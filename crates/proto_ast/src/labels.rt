//! The labels of fields.

ghost use Rattle.std.specs.Prelude.{◌≡◌};
ghost use Rattle.proto_ast.specs.Labels.{has_label};
ghost use Rattle.proto_ast.specs.Views.{field_of};

use crate::fields::FieldAt;
use crate::scene::Scene;

/// Whether a field has this label: `optional`, `required` or `repeated`.
pub fn has_label(scene: &Scene, label: &str, field: FieldAt) -> bool
    ensures { result ≡ has_label scene.now label.now (field_of field.entry) }
{
    match field.label {
        Some(token) => scene.text(token) == label,
        None => false,
    }
}
