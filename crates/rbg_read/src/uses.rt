//! Names that are used.

ghost use Rattle.std.specs.Prelude.{◌≡◌};
ghost use Rattle.std.specs.List.{list_any};
ghost use Rattle.rbg_text.specs.View.{step_view};
ghost use Rattle.rbg_text.specs.Said.{vertex_view};
ghost use Rattle.rbg_read.specs.Causes.{is_unknown};
ghost use Rattle.rbg_read.specs.lemmas.Flat as spec;
ghost use Rattle.rbg_read.specs.lemmas.Parts.{known_view, parts_view};

use crate::names::Names;
use crate::parts::Parts;
use rbg_text::parser::Step;
use rbg_text::sections::Vertex;

fn step_uses_unknown(names: &Names, step: Step<'_>) -> bool
    ensures { result ≡ spec.step_uses_unknown (known_view names.now) (step_view step.entry) }
{
    match step {
        Step::Variable(name) | Step::Assign(name) => names.lacks_value(name),
        Step::Shift(label) => names.lacks_label(label),
        Step::Among(piece) | Step::Off(piece) => names.lacks_piece(piece),
        Step::Switch(player) => names.lacks_player(player),
        _ => false,
    }
}

fn leads_nowhere(names: &Names, vertex: &Vertex) -> bool
    ensures { result ≡ list_any (λ a. is_unknown (known_view names.now).vertices a.to.now) vertex.now.arrows.items }
{
    vertex
        .arrows
        .iter()
        .any(|arrow| names.lacks_vertex(arrow.to))
}

#[tactic(auto, using(crate::proofs::Lists::any_map))]
fn vertex_uses_unknown(names: &Names, vertex: &Vertex) -> bool
    ensures { result ≡ spec.vertex_uses_unknown (known_view names.now) (vertex_view vertex.now) }
{
    names.lacks_piece(vertex.piece) || leads_nowhere(names, vertex)
}

fn some_vertex_uses_unknown(names: &Names, vertices: &[Vertex]) -> bool
    ensures { result ≡ list_any (λ v. spec.vertex_uses_unknown (known_view names.now) (vertex_view v)) vertices.now }
{
    vertices
        .iter()
        .any(|vertex| vertex_uses_unknown(names, vertex))
}

fn some_step_uses_unknown(names: &Names, steps: &[Step]) -> bool
    ensures { result ≡ list_any (λ s. spec.step_uses_unknown (known_view names.now) (step_view s)) steps.now }
{
    steps.iter().any(|step| step_uses_unknown(names, *step))
}

/// Whether a name is used that is not declared.
#[tactic(auto, using(crate::proofs::Lists::any_map))]
pub fn uses_unknown(names: &Names, parts: &Parts) -> bool
    ensures { result ≡ spec.uses_unknown (known_view names.now) (parts_view parts.now) }
{
    some_vertex_uses_unknown(names, parts.vertices.as_slice())
        || some_step_uses_unknown(names, parts.steps.as_slice())
}
