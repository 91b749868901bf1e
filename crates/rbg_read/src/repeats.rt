//! Names that are declared twice.

ghost use Rattle.std.specs.Prelude.{◌≡◌, map};
ghost use Rattle.std.specs.List.{list_any};
ghost use Rattle.std.specs.Str.{bytes_eq};
ghost use Rattle.rbg_text.specs.Said.{vertex_view};
ghost use Rattle.rbg_read.specs.Causes.{has_repeat};
ghost use Rattle.rbg_read.specs.lemmas.Flat as spec;
ghost use Rattle.rbg_read.specs.lemmas.Parts.{known_view, parts_view};

use crate::names::{Names, has_repeat, is_same};
use crate::parts::Parts;
use rbg_text::sections::{Arrow, Vertex};

fn some_arrow_has(arrows: &[Arrow], label: &[u8]) -> bool
    ensures { result ≡ list_any (λ a. bytes_eq label.now a.label.now) arrows.now }
{
    arrows.iter().any(|arrow| is_same(label, arrow.label))
}

#[tactic(auto, using(crate::proofs::Lists::any_map))]
fn has_label(arrows: &[Arrow], label: &[u8]) -> bool
    ensures { result ≡ list_any (bytes_eq label.now) (map (λ a. a.label.now) arrows.now) }
{
    some_arrow_has(arrows, label)
}

/// Whether two arrows have one label.
fn repeats_label(arrows: &[Arrow]) -> bool
    ensures { result ≡ has_repeat (map (λ a. a.label.now) arrows.now) }
{
    for (at, arrow) in arrows.iter().enumerate() {
        if has_label(&arrows[at + 1..], arrow.label) {
            return true;
        }
    }
    false
}

#[tactic(auto, using(crate::proofs::Lists::map_map))]
fn vertex_repeats_label(vertex: &Vertex) -> bool
    ensures { result ≡ spec.repeats_label (vertex_view vertex.now) }
{
    repeats_label(vertex.arrows.as_slice())
}

fn some_vertex_repeats_label(vertices: &[Vertex]) -> bool
    ensures { result ≡ list_any (λ v. spec.repeats_label (vertex_view v)) vertices.now }
{
    vertices.iter().any(|vertex| vertex_repeats_label(vertex))
}

/// Whether a name is declared twice.
#[tactic(auto, using(crate::proofs::Lists::any_map))]
pub fn repeats_name(names: &Names, parts: &Parts) -> bool
    ensures { result ≡ spec.repeats_name (known_view names.now) (parts_view parts.now) }
{
    has_repeat(names.values.as_slice())
        || has_repeat(names.pieces.as_slice())
        || has_repeat(names.vertices.as_slice())
        || some_vertex_repeats_label(parts.vertices.as_slice())
}
