//! The game of the parts of a text.

ghost use Rattle.std.specs.Prelude.{◌≡◌, ◌≤◌, ◌++◌, map, false, None, IfOk};
ghost use Rattle.rbg_text.specs.Said.{declaration_view, arrow_view, vertex_view};
ghost use Rattle.std.specs.List.{list_any};
ghost use Rattle.rbg_game.specs.Meaning as meaning;
ghost use Rattle.rbg_game.specs.Meaning.{game_of, regex_of, variable_of, arrow_of};
ghost use Rattle.rbg_game.specs.Depth.{rules_depth};
ghost use Rattle.rbg_read.specs.Means.{declared};
ghost use Rattle.rbg_read.specs.lemmas.Build.{flat_game, placed_vertex, placed_arrow};
ghost use Rattle.rbg_read.specs.lemmas.Depths.{rules_depths};
ghost use Rattle.rbg_read.specs.lemmas.Flat.{flat_cause, has_large_bound};
ghost use Rattle.rbg_read.specs.lemmas.Parts.{known_of, known_view, parts_view, AreFew};

use crate::names::Names;
use crate::numbers::number;
use crate::parts::Parts;
use crate::resolve::resolve;
use rbg_game::game::{Arrow, Game, Name, Variable, Vertex};
use rbg_text::sections as said;
use std::alloc::{AllocError, Global};

fn named(alloc: Global, word: &[u8]) -> Result<Name, AllocError>
    ensures { IfOk result (λ name. name.bytes.items ≡ word.now) }
{
    Ok(Name {
        bytes: Vec::from_slice(alloc, word)?,
    })
}

fn all_named(alloc: Global, words: &[&[u8]]) -> Result<Vec<Name>, AllocError>
    ensures { IfOk result (λ names. map (λ n. n.bytes.items) names.items ≡ map (λ w. w.now) words.now) }
{
    let mut names = Vec::new(alloc);
    for word in words {
        names.push(named(alloc, *word)?)?;
    }
    Ok(names)
}

fn add_variables(
    alloc: Global,
    variables: &mut Vec<Variable>,
    declarations: &[said::Declaration],
) -> Result<(), AllocError>
    requires { list_any (λ d. has_large_bound (declaration_view d)) declarations.now ≡ false }
    ensures { IfOk result (λ _. map variable_of variables.new.items
        ≡ map variable_of variables.old.items ++ map (λ d. declared (declaration_view d)) declarations.now) }
{
    for declaration in declarations {
        let name = named(alloc, declaration.name)?;
        let bound = number(declaration.bound);
        variables.push(Variable { name, bound })?;
    }
    Ok(())
}

fn arrows_of(alloc: Global, names: &Names, arrows: &[said::Arrow]) -> Result<Vec<Arrow>, AllocError>
    requires { AreFew (known_view names.now) }
    ensures { IfOk result (λ placed. map arrow_of placed.items ≡ map (λ a. placed_arrow (known_view names.now) (arrow_view a)) arrows.now) }
{
    let mut placed = Vec::new(alloc);
    for arrow in arrows {
        let label = names.label_place(arrow.label);
        let to = names.vertex_place(arrow.to);
        placed.push(Arrow { label, to })?;
    }
    Ok(placed)
}

fn vertex_of(alloc: Global, names: &Names, vertex: &said::Vertex) -> Result<Vertex, AllocError>
    requires { AreFew (known_view names.now) }
    ensures { IfOk result (λ placed. meaning.vertex_of placed ≡ placed_vertex (known_view names.now) (vertex_view vertex.now)) }
{
    Ok(Vertex {
        name: named(alloc, vertex.name)?,
        piece: names.piece_place(vertex.piece),
        arrows: arrows_of(alloc, names, vertex.arrows.as_slice())?,
    })
}

fn vertices_of(
    alloc: Global,
    names: &Names,
    vertices: &[said::Vertex],
) -> Result<Vec<Vertex>, AllocError>
    requires { AreFew (known_view names.now) }
    ensures { IfOk result (λ placed. map meaning.vertex_of placed.items ≡ map (λ v. placed_vertex (known_view names.now)
        (vertex_view v)) vertices.now) }
{
    let mut placed = Vec::new(alloc);
    for vertex in vertices {
        placed.push(vertex_of(alloc, names, vertex)?)?;
    }
    Ok(placed)
}

/// The game of parts that have no cause against them.
pub fn build(alloc: Global, names: &Names, parts: &Parts) -> Result<Game, AllocError>
    requires named { known_view names.now ≡ known_of (parts_view parts.now) }
    requires fine { flat_cause (known_view names.now) (parts_view parts.now) ≡ None }
    ensures means { IfOk result (λ game. game_of game ≡ flat_game (known_view names.now) (parts_view parts.now)) }
    ensures shallow { IfOk result (λ game. rules_depth game.rules ≤ (rules_depths (regex_of game.rules)).whole) }
{
    let mut variables = Vec::new(alloc);
    add_variables(alloc, &mut variables, parts.players.as_slice())?;
    add_variables(alloc, &mut variables, parts.variables.as_slice())?;
    Ok(Game {
        pieces: all_named(alloc, names.pieces.as_slice())?,
        variables,
        labels: all_named(alloc, names.labels.as_slice())?,
        vertices: vertices_of(alloc, names, parts.vertices.as_slice())?,
        rules: resolve(alloc, names, parts.steps.as_slice())?,
    })
}
