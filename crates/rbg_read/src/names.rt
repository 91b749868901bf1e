//! Names and their places.

ghost use Rattle.std.specs.Prelude.{◌≡◌, ◌≤◌, ◌++◌, map, length, fold, IfOk, position};
ghost use Rattle.std.specs.List.{list_any};
ghost use Rattle.std.specs.Str.{bytes_eq};
ghost use Rattle.rbg_text.specs.Said.{vertex_view};
ghost use Rattle.rbg_read.specs.Means.{index_of};
ghost use Rattle.rbg_read.specs.Causes as causes;
ghost use Rattle.rbg_read.specs.lemmas.Parts.{labels_in, known_of, known_view, parts_view, AreFew, with_label};

use crate::parts::Parts;
use rbg_text::sections::{Arrow, Declaration, Vertex};
use std::alloc::{AllocError, Global};

/// The names of a game text in the order of their first appearance.
#[derive(Drop)]
pub struct Names<'a> {
    pub players: Vec<&'a [u8]>,
    /// What has a value: the players, and then the variables.
    pub values: Vec<&'a [u8]>,
    pub pieces: Vec<&'a [u8]>,
    pub vertices: Vec<&'a [u8]>,
    pub labels: Vec<&'a [u8]>,
}

/// Whether two words are the same.
pub fn is_same(a: &[u8], b: &[u8]) -> bool
    ensures { result ≡ bytes_eq a.now b.now }
{
    a == b
}

fn is_among(names: &[&[u8]], word: &[u8]) -> bool
    ensures { result ≡ list_any (λ n. bytes_eq word.now n.now) names.now }
{
    names.iter().any(|name| is_same(word, *name))
}

/// Whether the word is none of the known names.
fn is_unknown(known: &[&[u8]], word: &[u8]) -> bool
    ensures { result ≡ causes.is_unknown (map (λ w. w.now) known.now) word.now }
{
    !is_among(known, word)
}

/// The place of a name in a list, and 0 where it is not there.
fn place(names: &[&[u8]], word: &[u8]) -> u8
    requires { length names.now ≤ 256 }
    ensures { result ≡ index_of (map (λ w. w.now) names.now) word.now }
{
    place_of(names, word).unwrap_or(0) as u8
}

fn place_of(names: &[&[u8]], word: &[u8]) -> Option<usize>
    ensures { result ≡ position (λ n. bytes_eq word.now n.now) names.now }
{
    names.iter().position(|name| is_same(word, *name))
}

/// Whether some name stands twice in the list.
pub fn has_repeat(names: &[&[u8]]) -> bool
    ensures { result ≡ causes.has_repeat (map (λ w. w.now) names.now) }
{
    for (at, name) in names.iter().enumerate() {
        if !is_unknown(&names[at + 1..], *name) {
            return true;
        }
    }
    false
}

/// The names of players or variables, after others.
fn add_declared<'a>(
    names: &mut Vec<&'a [u8]>,
    declarations: &[Declaration<'a>],
) -> Result<(), AllocError>
    ensures { IfOk result (λ _. map (λ w. w.now) names.new.items
        ≡ map (λ w. w.now) names.old.items ++ map (λ d. d.name.now) declarations.now) }
{
    for declaration in declarations {
        names.push(declaration.name)?;
    }
    Ok(())
}

/// The labels of arrows after others, each once.
fn add_labels<'a>(labels: &mut Vec<&'a [u8]>, arrows: &[Arrow<'a>]) -> Result<(), AllocError>
    ensures { IfOk result (λ _. map (λ w. w.now) labels.new.items
        ≡ fold with_label (map (λ w. w.now) labels.old.items) (map (λ a. a.label.now) arrows.now)) }
{
    for arrow in arrows {
        if is_unknown(labels.as_slice(), arrow.label) {
            labels.push(arrow.label)?;
        }
    }
    Ok(())
}

fn labels_of<'a>(alloc: Global, vertices: &[Vertex<'a>]) -> Result<Vec<&'a [u8]>, AllocError>
    ensures { IfOk result (λ labels. map (λ w. w.now) labels.items ≡ labels_in (map vertex_view vertices.now)) }
{
    let mut labels = Vec::new(alloc);
    for vertex in vertices {
        add_labels(&mut labels, vertex.arrows.as_slice())?;
    }
    Ok(labels)
}

fn names_of_vertices<'a>(
    alloc: Global,
    vertices: &[Vertex<'a>],
) -> Result<Vec<&'a [u8]>, AllocError>
    ensures { IfOk result (λ names. map (λ w. w.now) names.items ≡ map (λ v. v.name.now) vertices.now) }
{
    let mut names = Vec::new(alloc);
    for vertex in vertices {
        names.push(vertex.name)?;
    }
    Ok(names)
}

impl<'a> Names<'a> {
    /// The names that the parts declare.
    pub fn of(alloc: Global, parts: &Parts<'a>) -> Result<Names<'a>, AllocError>
        ensures { IfOk result (λ names. known_view names ≡ known_of (parts_view parts.now)) }
    {
        let mut players = Vec::new(alloc);
        add_declared(&mut players, parts.players.as_slice())?;
        let mut values = Vec::from_slice(alloc, players.as_slice())?;
        add_declared(&mut values, parts.variables.as_slice())?;
        Ok(Names {
            players,
            values,
            pieces: Vec::from_slice(alloc, parts.pieces.as_slice())?,
            vertices: names_of_vertices(alloc, parts.vertices.as_slice())?,
            labels: labels_of(alloc, parts.vertices.as_slice())?,
        })
    }

    /// Whether the word names no player.
    pub fn lacks_player(&self, word: &[u8]) -> bool
        ensures { result ≡ causes.is_unknown (known_view self.now).players word.now }
    {
        is_unknown(self.players.as_slice(), word)
    }

    /// Whether the word names no player or a variable.
    pub fn lacks_value(&self, word: &[u8]) -> bool
        ensures { result ≡ causes.is_unknown (known_view self.now).values word.now }
    {
        is_unknown(self.values.as_slice(), word)
    }

    /// Whether the word names no piece.
    pub fn lacks_piece(&self, word: &[u8]) -> bool
        ensures { result ≡ causes.is_unknown (known_view self.now).pieces word.now }
    {
        is_unknown(self.pieces.as_slice(), word)
    }

    /// Whether the word names no vertex.
    pub fn lacks_vertex(&self, word: &[u8]) -> bool
        ensures { result ≡ causes.is_unknown (known_view self.now).vertices word.now }
    {
        is_unknown(self.vertices.as_slice(), word)
    }

    /// Whether the word names no label.
    pub fn lacks_label(&self, word: &[u8]) -> bool
        ensures { result ≡ causes.is_unknown (known_view self.now).labels word.now }
    {
        is_unknown(self.labels.as_slice(), word)
    }

    /// The place of a player.
    pub fn player_place(&self, word: &[u8]) -> u8
        requires { AreFew (known_view self.now) }
        ensures { result ≡ index_of (known_view self.now).players word.now }
    {
        place(self.players.as_slice(), word)
    }

    /// The place of a player or a variable.
    pub fn value_place(&self, word: &[u8]) -> u8
        requires { AreFew (known_view self.now) }
        ensures { result ≡ index_of (known_view self.now).values word.now }
    {
        place(self.values.as_slice(), word)
    }

    /// The place of a piece.
    pub fn piece_place(&self, word: &[u8]) -> u8
        requires { AreFew (known_view self.now) }
        ensures { result ≡ index_of (known_view self.now).pieces word.now }
    {
        place(self.pieces.as_slice(), word)
    }

    /// The place of a vertex.
    pub fn vertex_place(&self, word: &[u8]) -> u8
        requires { AreFew (known_view self.now) }
        ensures { result ≡ index_of (known_view self.now).vertices word.now }
    {
        place(self.vertices.as_slice(), word)
    }

    /// The place of a label.
    pub fn label_place(&self, word: &[u8]) -> u8
        requires { AreFew (known_view self.now) }
        ensures { result ≡ index_of (known_view self.now).labels word.now }
    {
        place(self.labels.as_slice(), word)
    }
}
