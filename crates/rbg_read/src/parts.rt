//! The parts of a game text.

ghost use Rattle.std.specs.Prelude.{◌≡◌, [], map, option_map, IfOk};
ghost use Rattle.rbg_text.specs.Said.{section_view};
ghost use Rattle.rbg_read.specs.lemmas.Parts.{collected, only, at_most_one, kinds_of, parts_of, parts_view, kinds_view, with_said};

use rbg_text::parser::Step;
use rbg_text::sections::{Declaration, Section, Vertex};
use std::alloc::{AllocError, Global};

/// What the sections say, each kind of section once.
#[derive(Drop)]
pub struct Parts<'a> {
    pub players: Vec<Declaration<'a>>,
    pub pieces: Vec<&'a [u8]>,
    pub variables: Vec<Declaration<'a>>,
    pub vertices: Vec<Vertex<'a>>,
    /// The rules in postfix order.
    pub steps: Vec<Step<'a>>,
}

/// The only member of a list.
fn only<T: Drop>(all: Vec<T>) -> Option<T>
    ensures { result ≡ only all.items }
{
    let mut members = all.into_iter();
    let first = members.next()?;
    if members.next().is_some() {
        return None;
    }
    Some(first)
}

/// The only member, or an empty list where there is none.
fn at_most_one<T: Drop>(alloc: Global, all: Vec<Vec<T>>) -> Option<Vec<T>>
    ensures { option_map (λ v. v.items) result ≡ at_most_one (map (λ v. v.items) all.items) }
{
    if all.is_empty() {
        return Some(Vec::new(alloc));
    }
    only(all)
}

/// The sections of each kind.
#[derive(Drop)]
struct Sections<'a> {
    players: Vec<Vec<Declaration<'a>>>,
    pieces: Vec<Vec<&'a [u8]>>,
    variables: Vec<Vec<Declaration<'a>>>,
    boards: Vec<Vec<Vertex<'a>>>,
    rules: Vec<Vec<Step<'a>>>,
}

impl<'a> Sections<'a> {
    fn new(alloc: Global) -> Sections<'a>
        ensures { kinds_view result ≡ kinds_of [] }
    {
        Sections {
            players: Vec::new(alloc),
            pieces: Vec::new(alloc),
            variables: Vec::new(alloc),
            boards: Vec::new(alloc),
            rules: Vec::new(alloc),
        }
    }

    fn add(&mut self, section: Section<'a>) -> Result<(), AllocError>
        ensures { IfOk result (λ _. kinds_view self.new ≡ with_said (kinds_view self.old) (section_view section.entry)) }
    {
        match section {
            Section::Players(all) => self.players.push(all)?,
            Section::Pieces(all) => self.pieces.push(all)?,
            Section::Variables(all) => self.variables.push(all)?,
            Section::Board(all) => self.boards.push(all)?,
            Section::Rules(all) => self.rules.push(all)?,
        }
        Ok(())
    }

    /// Each kind once, but for the variables, which may be missing.
    fn parts(self, alloc: Global) -> Option<Parts<'a>>
        ensures { option_map parts_view result ≡ parts_of (kinds_view self.entry) }
    {
        let Sections {
            players,
            pieces,
            variables,
            boards,
            rules,
        } = self;
        Some(Parts {
            players: only(players)?,
            pieces: only(pieces)?,
            variables: at_most_one(alloc, variables)?,
            vertices: only(boards)?,
            steps: only(rules)?,
        })
    }
}

/// The parts, or `None` where a section stands twice, or one but the variables is missing.
pub fn collect<'a>(
    alloc: Global,
    sections: Vec<Section<'a>>,
) -> Result<Option<Parts<'a>>, AllocError>
    ensures { IfOk result (λ parts. option_map parts_view parts ≡ collected (map section_view sections.entry.items)) }
{
    let mut all = Sections::new(alloc);
    for section in sections {
        all.add(section)?;
    }
    Ok(all.parts(alloc))
}
