//! What a search that only looks has come to: it writes nothing, and so the vertex alone changes.
ghost use Rattle.std.specs.Prelude.{◌≡◌, ◌≤◌, ◌<◌, [], ◌∷◌, length, slice_index_or, false, IfOk, OnOk, Err};
ghost use Rattle.std.specs.List.{list_any};
ghost use Rattle.legal_moves.specs.declared.limits.TheConstants.{WIDEST};

use crate::fault::MoveFault;
use crate::limits::WIDEST;
use crate::marks::{is_marked, mark};
use std::alloc::{AllocError, Global};

/// How many looks there is room for at first.
const ROOM: usize = 32;

/// A vertex, with the number of the last action, and how the search came to it.
#[derive(Clone, Copy)]
pub struct Look {
    pub vertex: u8,
    /// 0 at the opening.
    pub place: u16,
    /// The index of the look before the last action.
    pub parent: usize,
}

/// The looks in the order in which they were found.
#[derive(Drop)]
pub struct Looks {
    pub looks: Vec<Look>,
    /// For each vertex a row of marks, one for each number.
    pub marks: Vec<bool>,
    /// How many numbers a row has.
    pub numbers: usize,
}

impl Looks {
    ghost use Rattle.legal_moves.specs.lemmas.VertexSearch.{AreMarked, IsNewLook, IsLookAdded};

    /// The opening alone, with room for the marks of this many vertices.
    pub fn begun(
        alloc: Global,
        spare: &mut Vec<Looks>,
        vertices: usize,
        numbers: usize,
        vertex: u8,
    ) -> Result<Looks, AllocError>
        requires vertices { vertices ≤ 128 }
        requires some { 1 ≤ numbers }
        requires few { numbers ≤ 4097 }
        ensures opening { IfOk result (λ looks. looks.looks.items ≡ record { vertex = vertex; place = 0; parent = 0 } ∷ []) }
        ensures marked { IfOk result (AreMarked numbers) }
    {
        let mut looks = Looks::room(alloc, spare, numbers)?;
        looks.marks.resize(vertices * numbers, false)?;
        mark(&mut looks.marks, usize::from(vertex) * numbers)?;
        looks.looks.push(Look {
            vertex,
            place: 0,
            parent: 0,
        })?;
        Ok(looks)
    }

    /// No looks, in the room of a search that is over, if there is one.
    fn room(alloc: Global, spare: &mut Vec<Looks>, numbers: usize) -> Result<Looks, AllocError>
        ensures numbers { IfOk result (λ looks. looks.numbers ≡ numbers) }
        ensures looks { IfOk result (λ looks. looks.looks.items ≡ []) }
        ensures marks { IfOk result (λ looks. looks.marks.items ≡ []) }
    {
        if let Some(over) = spare.pop() {
            return Ok(over.emptied(numbers));
        }
        let looks = Vec::with_capacity(alloc, ROOM)?;
        Ok(Looks {
            looks,
            marks: Vec::new(alloc),
            numbers,
        })
    }

    /// The looks emptied, with the room that they had.
    fn emptied(self, numbers: usize) -> Looks
        ensures numbers { result.numbers ≡ numbers }
        ensures looks { result.looks.items ≡ [] }
        ensures marks { result.marks.items ≡ [] }
    {
        let Looks {
            mut looks,
            mut marks,
            numbers: _,
        } = self;
        looks.clear();
        marks.clear();
        Looks {
            looks,
            marks,
            numbers,
        }
    }

    /// Adds a look if it is new.
    pub fn add(&mut self, look: Look) -> Result<(), MoveFault>
        requires few { self.old.numbers ≤ 4097 }
        requires within { look.place < self.old.numbers }
        requires marked { AreMarked self.old.numbers self.old }
        ensures marked { OnOk result (AreMarked self.old.numbers self.new) }
        ensures added { OnOk result (IsLookAdded self.old.looks.items look self.new.looks.items) }
        ensures wide { result ≡ Err MoveFault.TooWide → WIDEST ≤ length self.old.looks.items × IsNewLook self.old.looks.items look }
    {
        let at = usize::from(look.vertex) * self.numbers + usize::from(look.place);
        if is_marked(&self.marks, at) {
            return Ok(());
        }
        if self.looks.len() >= WIDEST {
            return Err(MoveFault::TooWide);
        }
        mark(&mut self.marks, at)?;
        self.looks.push(look)?;
        Ok(())
    }
}

/// Keeps the room of a search that is over for the next one. Where it cannot be kept it is given up.
pub fn keep(spare: &mut Vec<Looks>, looks: Looks) {
    let _kept = spare.push(looks);
}

/// Whether the last action of some look is one that is marked.
pub fn any_looks_last(looks: &[Look], lasts: &[bool]) -> bool
    ensures { result ≡ list_any (λ l. slice_index_or lasts.now l.place false) looks.now }
{
    looks
        .iter()
        .any(|look| is_marked(lasts, usize::from(look.place)))
}
