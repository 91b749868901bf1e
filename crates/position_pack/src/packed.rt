//! A position as bytes, and back.

ghost use Rattle.std.specs.Prelude.{◌≡◌, ◌<◌, ◌≤◌, [], length, MatchOption};
ghost use Rattle.rbg_game.specs.Meaning.{game_of};
ghost use Rattle.rbg_game.specs.Sound.{IsSoundGame};
ghost use Rattle.rbg_game.specs.declared.position.Position.{Position};
ghost use Rattle.position_pack.specs.Shape.{IsSmall};
ghost use Rattle.position_pack.specs.Bytes.{bytes_of};
ghost use Rattle.position_pack.specs.Bits.{bytes_by_bits, field_at, greatest_of as greatest_by};
ghost use Rattle.position_pack.specs.lemmas.Streams.{written, IsWriter};
ghost use Rattle.position_pack.specs.Packings.{form_of, packed_by, length_by, IsPacked};
ghost use Rattle.position_pack.specs.declared.kind.PackingKind.TheVariants.{Bytes, Bits};

use crate::fields::{
    Fields, bits_in, bytes_of_fields, fields_of, greatest_of, position_of, put_fields,
    put_last_fields, put_piece_bits, take_fields, width_of,
};
use crate::kind::PackingKind;
use crate::limits::MAX_PACKED;
use crate::parts::{all_below, put_bytes, put_values, role_byte, role_of, values_of, vector_of};
use crate::reader::number_at;
use crate::writer::{Writer, finish, new_writer};
use arrayvec::ArrayVec;
use rbg_game::count::action_count;
use rbg_game::game::Game;
use rbg_game::position::{Position, SemiState};
use std::marker::Model;

/// The bytes of a position: at most 234 by the limits of a game.
pub type Packed = ArrayVec<u8, MAX_PACKED>;

/// How the positions of a game are packed. By bytes each piece has one, each value three, the
/// vertex and the role one each and the place two, the highest byte of a number first. By bits each
/// field has the fewest that its greatest value needs.
#[derive(Drop)]
pub struct Packing {
    kind: PackingKind,
    pieces: u8,
    bounds: ArrayVec<u32, 34>,
    vertices: u8,
    actions: u16,
    /// The greatest value of each field.
    greatest: Fields,
    ghost greatest_are: { greatest.items
        ≡ greatest_by (record { pieces = pieces; bounds = bounds.items; vertices = vertices; actions = actions }) },
    ghost small: { IsSmall (record { pieces = pieces; bounds = bounds.items; vertices = vertices; actions = actions }) },
    ghost some_pieces: { 0 < pieces },
    ghost some_vertices: { 0 < vertices },
}

impl Model for Packing {
    ghost use Rattle.position_pack.specs.Packings.{Form};

    ghost Value = { Form };

    ghost view = { λ p. record {
      kind = p.kind;
      shape = record { pieces = p.pieces; bounds = p.bounds.items; vertices = p.vertices; actions = p.actions };
    } };
}

impl Packing {
    /// The packing of a game's positions.
    pub fn new(game: &Game, kind: PackingKind) -> Packing
        requires { IsSoundGame (game_of game.now) }
        ensures { result ≡ form_of kind (game_of game.now) }
    {
        let mut bounds = ArrayVec::new();
        for variable in &game.variables {
            bounds.push(variable.bound);
        }
        let pieces = game.pieces.len() as u8;
        let vertices = game.vertices.len() as u8;
        let actions = action_count(&game.rules) as u16;
        let greatest = greatest_of(pieces, &bounds, vertices, actions);
        Packing {
            kind,
            pieces,
            bounds,
            vertices,
            actions,
            greatest,
        }
    }

    /// The number of bytes of each position.
    pub fn length(&self) -> usize
        ensures { result ≡ length_by self.now.kind self.now.shape }
    {
        match self.kind {
            PackingKind::Bytes => usize::from(self.vertices) + 3 * self.bounds.len() + 4,
            PackingKind::Bits => bits_in(&self.greatest).div_ceil(8),
        }
    }

    /// The bytes of a position.
    #[inline(never)]
    pub fn pack(&self, at: &Position) -> Packed
        ensures { result.items ≡ packed_by self.now.kind self.now.shape at.now }
    {
        let mut writer = new_writer();
        match self.kind {
            PackingKind::Bytes => {
                put_position(&mut writer.bytes, &at.state, at.state.vertex, at.place);
            }
            PackingKind::Bits => self.put_position_bits(&mut writer, at),
        }
        writer.bytes
    }

    /// The position with these bytes, where they are the bytes of a position whose fields are in
    /// their ranges.
    pub fn unpack(&self, bytes: &[u8]) -> Option<Position>
        ensures { MatchOption result ((at : Position) → ¬ IsPacked self.now at bytes.now) (λ at. IsPacked self.now at bytes.now) }
    {
        match self.kind {
            PackingKind::Bytes => self.unpack_bytes(bytes),
            PackingKind::Bits => self.unpack_bits(bytes),
        }
    }

    /// The packing's number.
    pub fn kind(&self) -> PackingKind
        ensures { result ≡ self.now.kind }
    {
        self.kind
    }

    /// What bytes say of one field by itself, by bits, whether they are a position's or not.
    pub fn field(&self, field: usize, bytes: &[u8]) -> u32
        requires { field < length (greatest_by self.now.shape) }
        ensures { result ≡ field_at self.now.shape field bytes.now }
    {
        let place = bits_in(&self.greatest[..field]);
        number_at(bytes, place, width_of(self.greatest[field]))
    }

    /// Writes a position by bits into an empty writer: its parts are read where they lie.
    #[inline(always)]
    fn put_position_bits(&self, writer: &mut Writer, at: &Position)
        requires writer { IsWriter writer.old }
        requires empty { written writer.old ≡ [] }
        ensures { writer.new.bytes.items ≡ bytes_by_bits self.now.shape at.now }
    {
        let state = &at.state;
        if state.pieces.len() != usize::from(self.vertices)
            || state.values.len() != self.bounds.len()
        {
            self.put_packed(&mut writer.bytes, at);
            return;
        }
        let piece = width_of(u32::from(self.pieces - 1));
        put_piece_bits(writer, piece, &state.pieces);
        put_fields(writer, &self.bounds, &state.values);
        put_last_fields(writer, self.vertices, self.actions, at);
        finish(writer);
    }

    /// Puts the bytes by bits of any position in place of these.
    #[inline(never)]
    fn put_packed(&self, bytes: &mut Packed, at: &Position)
        ensures { bytes.new.items ≡ bytes_by_bits self.now.shape at.now }
    {
        *bytes = self.pack_fields(at);
    }

    /// The bytes by bits of any position, by a list of all its fields.
    fn pack_fields(&self, at: &Position) -> Packed
        ensures { result.items ≡ bytes_by_bits self.now.shape at.now }
    {
        bytes_of_fields(&self.greatest, &fields_of(at))
    }

    fn unpack_bits(&self, bytes: &[u8]) -> Option<Position>
        ensures { MatchOption result ((at : Position) → ¬ IsPacked (record { kind = Bits; shape = self.now.shape }) at bytes.now)
            (λ at. IsPacked (record { kind = Bits; shape = self.now.shape }) at bytes.now) }
    {
        if bytes.len() != bits_in(&self.greatest).div_ceil(8) {
            return None;
        }
        let mut fields = Fields::new();
        if !take_fields(&self.greatest, bytes, &mut fields) {
            return None;
        }
        position_of(&fields, usize::from(self.vertices))
    }

    fn unpack_bytes(&self, bytes: &[u8]) -> Option<Position>
        ensures { MatchOption result ((at : Position) → ¬ IsPacked (record { kind = Bytes; shape = self.now.shape }) at bytes.now)
            (λ at. IsPacked (record { kind = Bytes; shape = self.now.shape }) at bytes.now) }
    {
        if bytes.len() != usize::from(self.vertices) + 3 * self.bounds.len() + 4 {
            return None;
        }
        let (pieces, rest) = bytes.split_at(usize::from(self.vertices));
        let (values, rest) = rest.split_at(3 * self.bounds.len());
        if !all_below(pieces, self.pieces) {
            return None;
        }
        let values = values_of(values, &self.bounds)?;
        let vertex = rest[0];
        if vertex >= self.vertices {
            return None;
        }
        let mover = role_of(rest[1])?;
        let place = u16::from_be_bytes([rest[2], rest[3]]);
        if place > self.actions {
            return None;
        }
        let pieces = vector_of(pieces);
        Some(Position {
            state: SemiState {
                mover,
                pieces,
                values,
                vertex,
            },
            place,
        })
    }
}

/// The bytes of a position by packing 1, whatever its game.
pub fn pack_bytes(at: &Position) -> Packed
    ensures { result.items ≡ bytes_of at.now }
{
    pack_bytes_at(&at.state, at.state.vertex, at.place)
}

/// The bytes by packing 1 of the position with this vertex, this place, and else what the semi-state tells.
pub fn pack_bytes_at(state: &SemiState, vertex: u8, place: u16) -> Packed
    ensures { result.items ≡ bytes_of (record { state = record state.now { vertex = vertex }; place = place }) }
{
    let mut bytes = Packed::new();
    put_position(&mut bytes, state, vertex, place);
    bytes
}

/// Puts the bytes by packing 1 of such a position where there are none yet.
fn put_position(bytes: &mut Packed, state: &SemiState, vertex: u8, place: u16)
    requires { bytes.old.items ≡ [] }
    ensures { bytes.new.items ≡ bytes_of (record { state = record state.now { vertex = vertex }; place = place }) }
{
    put_bytes(bytes, &state.pieces);
    put_values(bytes, &state.values);
    bytes.push(vertex);
    bytes.push(role_byte(state.mover));
    put_bytes(bytes, &place.to_be_bytes());
}
