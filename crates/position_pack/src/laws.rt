//! Laws of the definitions, for readers: each function's contract is one.

ghost use Rattle.position_pack.specs.Laws.{PositionsFit, GamesAreSmall, WidthsAreFewest, BitsArePadded, BytesTell, BytesOrder};
ghost use Rattle.position_pack.specs.Laws.{BytesAreAsMany, FieldsAreRead, PackingIsUndone, TextsTell};

/// A position of a game is one whose fields are in the ranges of the game's shape.
pub fn positions_fit()
    ensures { PositionsFit }
{}

/// A game within its limits has a small shape.
pub fn games_are_small()
    ensures { GamesAreSmall }
{}

/// The bits of a field, by packing 2, are the fewest in which its greatest value has room.
pub fn widths_are_fewest()
    ensures { WidthsAreFewest }
{}

/// The bits of a position by packing 2 fill whole bytes, with zeros after them, fewer than eight.
pub fn bits_are_padded()
    ensures { BitsArePadded }
{}

/// Two positions with the same bytes are the same.
pub fn bytes_tell()
    ensures { BytesTell }
{}

/// The order of the bytes is the dictionary order of the fields.
pub fn bytes_order()
    ensures { BytesOrder }
{}

/// Each position of a game has as many bytes as `Packing::length` says.
pub fn bytes_are_as_many()
    ensures { BytesAreAsMany }
{}

/// Packing and unpacking undo each other.
pub fn packing_is_undone()
    ensures { PackingIsUndone }
{}

/// Each field of a position can be read by itself from its bytes by packing 2.
pub fn fields_are_read()
    ensures { FieldsAreRead }
{}

/// Two positions of a game with the same text are the same.
pub fn texts_tell()
    ensures { TextsTell }
{}
