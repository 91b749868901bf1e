//! What holds of the bytes of tables: each function's contract is a law.
ghost use Rattle.std.specs.Prelude.{◌≡◌, ℕ, List, length};
ghost use Rattle.retrograde.specs.Stored.{Stored};
ghost use Rattle.earlier_layouts.specs.Length.{bytes_in};
ghost use Rattle.earlier_layouts.specs.Spelled.{SpellsTable};
ghost use Rattle.game_file.specs.declared.sizes.Sizes.{Sizes};

/// Bytes spell one table at most.
pub fn bytes_spell_one_table()
    ensures { (sizes : Sizes) (bytes text other : List ℕ) (one two : Stored (List ℕ))
        → SpellsTable sizes bytes text one → SpellsTable sizes bytes other two → (text ≡ other) × (one ≡ two) }
{}

/// How many bytes a table takes.
pub fn tables_have_their_length()
    ensures { (sizes : Sizes) (bytes text : List ℕ) (stored : Stored (List ℕ))
        → SpellsTable sizes bytes text stored → length bytes ≡ bytes_in sizes }
{}
