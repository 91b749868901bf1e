//! What holds of every file of a table on trees: each function's contract is a law.
ghost use Rattle.std.specs.Prelude.{◌≡◌, ◌≤◌, ℕ, Option};
ghost use Rattle.sector_disk.specs.Disk.{Image};
ghost use Rattle.game_file.specs.Kept.{Kept};
ghost use Rattle.tree_table.specs.Held.{StoresTrees};

/// An image of the disk stores one table at most, of one layout.
pub fn an_image_stores_one_table()
    ensures { (layout also m n : ℕ) (image : Image) (one other : Option Kept) → StoresTrees layout m image one
        → StoresTrees also n image other → (layout ≡ also) × (one ≡ other) }
{}

/// From layout 3 on it stores the table in one number of pages.
pub fn an_image_says_how_many_pages()
    ensures { (layout m n : ℕ) (image : Image) (one other : Option Kept) → 3 ≤ layout → StoresTrees layout m image one
        → StoresTrees layout n image other → m ≡ n }
{}
