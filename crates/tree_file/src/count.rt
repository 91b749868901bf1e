//! Entries are counted.
ghost use Rattle.std.specs.Prelude.{◌≡◌, length};
ghost use Rattle.tree_file.specs.lemmas.Told.{IsPastCount};

use btree::walk::{Refused, Visitor};

/// How many entries were told.
#[derive(Drop)]
pub struct Count {
    pub count: u64,
}

impl Visitor for Count {
    ghost told = { λ v es. length es ≡ v.count };

    ghost refuses = { λ _ es item. IsPastCount es item };

    fn entry(&mut self, _key: &[u8], _value: &[u8]) -> Result<(), Refused> {
        self.count = self.count.checked_add(1).ok_or(Refused)?;
        Ok(())
    }
}
