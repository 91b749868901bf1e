//! What a row of a test expects.
use std::fmt::Debug;
use std::test::Fail;

/// A failure if something else was found than was wanted, which says at which row. It takes no handle, as `assert_eq!` does: a function
/// that may end the process takes many times longer to prove.
pub fn expect<T: PartialEq + Debug + Drop, R: Debug + Drop>(
    found: T,
    wanted: T,
    row: R,
) -> Result<(), Fail> {
    if found == wanted {
        return Ok(());
    }
    Err(Fail::new(format_args!("at {row:?}: {found:?}, and not {wanted:?}")))
}
