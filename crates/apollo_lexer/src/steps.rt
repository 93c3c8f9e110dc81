// A count of items that are cut.
use ghost_value::{Ghost, Natural};

/// How many items were cut, which contracts alone see: `Steps::zero()` before the first, and `Lexer::next_counted` adds
/// one for each.
pub type Steps = Ghost<Natural>;
