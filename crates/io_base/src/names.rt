//! How long the names of files are. This project's own choice.

/// The most bytes of a name that a shelf takes.
pub const NAME_LIMIT: usize = 220;

/// The most bytes of a name that is given on the command line. With a suffix of at most 10 bytes it is still one that a
/// shelf takes, with some to spare.
pub const GIVEN_NAME_LIMIT: usize = 200;
