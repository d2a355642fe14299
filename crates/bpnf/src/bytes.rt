//! A list of bytes, for types whose contracts see it as a list.

use io_base::Listed;

/// A list of bytes.
pub type Bytes = Listed<u8>;
