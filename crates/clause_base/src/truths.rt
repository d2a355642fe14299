//! Truth values of variables.

use io_base::Listed;

/// A truth value for each variable, in the order of the variables' numbers: the first is that of variable 1.
pub type Truths = Listed<bool>;
