//! Why a line of a refutation is refused.

/// Why a line of a refutation is refused. The tests of a line are made in this order.
#[derive(Clone, Copy, PartialEq, Eq, Debug)]
pub enum Why {
    /// The line is not of the form, a number in it is above 2^32 - 1, or the text ends inside it.
    Text,
    /// An earlier line has no literal.
    After,
    /// The line's number does not follow that of the line before it.
    Number,
    /// A literal is of no variable of the list, or a variable comes twice.
    Literal,
    /// There is no hint, or a hint is not below the line's number.
    Hint,
    /// A hint before the last is no unit clause.
    NotUnit,
    /// The last hint is no false clause.
    NotFalse,
}
