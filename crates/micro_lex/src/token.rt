//! A token: what it is, and where it stands in its line.

/// What a token is.
#[derive(Clone, Copy, Debug, PartialEq, Eq)]
pub enum TokenKind {
    /// A run of at most 32 letters, digits and underscores that does not begin with a digit.
    Name,
    /// A decimal number, or a hexadecimal one after `0x`, below 2^128.
    Number(u128),
    /// `:`
    Colon,
    /// `|`
    Bar,
    /// `=`
    Equals,
    /// `-`, which stands for the trap.
    Minus,
}

/// A token of a line: the bytes from `start` up to, and not with, that at `end`.
#[derive(Clone, Copy, Debug, PartialEq, Eq)]
pub struct Token {
    /// What it is.
    pub kind: TokenKind,
    /// Byte place of its first byte in the line, from 0.
    pub start: usize,
    /// Behind its last byte.
    pub end: usize,
}
