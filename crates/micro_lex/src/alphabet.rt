//! The bytes of a line by their use.

ghost use Rattle.std.specs.Prelude.{◌≡◌, ◌≤◌, length};
ghost use Rattle.std.specs.List.{list_all, prefix_len};
ghost use Rattle.std.specs.Char.{is_ascii_digit, is_ascii_hexdigit};
ghost use Rattle.micro_lex.specs.Alphabet.{is_run_byte, is_space};

/// Whether a byte is of a run: an ASCII letter, a digit or an underscore.
pub fn is_run_byte(byte: u8) -> bool
    ensures { result ≡ is_run_byte byte }
{
    byte.is_ascii_digit() || byte.is_ascii_uppercase() || byte.is_ascii_lowercase() || byte == b'_'
}

/// Whether a byte is a space or a tab, which separate tokens.
pub fn is_space(byte: u8) -> bool
    ensures { result ≡ is_space byte }
{
    byte == b' ' || byte == b'\t'
}

/// Whether all bytes are decimal digits.
pub fn are_digits(run: &[u8]) -> bool
    ensures { result ≡ list_all is_ascii_digit run.now }
{
    run.iter().all(|byte| byte.is_ascii_digit())
}

/// Whether all bytes are hexadecimal digits, in either case.
pub fn are_hex_digits(run: &[u8]) -> bool
    ensures { result ≡ list_all is_ascii_hexdigit run.now }
{
    run.iter().all(|byte| byte.is_ascii_hexdigit())
}

/// How many bytes of a run stand at the front.
pub fn run_len(bytes: &[u8]) -> usize
    ensures len { result ≡ prefix_len is_run_byte bytes.now }
    ensures within { result ≤ length bytes.now }
{
    bytes.iter().take_while(|byte| is_run_byte(**byte)).count()
}
