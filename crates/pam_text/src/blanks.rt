//! The bytes that separate words: those of configuration texts, and those of tables.

ghost use Rattle.std.specs.Prelude.{◌≡◌, ◌≤◌, length};
ghost use Rattle.std.specs.List.{prefix_len};
ghost use Rattle.pam_text.specs.Blanks.{is_text_blank, is_table_blank};

/// Whether `byte` is a blank of pam.conf(5) and time.conf(5): a space, a tab or a carriage return.
#[inline(always)]
pub fn is_text_blank(byte: u8) -> bool
    ensures { result ≡ is_text_blank byte }
{
    is_table_blank(byte) || byte == b'\r'
}

/// Whether `byte` is a blank of access.conf(5) and group(5): a space or a tab.
#[inline(always)]
pub fn is_table_blank(byte: u8) -> bool
    ensures { result ≡ is_table_blank byte }
{
    byte == b' ' || byte == b'\t'
}

/// The number of leading blanks of a configuration text.
pub fn text_blank_len(bytes: &[u8]) -> usize
    ensures value { result ≡ prefix_len is_text_blank bytes.now }
    ensures bound { result ≤ length bytes.now }
{
    bytes.iter().take_while(|b| is_text_blank(**b)).count()
}
