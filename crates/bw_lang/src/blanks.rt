//! The bytes that part what stands in a text.
ghost use Rattle.std.specs.Prelude.{◌≡◌};
ghost use Rattle.bw_lang.specs.Text.Bytes as spec;

/// Whether the byte is a space, a tab, a carriage return or a line feed.
pub fn is_blank(byte: u8) -> bool
    ensures { result ≡ spec.is_blank byte }
{
    b" \t\r\n".contains(&byte)
}

/// Whether a text has spaces, tabs, carriage returns and line feeds alone.
pub fn is_blank_text(text: &str) -> bool
    ensures { result ≡ spec.is_blank_text text.now }
{
    text.as_bytes().iter().all(|byte| is_blank(*byte))
}
