// Bytes by their kind.
ghost use Rattle.std.specs.Prelude.{◌≡◌};
ghost use Rattle.xml.specs.Bytes.{is_control, is_plain};

// Whether a byte is below 0x20 and no tab, line feed or carriage return.
pub fn is_control(b: u8) -> bool
    ensures { result ≡ is_control b }
{
    (b < 0x20) & (b != b'\t') & (b != b'\n') & (b != b'\r')
}

// Whether a byte stands in a text without a fault whatever follows it, and doesn't end it.
pub fn is_plain(b: u8) -> bool
    ensures { result ≡ is_plain b }
{
    !is_control(b) & (b != b'<') & (b != b'&') & (b != b']')
}
