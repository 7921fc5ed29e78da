// Bytes of tags by their kind.
ghost use Rattle.std.specs.Prelude.{◌≡◌};
ghost use Rattle.xml_tags.specs.Bytes.{is_letter, is_tag_byte};

// What a tag name is made of, a bit for each byte: of the bytes below 64, and of those from there below 128.
const TAG_LOW: u64 = 0x07ff600000000000;

const TAG_HIGH: u64 = 0x07fffffe87fffffe;

// Whether a byte is an ASCII letter.
pub fn is_letter(b: u8) -> bool
    ensures { result ≡ is_letter b }
{
    ((b'A' <= b) & (b <= b'Z')) | ((b'a' <= b) & (b <= b'z'))
}

// Whether a tag name may hold a byte: small letters first, which most are.
pub fn is_tag_byte(b: u8) -> bool
    ensures { result ≡ is_tag_byte b }
{
    if (b'a' <= b) & (b <= b'z') {
        return true;
    }
    if b < 64 {
        return (TAG_LOW >> b) & 1 == 1;
    }
    if b < 128 {
        return (TAG_HIGH >> (b - 64)) & 1 == 1;
    }
    false
}
