// The names of refusals, and the library's version.
ghost use Rattle.std.specs.Prelude.{◌≡◌};
ghost use Rattle.refusals.specs.Names.{naming, after_name};
ghost use Rattle.warnbox.specs.Replies.{reply};
ghost use Rattle.warnbox.specs.Sheets.{drawn_answer};
ghost use Rattle.warnbox.specs.Version.{version};

use crate::replies::{Refused, tell};

fn write_name(buffer: &mut [u8], start: usize, number: u8) -> Result<usize, Refused>
    ensures { (drawn_answer result ≡ naming buffer.old start number) × (buffer.new ≡ after_name buffer.old start number) }
{
    Ok(refusals::write_name(buffer, start, number)?)
}

// Writes the name of a refusal's number; the value is the name's end.
pub fn warnbox_refusal_name(buffer: &mut [u8], start: usize, number: u8, value: &mut usize) -> u8
    ensures { (result ≡ (reply (naming buffer.old start number)).number)
        × (value.new ≡ (reply (naming buffer.old start number)).value)
        × (buffer.new ≡ after_name buffer.old start number) }
{
    tell(write_name(buffer, start, number), value)
}

// The library's version as one number.
pub fn warnbox_version() -> u32
    ensures { result ≡ version }
{
    20_100
}
