// A program's input, read from a reader into a lent buffer.

#![tactic(auto)]

ghost use Rattle.std.specs.Prelude.{◌≡◌, ◌≤◌, length, IfOk, IfErr};

use std::io::{self, Read};

// What was read: as much of the input as the buffer has room for, and whether more of it came behind.
#[derive(Clone, Copy)]
pub struct Input<'a> {
    pub bytes: &'a [u8],
    pub more: bool,
}

// A read failed, after so many bytes of the input.
#[derive(Clone, Copy, Debug, PartialEq, Eq)]
pub struct ReadFailed {
    pub length: usize,
}

// Reads until the input ends or the buffer is full, and gives how many bytes it holds.
fn fill<R: Read>(reader: &mut R, buffer: &mut [u8]) -> Result<usize, ReadFailed>
    ensures { IfOk result (λ n. n ≤ length buffer.new) × IfErr result (λ failed. failed.length ≤ length buffer.new) }
{
    let mut length = 0;
    while length < buffer.len() {
        match reader.read(&mut buffer[length..]) {
            Ok(0) => break,
            Ok(n) => length += n,
            Err(_) => return Err(ReadFailed { length }),
        }
    }
    Ok(length)
}

// Whether another byte comes; a read fails after so many bytes.
fn has_more<R: Read>(reader: &mut R, length: usize) -> Result<bool, ReadFailed>
    ensures { IfErr result (λ failed. failed.length ≡ length) }
{
    match reader.read(&mut [0u8; 1]) {
        Ok(n) => Ok(n > 0),
        Err(_) => Err(ReadFailed { length }),
    }
}

// Reads the input into a buffer, and one byte more where that is full. The contract says how many bytes come, not which.
pub fn read_whole_input<'a, R: Read>(
    reader: &mut R,
    buffer: &'a mut [u8],
) -> Result<Input<'a>, ReadFailed>
    ensures { IfOk result (λ input. length input.bytes.now ≤ length buffer.old) × IfErr result (λ failed. failed.length ≤ length buffer.old) }
{
    let length = fill(reader, buffer)?;
    let more = length == buffer.len() && has_more(reader, length)?;
    Ok(Input {
        bytes: &buffer[..length],
        more,
    })
}

// Reads the input, or as much of it as the buffer has room for, and nothing behind that. A read that fails hands on the reader's own error. The contract says
// how many bytes come, not which.
pub fn read_input<'a, R: Read>(reader: &mut R, buffer: &'a mut [u8]) -> io::Result<&'a [u8]>
    ensures { IfOk result (λ input. length input.now ≤ length buffer.old) }
{
    let mut length = 0;
    while length < buffer.len() {
        let n = reader.read(&mut buffer[length..])?;
        if n == 0 {
            break;
        }
        length += n;
    }
    Ok(&buffer[..length])
}

#[cfg(test)]
mod tests;
