// Which bytes come, what is left in the reader, and whose error it is: no clause says these.
use super::*;

const ERROR_CODE: i32 = 5;

// Gives a byte a call, and then fails.
#[derive(Drop)]
struct FailsAtEnd {
    bytes: &'static [u8],
}

impl Read for FailsAtEnd {
    fn read(&mut self, buf: &mut [u8]) -> io::Result<usize> {
        if self.bytes.is_empty() {
            return Err(io::Error::from_raw_os_error(ERROR_CODE));
        }
        if buf.is_empty() {
            return Ok(0);
        }
        buf[0] = self.bytes[0];
        self.bytes = &self.bytes[1..];
        Ok(1)
    }
}

#[test]
fn reads_the_input(rt: HostRuntime) {
    let mut buffer = [0u8; 8];
    let input = read_input(&mut &b"abc"[..], &mut buffer);
    assert_eq!(rt; input.ok(), Some(&b"abc"[..]));
}

#[test]
fn reads_nothing_behind_a_full_buffer(rt: HostRuntime) {
    let mut buffer = [0u8; 2];
    let mut reader = &b"abc"[..];
    let input = read_input(&mut reader, &mut buffer);
    assert_eq!(rt; input.ok(), Some(&b"ab"[..]));
    assert_eq!(rt; reader, &b"c"[..]);
    let mut reader = FailsAtEnd { bytes: b"ab" };
    let input = read_input(&mut reader, &mut buffer);
    assert_eq!(rt; input.ok(), Some(&b"ab"[..]));
}

#[test]
fn hands_on_the_readers_error(rt: HostRuntime) {
    let mut buffer = [0u8; 8];
    let mut reader = FailsAtEnd { bytes: b"ab" };
    let input = read_input(&mut reader, &mut buffer);
    assert_eq!(rt;
        input.err().and_then(|error| error.raw_os_error()),
        Some(ERROR_CODE)
    );
}
