// The bytes at an offset of a packet.
ghost use Rattle.std.specs.Prelude.{◌≡◌, ◌+◌, ◌≤◌, length, take, drop};

// As many as the caller's array takes, as `u32::from_be_bytes` takes four.
pub fn bytes_at<const N: usize>(p: &[u8], at: usize) -> [u8; N]
    requires { at + N ≤ length p.now }
    ensures { result ≡ take N (drop at p.now) }
{
    *p[at..].first_chunk().unwrap()
}
