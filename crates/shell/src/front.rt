// The first bytes of a buffer, as many as a text has.
ghost use Rattle.std.specs.Prelude.{◌≡◌, take};

// The first `n` bytes, or all where there are fewer.
pub fn front(buf: &[u8], n: usize) -> &[u8]
    ensures { result.now ≡ take n buf.now }
{
    let inside = n <= buf.len();
    if inside {
        return &buf[..n];
    }
    buf
}
