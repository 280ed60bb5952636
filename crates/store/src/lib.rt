// Items copied to a place of a slice.
#![tactic(auto)]

ghost use Rattle.std.specs.Prelude.{◌≡◌, ◌+◌, ◌≤◌, length};
ghost use Rattle.digits.specs.Stored.{stored};

// Copies items to a place of a slice, the rest as before. One by one: the library's copy is C's memmove, and the archive for C calls
// nothing but memcpy and memset.
pub fn store<T: Copy>(out: &mut [T], at: usize, items: &[T])
    requires { at + length items.now ≤ length out.old }
    ensures { out.new ≡ stored out.old at items.now }
{
    for i in 0..items.len() {
        out[at + i] = items[i];
    }
}
