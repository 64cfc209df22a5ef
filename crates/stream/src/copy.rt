// The copy of a part.
ghost use Rattle.std.specs.Prelude.{◌≡◌, ◌++◌, ◌≤◌, length, drop};

// src at the beginning of dst.
pub fn copy_into(src: &[u8], dst: &mut [u8])
    requires { length src.now ≤ length dst.old }
    ensures { dst.new ≡ src.now ++ drop (length src.now) dst.old }
{
    // `copy_from_slice` would be plainer, but is a call of memcpy, which costs short texts up to a quarter of an evaluate call.
    for j in 0..src.len() {
        dst[j] = src[j];
    }
}
