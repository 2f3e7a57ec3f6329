// Handing entries over to a lent table.
#![tactic(auto)]

ghost use Rattle.std.specs.Prelude.{◌≡◌, ◌++◌, ◌≤◌, length, take, drop};

// The first n of src, put at the start of dst; what stands behind them stays. Not by `copy_from_slice`, which becomes a memmove, since
// the two slices are not known to lie apart: the archive for C is to need memcpy and memset alone.
pub fn copy_front(src: &[u64], n: usize, dst: &mut [u64])
    requires { (n ≤ length src.now) × (n ≤ length dst.old) }
    ensures { dst.new ≡ take n src.now ++ drop n dst.old }
{
    for i in 0..n {
        dst[i] = src[i];
    }
}
