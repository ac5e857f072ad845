// Writing a list of numbers to a lent slice. A listing goes twice over what it lists: to count, writing none, and then to write all.
// The slice, the place m and the bound most are parameters: a struct that holds a lent `&mut` slice has to say in each contract that it still
// holds that slice.
ghost use Rattle.std.specs.Prelude.{[], ◌∷◌, ◌≡◌, ◌+◌, ◌≤◌, length};
ghost use Rattle.plane.specs.Listing.{Lists};

// Puts v at place m of the slice, if m is below most; the next place.
pub fn note(out: &mut [u16], m: usize, v: u16, most: usize) -> usize
    requires { (most ≤ length out.old) × (m ≤ 65535) }
    ensures { (Lists (v ∷ []) most out.old m out.new result) × (result ≡ m + 1) }
{
    if m < most {
        out[m] = v;
    }
    m + 1
}
