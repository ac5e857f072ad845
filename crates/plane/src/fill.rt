// Setting a part of a list of bytes to one value.
ghost use Rattle.std.specs.Prelude.{◌≤◌, length};
ghost use Rattle.plane.specs.Fill.{Filled};

// Sets the bytes from .. to.
pub fn fill(list: &mut [u8], value: u8, from: usize, to: usize)
    requires { (from ≤ to) × (to ≤ length list.old) }
    ensures { Filled value from to list.old list.new }
{
    list[from..to].fill(value);
}
