// Operations on a row of elements.
ghost use Rattle.std.specs.Prelude.{◌≡◌, length};
ghost use Rattle.field.specs.Mul.{Narrow};
ghost use Rattle.linear.specs.Scalars.{scalars};
ghost use Rattle.linear.specs.Row.{Agree, plus, times};
ghost use Rattle.linear.specs.Buffer.{bytes};

// Adds a multiple of another row. It goes by index over the one: of what `iter_mut` writes under a `zip` nothing is known.
pub fn add_multiple(width: u32, row: &mut [u8], other: &[u8], factor: u8)
    requires { Narrow width × (length row.old ≡ length other.now) }
    ensures { Agree (length row.old) (bytes row.new)
        (plus (scalars width) (bytes row.old) (times (scalars width) factor (bytes other.now))) }
{
    for (i, x) in other.iter().enumerate() {
        row[i] ^= field::mul(width, factor, *x);
    }
}

// Copies a row. By index: the library's copy may be a call of C's `memmove`, which the archive would need from outside.
pub fn copy_row(other: &[u8], row: &mut [u8])
    requires { length row.old ≡ length other.now }
    ensures { row.new ≡ other.now }
{
    for (i, x) in other.iter().enumerate() {
        row[i] = *x;
    }
}

// Multiplies a row.
pub fn scale(width: u32, row: &mut [u8], factor: u8)
    requires { Narrow width }
    ensures { Agree (length row.old) (bytes row.new) (times (scalars width) factor (bytes row.old)) }
{
    for entry in row.iter_mut() {
        *entry = field::mul(width, factor, *entry);
    }
}
