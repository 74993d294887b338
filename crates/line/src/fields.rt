// A field of a line: found as a part of the line itself, and judged digit by digit.
ghost use Rattle.std.specs.Prelude.{◌≡◌, ◌≤◌};
ghost use Rattle.line.specs.Field.{field_of};
ghost use Rattle.line.specs.Inner.{digits_read, figure_read};

// The bytes between the space at `at` and the following one or the end.
pub fn field(line: &[u8], at: usize) -> &[u8]
    ensures { result.now ≡ field_of line.now at }
{
    if line.len() <= at {
        return &line[0..0];
    }
    let behind = &line[at + 1..];
    let end = behind
        .iter()
        .position(|x| *x == b' ')
        .unwrap_or(behind.len());
    &behind[..end]
}

// The number that exactly `width` digits make, or the index of the first that is wrong: of a byte that is
// no digit, of one too many, or the field's length where there are too few.
pub fn digits(field: &[u8], width: usize) -> Result<u32, usize>
    requires { width ≤ 5 }
    ensures { result ≡ digits_read width field.now }
{
    let mut value: u32 = 0;
    for (i, d) in field.iter().enumerate() {
        if width <= i {
            return Err(i);
        }
        if !d.is_ascii_digit() {
            return Err(i);
        }
        value = value * 10 + u32::from(*d - b'0');
    }
    if field.len() < width {
        return Err(field.len());
    }
    Ok(value)
}

// The figure of `width` digits behind the space at `at`, or the line's offset of what is wrong.
pub fn figure(line: &[u8], at: usize, width: usize) -> Result<u32, usize>
    requires { (at ≤ 19) × (width ≤ 5) }
    ensures { result ≡ figure_read line.now at width }
{
    if line.len() <= at {
        return Err(at);
    }
    if line[at] != b' ' {
        return Err(at);
    }
    digits(field(line, at), width).map_err(|i| at + 1 + i)
}
