// Decimals, the decimal that stands behind a tab, and a zone with what is for it.
ghost use Rattle.std.specs.Prelude.{◌≡◌, ◌≤◌, length, drop};
ghost use Rattle.texts.specs.Numbers.{decimal_of};
ghost use Rattle.texts.specs.Texts.{zoned};
ghost use Rattle.texts.specs.Inner.{numeral_from, numeral_at, zoned_seen, start_of};

use crate::lines::find;

// The number of a field: no leading zeros and at most 5 digits.
fn decimal(field: &[u8]) -> Option<u32>
    ensures { result ≡ decimal_of field.now }
{
    if field.is_empty() {
        return None;
    }
    if 5 < field.len() {
        return None;
    }
    if (field[0] == b'0') & (1 < field.len()) {
        return None;
    }
    line::digits(field, field.len()).ok()
}

// The decimal from `start` up to the next tab, or to the end of the line, and the index behind it.
fn decimal_from(line: &[u8], start: usize) -> Option<(u32, usize)>
    requires { start ≤ length line.now }
    ensures { result ≡ numeral_from line.now start }
{
    let end = find(line, start, b'\t');
    let value = decimal(&line[start..end])?;
    Some((value, end))
}

// The decimal behind the tab at `at`, and the index behind it.
pub fn behind_tab(line: &[u8], at: usize) -> Option<(u32, usize)>
    ensures { result ≡ numeral_at line.now at }
{
    if line.len() <= at {
        return None;
    }
    if line[at] != b'\t' {
        return None;
    }
    decimal_from(line, at + 1)
}

// The zone that stands from `start` on, and the index behind its tab, where what is for it begins.
pub fn zone_at(line: &[u8], start: usize) -> Option<(usize, usize)>
    requires { start ≤ length line.now }
    ensures result_value { zoned_seen line.now result ≡ zoned (drop start line.now) }
    ensures result_in_bounds { start_of result ≤ length line.now }
{
    let (zone, end) = decimal_from(line, start)?;
    if line.len() <= end {
        return None;
    }
    Some((zone as usize, end + 1))
}
