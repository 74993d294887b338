// What a line should have at an offset, for people who look at a wrong one.
ghost use Rattle.std.specs.Prelude.{◌≡◌};
ghost use Rattle.line.specs.Inner.{pattern_at};
ghost use Rattle.line.specs.Line.{S};
ghost use Rattle.line.specs.Places.{expected_as, expected_at, expected_in};

use crate::reading::named;
use zone::Group;

#[derive(Clone, Copy)]
pub enum Expects {
    Space,
    Digit,
    // a case of its own, and no None: it is told in words of its own, as the others are
    Nothing,
}

// What a pattern has at an index: a blank for a space, another byte for a digit.
fn in_pattern(pattern: &[u8], i: usize) -> Expects
    ensures { result ≡ pattern_at pattern.now i }
{
    match pattern.get(i) {
        Some(b' ') => Expects::Space,
        Some(_) => Expects::Digit,
        None => Expects::Nothing,
    }
}

// What a write of `length` bytes to a group expects, i bytes behind its five letters.
fn write_expects(group: Group, length: usize, i: usize) -> Expects
    ensures { result ≡ expected_at (expected_as S group length) i }
{
    match group {
        Group::Ahue => {
            if 19 < length {
                in_pattern(b" 0 000 000 000 000", i)
            } else {
                in_pattern(b" 0 000 000 000", i)
            }
        }
        Group::Hzbg | Group::Solw => in_pattern(b" 000", i),
        Group::Rrue => in_pattern(b" 0 000 000", i),
    }
}

// What the line of a known command expects i bytes behind its five letters.
pub fn expected(line: &[u8], i: usize) -> Expects
    ensures { result ≡ expected_at (expected_in line.now) i }
{
    if line.len() < 5 {
        return Expects::Nothing;
    }
    let Some(group) = named(&line[1..5]) else {
        return Expects::Nothing;
    };
    if line[0] == b'L' {
        return Expects::Nothing;
    }
    write_expects(group, line.len(), i)
}
