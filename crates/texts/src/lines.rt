// Where a byte is first found, where a line of a text ends, and a text line by line.
ghost use Rattle.std.specs.Prelude.{◌≡◌, ◌+◌, ◌≤◌, length, drop};
ghost use Rattle.std.specs.Iterator.{YieldsFirstRef, item_count};
ghost use Rattle.texts.specs.Texts.{line_feed, index_of, lines_of};
ghost use Rattle.texts.specs.Inner.{has_feed};

// The index of the first x from `from` on, or the bytes' length.
pub(crate) fn find(bytes: &[u8], from: usize, x: u8) -> usize
    requires { from ≤ length bytes.now }
    ensures place { result ≡ from + index_of x (drop from bytes.now) }
    ensures bound { result ≤ length bytes.now }
{
    let left = &bytes[from..];
    from + left.iter().position(|y| *y == x).unwrap_or(left.len())
}

// Whether a line feed is among the bytes. Every byte is looked at, so that many can be at once.
fn has_feed(part: &[u8; 16]) -> bool
    ensures { result ≡ has_feed part.now }
{
    part.iter().fold(false, |found, x| found | (*x == b'\n'))
}

// The index of the first line feed from `from` on, or the block's length. Parts of sixteen bytes without one are passed
// whole, and what is left is looked at singly.
pub fn line_end(block: &[u8], from: usize) -> usize
    requires { from ≤ length block.now }
    ensures { result ≡ from + index_of line_feed (drop from block.now) }
{
    let mut at = from;
    while let Some(part) = block[at..].first_chunk::<16>() {
        if has_feed(part) {
            break;
        }
        // `as_chunks::<16>` with `position`, and `split_first_chunk`, are proved too, and slower.
        at += 16;
    }
    find(block, at, b'\n')
}

// What is left of a text, line by line.
#[derive(Drop)]
pub struct Lines<'a> {
    rest: &'a [u8],
}

impl<'a> Lines<'a> {
    // The lines of a text.
    pub fn new(text: &'a [u8]) -> Lines<'a>
        ensures { result.rest.now ≡ text.now }
    {
        Lines { rest: text }
    }
}

impl<'a> Iterator for Lines<'a> {
    type Item = &'a [u8];

    ghost next_gives = { YieldsFirstRef (λ s. lines_of s.rest.now) };

    ghost remaining = { item_count (λ s. lines_of s.rest.now) };

    #[tactic(auto, using(crate::proofs::Turns::no_more, crate::proofs::Turns::within_text, crate::proofs::Turns::turn))]
    fn next(&mut self) -> Option<&'a [u8]> {
        if self.rest.is_empty() {
            return None;
        }
        let (line, rest) = self.rest.split_at(line_end(self.rest, 0));
        self.rest = &rest[rest.len().min(1)..];
        Some(line)
    }
}
