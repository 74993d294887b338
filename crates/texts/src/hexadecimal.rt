// Bytes in capital hexadecimal digits, read and written.
ghost use Rattle.std.specs.Prelude.{◌≡◌, ◌≤◌, ◌<◌, length};
ghost use Rattle.wire.specs.Room.{Filled};
ghost use Rattle.texts.specs.Numbers.{bytes_read, in_hex, hex_digit};
ghost use Rattle.texts.specs.Inner.{digit_values, counted, count_of};

// What each byte is as a digit: 0 to 9, A to F, or 16 where it is none, and no Option: the table is of bytes (digit_values).
pub fn digit_values() -> [u8; 256]
    ensures { result ≡ digit_values }
{
    let mut values = [16; 256];
    values[48..58].copy_from_slice(&[0, 1, 2, 3, 4, 5, 6, 7, 8, 9]);
    values[65..71].copy_from_slice(&[10, 11, 12, 13, 14, 15]);
    values
}

// The bytes of pairs of digits, put at the front of the room, and how many they are. The room is written by index, here
// and in `put_hex`: of what is written through a `zip` with its parts nothing is known behind the loop.
pub fn unhex(digits: &[u8], values: &[u8; 256], room: &mut [u8]) -> Option<usize>
    requires { (length digits.now ≤ 522) × (values.now ≡ digit_values) × (261 ≤ length room.old) }
    ensures room_after { counted result room.new ≡ bytes_read digits.now }
    ensures result_bound { count_of result ≤ 261 }
{
    let (pairs, []) = digits.as_chunks::<2>() else {
        return None;
    };
    for (i, [high, low]) in pairs.iter().enumerate() {
        let high = values[usize::from(*high)];
        let low = values[usize::from(*low)];
        if (15 < high) | (15 < low) {
            return None;
        }
        room[i] = high * 16 + low;
    }
    Some(pairs.len())
}

fn digit(n: u8) -> u8
    requires { n < 16 }
    ensures { result ≡ hex_digit n }
{
    if n < 10 { 48 + n } else { 55 + n }
}

// The digits of bytes, put at the front of the room.
pub fn put_hex(src: &[u8], room: &mut [u8]) -> usize
    requires { (length src.now ≤ 16) × (32 ≤ length room.old) }
    ensures { Filled (in_hex src.now) room.old room.new result }
{
    for (i, b) in src.iter().enumerate() {
        room[2 * i] = digit(b / 16);
        room[2 * i + 1] = digit(b % 16);
    }
    2 * src.len()
}
