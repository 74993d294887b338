// The kilograms that orders reserve on a zone.
ghost use Rattle.std.specs.Prelude.{◌+◌, ◌≡◌};
ghost use Rattle.zone.specs.Zones.{booking_in_range};

pub fn booking_in_range(kilograms: u32) -> bool
    ensures { result ≡ booking_in_range kilograms }
{
    kilograms <= 1000000
}

// Those that are held and so many more are in range together. Any two numbers may be handed in: the sum
// is not formed, and so does not wrap.
pub fn more_in_range(held: u32, more: u32) -> bool
    ensures { result ≡ booking_in_range (held + more) }
{
    if !booking_in_range(more) {
        return false;
    }
    held <= 1000000 - more
}
