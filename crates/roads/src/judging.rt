// A line judged at the one zone that it looks at. No record is in sight: whoever has many lines tests soundness once.
ghost use Rattle.std.specs.Prelude.{◌≡◌};
ghost use Rattle.roads.specs.Inner.{one_of_sixteen, missing, asked_of};

use crate::calls::asked;
use card::Refusal;
use wire::Parsed;
use zone::{Command, Zone};

// The zone that is looked at for number n: that one or, where n names none, the last.
pub fn one_of_sixteen(n: usize) -> usize
    ensures { result ≡ one_of_sixteen n }
{
    n.min(15)
}

// The number names no zone, or an absent one. The record's own test is of a number alone; here the zone is at hand.
pub fn is_missing(z: Zone, zone: usize) -> bool
    ensures { result ≡ missing z zone }
{
    (16 <= zone) | !z.present
}

// What a line brings, where its number names a present zone.
pub fn asked_of(z: Zone, zone: usize, parsed: Parsed) -> Result<Command, Refusal>
    ensures { result ≡ asked_of z zone parsed }
{
    if is_missing(z, zone) {
        return Err(Refusal::NoZone);
    }
    asked(parsed)
}
