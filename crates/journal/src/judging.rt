// What an entry comes to at the one zone that it looks at. No record is in sight.
ghost use Rattle.std.specs.Prelude.{◌≡◌, ◌<◌, not};
ghost use Rattle.card.specs.Inner as card;
ghost use Rattle.roads.specs.Calls.{is_nowhere, zone_found};
ghost use Rattle.journal.specs.Inner as steps;

use crate::asking::Entry;
use card::{Refusal, Verdict, added, heard, removed, reported};
use frame::Framed;
use roads::{asked_of, is_missing, one_of_sixteen};
use zone::{Command, Zone};

// The address that is to be looked up, if one is.
pub fn whom(entry: Entry) -> Option<u32>
    ensures { result ≡ steps.sought_of entry }
{
    match entry {
        Entry::Add(_, address, _) => Some(address),
        Entry::Frame(Framed::BadSum(address) | Framed::Request(address, _)) => Some(u32::from(
            address,
        )),
        _ => None,
    }
}

// 16, as the definition of that name has it, where there is none.
fn zone_found(found: Option<usize>) -> usize
    ensures { result ≡ zone_found found }
{
    found.unwrap_or(16)
}

// The zone that is looked at: where the entry reaches none, the last one, which then stays as it is.
pub fn place(entry: Entry, found: Option<usize>) -> usize
    ensures value { result ≡ steps.place_of entry found }
    ensures upper_bound { result < 16 }
{
    match entry {
        Entry::Add(zone, _, _)
        | Entry::Remove(zone)
        | Entry::Report(zone, _, _)
        | Entry::Text(zone, _) => one_of_sixteen(zone),
        Entry::Frame(_) => one_of_sixteen(zone_found(found)),
        Entry::Unreadable => 15,
    }
}

fn is_held(found: Option<usize>) -> bool
    ensures { result ≡ not (is_nowhere found) }
{
    found.is_some()
}

// What a frame brings, where somebody holds its address.
fn asked_of_holder(
    found: Option<usize>,
    asked: Result<Command, Refusal>,
) -> Result<Command, Refusal>
    ensures { result ≡ steps.asked_of_holder found asked }
{
    found.ok_or(Refusal::NobodyHolds).and(asked)
}

fn asked_framed(framed: Framed, found: Option<usize>) -> Result<Command, Refusal>
    ensures { result ≡ steps.asked_framed framed found }
{
    match framed {
        Framed::NoFrame => Err(Refusal::NoFrame),
        Framed::BadSum(_) => asked_of_holder(found, Err(Refusal::Checksum)),
        Framed::Request(_, parsed) => asked_of_holder(found, roads::asked(parsed)),
    }
}

// How an entry is refused where the record is not sound.
fn unfit(entry: Entry) -> Refusal
    ensures { result ≡ steps.unfit_of entry }
{
    match entry {
        Entry::Unreadable => Refusal::Unreadable,
        _ => Refusal::NotSound,
    }
}

// The entry, judged; `fit` says that the record is sound. What comes by either road is heard in one place.
pub fn judged(fit: bool, entry: Entry, found: Option<usize>, z: Zone) -> Verdict
    ensures { card.verdict_seen z result ≡ card.judged z (steps.entry_judged fit entry found z) }
{
    if !fit {
        return Verdict::Refuses(unfit(entry));
    }
    let asked = match entry {
        Entry::Add(zone, _, _) if 16 <= zone => return Verdict::Refuses(Refusal::NoZone),
        Entry::Remove(zone) | Entry::Report(zone, _, _) if is_missing(z, zone) => {
            return Verdict::Refuses(Refusal::NoZone);
        }
        Entry::Add(_, address, range) => return added(z, address, range, is_held(found)),
        Entry::Remove(_) => return removed(z),
        Entry::Report(_, state, actual) => return reported(z, state, actual),
        Entry::Text(zone, parsed) => asked_of(z, zone, parsed),
        Entry::Frame(framed) => asked_framed(framed, found),
        Entry::Unreadable => Err(Refusal::Unreadable),
    };
    heard(z, asked)
}
