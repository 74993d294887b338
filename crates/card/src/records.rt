// The record, its soundness, the look-up of an address, and the calls.
ghost use Rattle.std.specs.Prelude.{◌≡◌, Bool, true, ◌<◌, []};
ghost use Rattle.std.specs.List.{list_any};
ghost use Rattle.zone.specs.Lists.{every, some};
ghost use Rattle.zone.specs.Zones.{zone_otherwise_sound, zone_sound, mended, holds};
ghost use Rattle.zone.specs.declared.zones.Zone.{Zone};
ghost use Rattle.card.specs.declared.judgements.Verdict.{Verdict};
ghost use Rattle.card.specs.Answers.{outcome_seen};
ghost use Rattle.card.specs.Records.{empty_record, zone_at, differ, otherwise_sound, sound, sound_by, find_of, no_zone};
ghost use Rattle.card.specs.Calls.{Judgement, at_zone, add_of, remove_of, report_of, apply_of, choose_source_of, setpoint_in_use_of, book_of, ship_of, merge_of, all_mended, old_ends_from, told_as, repair_seen, repair_of};
ghost use Rattle.card.specs.Inner.{range_at, reach_of, verdict_seen, judged, stored, ask_of};

use crate::answers::{Answer, Refusal};
use crate::judgements::{
    Verdict, added, booked, chosen, heard, in_use, removed, reported, shipped,
};
use zone::{Command, Source, Zone, more_in_range};

#[derive(Clone, Copy)]
pub struct Record {
    pub zones: [Zone; 16],
}

#[derive(Clone, Copy)]
pub struct Outcome {
    pub answer: Answer,
    pub after: Record,
}

// A zone whose window did not open before it closed, and the end that it had.
#[derive(Clone, Copy, PartialEq, Eq)]
pub struct OldEnd {
    pub zone: usize,
    pub end: u32,
}

// As many of the sixteen are told as `count` says, in rising order of the zones; the others are zeros.
// A length beside its buffer, since `told_as` has both and the library uses no heap; so `old_ends` fills it by index.
#[derive(Clone, Copy, PartialEq, Eq)]
pub struct OldEnds {
    pub count: usize,
    pub ends: [OldEnd; 16],
}

#[derive(Clone, Copy)]
pub struct Repaired {
    pub outcome: Outcome,
    pub told: OldEnds,
}

// Some present zone of these holds the address.
fn held_among(zones: &[Zone], address: u32) -> bool
    ensures { result ≡ list_any (holds address) zones.now }
{
    zones.iter().any(|z| z.holds(address))
}

impl OldEnds {
    // No zone is told.
    fn none() -> OldEnds
        ensures { result ≡ told_as [] }
    {
        OldEnds {
            count: 0,
            ends: [OldEnd { zone: 0, end: 0 }; 16],
        }
    }
}

impl Record {
    // A record of absent zones.
    pub fn empty() -> Record
        ensures { result ≡ empty_record }
    {
        Record {
            zones: [Zone::empty(); 16],
        }
    }

    // Every figure, the input and the kilograms of every present zone lie in their ranges, every window
    // opens before it closes, addresses differ and absent zones are empty.
    pub fn is_sound(self) -> bool
        ensures { result ≡ sound self }
    {
        self.sound_by(|z| z.is_sound())
    }

    // Soundness without the rule for windows.
    fn is_otherwise_sound(self) -> bool
        ensures { result ≡ otherwise_sound self }
    {
        self.sound_by(|z| z.is_otherwise_sound())
    }

    // Soundness, by what is asked of each zone.
    fn sound_by<F: Fn(Zone) -> bool>(&self, zone: F) -> bool
        requires { F.IsAlwaysCallable zone }
        ensures { (test : Zone → Bool) → ((z : Zone) (b : Bool) → F.post zone z b → b ≡ test z) → result ≡ sound_by test self.now }
    {
        self.zones.iter().all(|z| zone(*z)) & self.addresses_differ()
    }

    // No present zone's address is held by a later one.
    fn addresses_differ(&self) -> bool
        ensures { result ≡ differ self.now.zones }
    {
        let mut ok = true;
        let mut zones = self.zones.as_slice();
        while let Some((z, later)) = zones.split_first() {
            ok = ok & !(z.present & held_among(later, z.address));
            zones = later;
        }
        ok
    }

    // The first zone, from 0 upward, that holds the address.
    pub fn find(self, address: u32) -> Option<usize>
        ensures { result ≡ find_of self address }
    {
        // The loop that document 01 names for this search: it breaks with the zone's number, or with none.
        let mut i: usize = 0;
        loop {
            if 16 <= i {
                break None;
            }
            if self.zones[i].holds(address) {
                break Some(i);
            }
            i += 1;
        }
    }

    // Some present zone holds the address.
    fn is_held(self, address: u32) -> bool
        ensures { result ≡ some (holds address) self.zones }
    {
        self.find(address).is_some()
    }

    // The temperature range that the record has for a zone number; 0 above 15, as in range_at, and so no Option.
    pub fn range_at(self, zone: usize) -> u32
        ensures { result ≡ range_at self zone }
    {
        self.zones.get(zone).map_or(0, |z| z.range)
    }

    // The number names no zone, or an absent one.
    fn is_missing(self, zone: usize) -> bool
        ensures { result ≡ no_zone self zone }
    {
        self.zones.get(zone).is_none_or(|z| !z.present)
    }

    // The zone that a call is to work on: a present one of a sound record.
    fn reach(self, zone: usize) -> Result<Zone, Refusal>
        ensures { result ≡ reach_of self zone }
    {
        if !self.is_sound() {
            return Err(Refusal::NotSound);
        }
        if self.is_missing(zone) {
            return Err(Refusal::NoZone);
        }
        Ok(self.zones[zone])
    }

    // A refusal hands back the record it was given.
    fn refused(self, why: Refusal) -> Outcome
        ensures { result ≡ record { answer = Answer.Refused why; after = self } }
    {
        Outcome {
            answer: Answer::Refused(why),
            after: self,
        }
    }

    // The one place where a call at a zone stores to the record.
    fn changed(mut self, zone: usize, verdict: Verdict) -> Outcome
        requires { zone < 16 }
        ensures { outcome_seen result ≡ stored self zone (verdict_seen (zone_at self zone) verdict) }
    {
        self.zones[zone] = verdict.after(self.zones[zone]);
        Outcome {
            answer: verdict.answer(),
            after: self,
        }
    }

    // A call at a zone: where the zone is there, what it decides by that rule is stored.
    fn at<F: FnOnce(Zone) -> Verdict>(self, zone: usize, rule: F) -> Outcome
        requires { (z : Zone) → zone_sound z ≡ true → F.pre rule z }
        ensures { (j : Judgement) → ((v : Verdict) → F.post rule (zone_at self zone) v → verdict_seen (zone_at self zone) v ≡ judged (zone_at self zone) j) → outcome_seen result ≡ at_zone self zone j }
    {
        match self.reach(zone) {
            Err(why) => self.refused(why),
            Ok(z) => self.changed(zone, rule(z)),
        }
    }

    // A new zone, with that address and that temperature range.
    pub fn add(self, zone: usize, address: u32, range: u32) -> Outcome
        ensures { outcome_seen result ≡ add_of self zone address range }
    {
        if !self.is_sound() {
            return self.refused(Refusal::NotSound);
        }
        let Some(z) = self.zones.get(zone) else {
            return self.refused(Refusal::NoZone);
        };
        self.changed(zone, added(*z, address, range, self.is_held(address)))
    }

    // The zone, on which no kilograms may stand, is emptied; its number and its address may be used
    // again.
    pub fn remove(self, zone: usize) -> Outcome
        ensures { outcome_seen result ≡ remove_of self zone }
    {
        self.at(zone, |z| removed(z))
    }

    // The zone's state, by its number, and its actual value.
    pub fn report(self, zone: usize, state: u32, actual: u32) -> Outcome
        ensures { outcome_seen result ≡ report_of self zone state actual }
    {
        self.at(zone, |z| reported(z, state, actual))
    }

    // A command that came by either road. A read answers with its figures.
    pub fn apply(self, zone: usize, command: Command) -> Outcome
        ensures { outcome_seen result ≡ apply_of self zone command }
    {
        self.ask(zone, Ok(command))
    }

    // What a road brings to a zone: for a command the answer of `apply`, and else the refusal, unless
    // the record or the zone is refused first.
    pub fn ask(self, zone: usize, asked: Result<Command, Refusal>) -> Outcome
        ensures { outcome_seen result ≡ ask_of self zone asked }
    {
        self.at(zone, |z| heard(z, asked))
    }

    // Sets the zone's source, interface or voltage, and the voltage at its input. Every state permits
    // it.
    pub fn choose_source(self, zone: usize, source: Source, millivolts: u32) -> Outcome
        ensures { outcome_seen result ≡ choose_source_of self zone source millivolts }
    {
        self.at(zone, |z| chosen(z, source, millivolts))
    }

    // Answers with the zone's setpoint in use: the commanded one, or that of the voltage at its input.
    pub fn setpoint_in_use(self, zone: usize) -> Outcome
        ensures { outcome_seen result ≡ setpoint_in_use_of self zone }
    {
        self.at(zone, |z| in_use(z))
    }

    // An order reserves so many kilograms on the zone, on top of those that it holds.
    pub fn book(self, zone: usize, kilograms: u32) -> Outcome
        ensures { outcome_seen result ≡ book_of self zone kilograms }
    {
        self.at(zone, |z| booked(z, kilograms))
    }

    // So many of the kilograms that the zone holds are shipped.
    pub fn ship(self, zone: usize, kilograms: u32) -> Outcome
        ensures { outcome_seen result ≡ ship_of self zone kilograms }
    {
        self.at(zone, |z| shipped(z, kilograms))
    }

    // Zone a is folded into zone b: all its kilograms move to b, and it is removed.
    pub fn merge(self, a: usize, b: usize) -> Outcome
        ensures { outcome_seen result ≡ merge_of self a b }
    {
        if !self.is_sound() {
            return self.refused(Refusal::NotSound);
        }
        if self.is_missing(a) | self.is_missing(b) {
            return self.refused(Refusal::NoZone);
        }
        if a == b {
            return self.refused(Refusal::SameZone);
        }
        let from = self.zones[a];
        let into = self.zones[b];
        if !more_in_range(into.kilograms, from.kilograms) {
            return self.refused(Refusal::BadAmount);
        }
        let summed = self.changed(b, Verdict::Rebooks(into.kilograms + from.kilograms));
        summed.after.changed(a, Verdict::Removes)
    }

    // The zones whose window does not open before it closes, with its end.
    fn old_ends(self) -> OldEnds
        ensures { result ≡ told_as (old_ends_from 0 self.zones) }
    {
        let mut told = OldEnds::none();
        for (zone, z) in self.zones.iter().enumerate() {
            if !z.window_opens() {
                told.ends[told.count] = OldEnd {
                    zone,
                    end: z.window_end(),
                };
                told.count += 1;
            }
        }
        told
    }

    // Each zone, mended if its window does not open before it closes.
    fn all_mended(mut self) -> Record
        requires { every zone_otherwise_sound self.zones ≡ true }
        ensures { result ≡ all_mended self }
    {
        for z in self.zones.iter_mut() {
            *z = z.mended();
        }
        self
    }

    // The end of each window that does not open before it closes is set to its begin + 1, and those
    // zones are told with their old ends. A record with another fault is refused, and nothing is told.
    pub fn repair(self) -> Repaired
        ensures { repair_seen result ≡ repair_of self }
    {
        if !self.is_otherwise_sound() {
            return Repaired {
                outcome: self.refused(Refusal::NotSound),
                told: OldEnds::none(),
            };
        }
        Repaired {
            outcome: Outcome {
                answer: Answer::Done,
                after: self.all_mended(),
            },
            told: self.old_ends(),
        }
    }
}
