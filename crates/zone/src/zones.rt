// The zone: what it keeps, when it is sound, what is read from it and written to it, how it is mended.
ghost use Rattle.std.specs.Prelude.{◌≡◌, true, ◌<◌};
ghost use Rattle.zone.specs.Inner.{begin_of};
ghost use Rattle.zone.specs.Sources.{setpoint_in_use};
ghost use Rattle.zone.specs.Zones.{watch_figures, figures_of, new_zone, empty_zone, address_in_range, range_known, groups_each_in_range, present_otherwise_sound, zone_otherwise_sound, window_opens, zone_sound, holds, with_status, with_origin, with_kilograms, with_figures, opened_watch, mended, end_of};

use crate::bookings::booking_in_range;
use crate::figures::{
    DeadlineFigures, Figures, Group, LimitFigures, ReferenceFigures, SetpointFigures, WindowFigures,
};
use crate::sources::{Origin, Source, by_voltage, input_in_range};
use crate::status::{State, Status, actual_in_range};

// The heating watch: a deadline or a window, each with its own figures.
#[derive(Clone, Copy, PartialEq, Eq)]
pub enum Watch {
    Deadline(DeadlineFigures),
    Window(WindowFigures),
}

// What is written besides the heating watch.
#[derive(Clone, Copy, Default, PartialEq, Eq)]
pub struct Settings {
    pub limit: LimitFigures,
    pub reference: ReferenceFigures,
    pub setpoint: SetpointFigures,
}

#[derive(Clone, Copy, PartialEq, Eq)]
pub struct Zone {
    // A flag, and no Option round the rest: "absent zones are empty" is asked of what an absent zone holds (zone_sound).
    pub present: bool,
    pub address: u32,
    pub range: u32,
    pub status: Status,
    pub watch: Watch,
    pub settings: Settings,
    pub origin: Origin,
    pub kilograms: u32,
}

impl Watch {
    fn figures(self) -> Figures
        ensures { result ≡ watch_figures self }
    {
        match self {
            Watch::Deadline(f) => Figures::AhueDeadline(f),
            Watch::Window(f) => Figures::AhueWindow(f),
        }
    }

    // The watch with a window's end set to its begin + 1; a deadline stays as it is.
    fn opened(self) -> Watch
        requires { begin_of self < 999 }
        ensures { result ≡ opened_watch self }
    {
        match self {
            Watch::Deadline(_) => self,
            Watch::Window(f) => Watch::Window(WindowFigures {
                end: f.begin + 1,
                ..f
            }),
        }
    }

    // 0 for a deadline, and no Option: end_of is a number for each watch.
    fn end(self) -> u32
        ensures { result ≡ end_of self }
    {
        match self {
            Watch::Deadline(_) => 0,
            Watch::Window(f) => f.end,
        }
    }
}

pub fn address_in_range(address: u32) -> bool
    ensures { result ≡ address_in_range address }
{
    (1 <= address) & (address <= 254)
}

pub fn range_known(range: u32) -> bool
    ensures { result ≡ range_known range }
{
    (range == 300) | (range == 500)
}

impl Zone {
    // A zone that was just added.
    pub fn new(address: u32, range: u32) -> Zone
        ensures { result ≡ new_zone address range }
    {
        Zone {
            present: true,
            address,
            range,
            status: Status::default(),
            watch: Watch::Deadline(DeadlineFigures {
                flag: 0,
                lower: 10,
                upper: 10,
                time: 10,
            }),
            settings: Settings {
                limit: LimitFigures { time: 0 },
                reference: ReferenceFigures {
                    flag: 0,
                    lower: 10,
                    upper: 10,
                },
                setpoint: SetpointFigures { setpoint: 0 },
            },
            origin: Origin::default(),
            kilograms: 0,
        }
    }

    // An absent zone: it holds nothing. It is no derived Default, which Watch cannot have: both its
    // variants hold figures.
    pub fn empty() -> Zone
        ensures { result ≡ empty_zone }
    {
        Zone {
            present: false,
            address: 0,
            range: 0,
            status: Status::default(),
            watch: Watch::Deadline(DeadlineFigures::default()),
            settings: Settings::default(),
            origin: Origin::default(),
            kilograms: 0,
        }
    }

    // The zone as a removal leaves it.
    pub fn emptied(self) -> Zone
        ensures { result ≡ empty_zone }
    {
        Zone::empty()
    }

    // A present zone with that address.
    pub fn holds(self, address: u32) -> bool
        ensures { result ≡ holds address self }
    {
        self.present & (self.address == address)
    }

    // The figures of a group, as the zone keeps them.
    pub fn figures(self, group: Group) -> Figures
        ensures { result ≡ figures_of self group }
    {
        match group {
            Group::Ahue => self.watch.figures(),
            Group::Hzbg => Figures::HzbgLimit(self.settings.limit),
            Group::Rrue => Figures::RrueReference(self.settings.reference),
            Group::Solw => Figures::SolwSetpoint(self.settings.setpoint),
        }
    }

    // The zone with the figures of one group set.
    pub fn with_figures(mut self, figures: Figures) -> Zone
        ensures { result ≡ with_figures self figures }
    {
        match figures {
            Figures::AhueDeadline(f) => self.watch = Watch::Deadline(f),
            Figures::AhueWindow(f) => self.watch = Watch::Window(f),
            Figures::HzbgLimit(f) => self.settings.limit = f,
            Figures::RrueReference(f) => self.settings.reference = f,
            Figures::SolwSetpoint(f) => self.settings.setpoint = f,
        }
        self
    }

    // The setters are one for each part, as their definitions are.
    // The zone as a report leaves it.
    pub fn with_status(mut self, status: Status) -> Zone
        ensures { result ≡ with_status self status }
    {
        self.status = status;
        self
    }

    // The zone with its source and its input set.
    pub fn with_origin(mut self, origin: Origin) -> Zone
        ensures { result ≡ with_origin self origin }
    {
        self.origin = origin;
        self
    }

    // The zone with so many kilograms on it.
    pub fn with_kilograms(mut self, kilograms: u32) -> Zone
        ensures { result ≡ with_kilograms self kilograms }
    {
        self.kilograms = kilograms;
        self
    }

    // The setpoint in use, of a zone of a sound record: the commanded one, or that of the voltage.
    #[tactic(auto, using(crate::proofs::InUse::small))]
    pub fn setpoint_in_use(self) -> u32
        requires { zone_sound self ≡ true }
        ensures { result ≡ setpoint_in_use self }
    {
        match self.origin.source {
            Source::Interface => self.settings.setpoint.setpoint,
            Source::Voltage => by_voltage(self.origin.millivolts, self.range),
        }
    }

    // The zone's window, if it has one, opens before it closes.
    pub fn window_opens(self) -> bool
        ensures { result ≡ window_opens self }
    {
        self.figures(Group::Ahue).opens()
    }

    // The end of the zone's window; 0 where it has none, as in end_of, and so no Option.
    pub fn window_end(self) -> u32
        ensures { result ≡ end_of self.watch }
    {
        self.watch.end()
    }

    // The zone with the end of a window that does not open before it closes set to its begin + 1.
    #[tactic(auto, using(crate::proofs::Mended::begin_below))]
    pub fn mended(mut self) -> Zone
        requires { zone_otherwise_sound self ≡ true }
        ensures { result ≡ mended self }
    {
        if !self.window_opens() {
            self.watch = self.watch.opened();
        }
        self
    }

    // What a sound record asks of a zone.
    #[tactic(auto, unfolding(crate::specs::Zones::zone_sound))]
    pub fn is_sound(self) -> bool
        ensures { result ≡ zone_sound self }
    {
        self.is_otherwise_sound() & self.window_opens()
    }

    // Soundness without the rule for windows: a present zone has every figure, its input and its
    // kilograms in their ranges, and an absent one is empty.
    #[tactic(auto, using(crate::proofs::Empty::same_empty), unfolding(crate::specs::Zones::zone_otherwise_sound))]
    pub fn is_otherwise_sound(self) -> bool
        ensures { result ≡ zone_otherwise_sound self }
    {
        if self.present {
            self.present_otherwise_sound()
        } else {
            self == Zone::empty()
        }
    }

    fn present_otherwise_sound(self) -> bool
        ensures { result ≡ present_otherwise_sound self }
    {
        address_in_range(self.address)
            & range_known(self.range)
            & actual_in_range(self.status.actual)
            & input_in_range(self.origin.millivolts)
            & booking_in_range(self.kilograms)
            & self.groups_each_in_range()
    }

    // The four by name: an array of them would say no more.
    fn groups_each_in_range(self) -> bool
        ensures { result ≡ groups_each_in_range self }
    {
        self.figures(Group::Ahue).each_in_range(self.range)
            & self.figures(Group::Hzbg).each_in_range(self.range)
            & self.figures(Group::Rrue).each_in_range(self.range)
            & self.figures(Group::Solw).each_in_range(self.range)
    }
}
