// Who sets the temperature: the interface, by commands, or the voltage at a zone's input.
ghost use Rattle.std.specs.Prelude.{◌≡◌, ◌≤◌};
ghost use Rattle.zone.specs.Sources.{input_in_range, is_new, by_voltage};

#[derive(Clone, Copy, Default, PartialEq, Eq)]
pub enum Source {
    #[default]
    Interface,
    Voltage,
}

// Where a zone's setpoint in use comes from: the chosen source, and the voltage at its input.
#[derive(Clone, Copy, Default, PartialEq, Eq)]
pub struct Origin {
    pub source: Source,
    pub millivolts: u32,
}

impl Origin {
    // It is that of a new zone, and of an absent one: the word of holds_nothing for an origin, public for callers;
    // a zone is compared as a whole here.
    pub fn is_new(self) -> bool
        ensures { result ≡ is_new self }
    {
        self == Origin::default()
    }
}

pub fn input_in_range(millivolts: u32) -> bool
    ensures { result ≡ input_in_range millivolts }
{
    millivolts <= 10000
}

// What the voltage at the input comes to, in a zone of that temperature range: 10 V mean all of it.
// What it asks for keeps the product within 32 bits.
pub fn by_voltage(millivolts: u32, range: u32) -> u32
    requires millivolts_bound { millivolts ≤ 10000 }
    requires range_bound { range ≤ 500 }
    ensures { result ≡ by_voltage millivolts range }
{
    millivolts * range / 10000
}
