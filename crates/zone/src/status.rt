// What a report sets: the state, which also decides what may be written, and the actual value.
ghost use Rattle.std.specs.Prelude.{◌≡◌};
ghost use Rattle.zone.specs.Zones.{state_numbered, is_off, locks, actual_in_range};

use crate::figures::Group;

#[derive(Clone, Copy, Default, PartialEq, Eq)]
pub enum State {
    #[default]
    Off,
    On,
    Calibration,
    Error,
}

#[derive(Clone, Copy, Default, PartialEq, Eq)]
pub struct Status {
    pub state: State,
    pub actual: u32,
}

// The state of that number; a number above 3, which no report gets as far as, is Error. No TryFrom: state_numbered
// has a state for each number.
impl From<u32> for State {
    ghost from_gives = { λ number state. state ≡ state_numbered number };

    fn from(number: u32) -> State {
        match number {
            0 => State::Off,
            1 => State::On,
            2 => State::Calibration,
            _ => State::Error,
        }
    }
}

impl State {
    // A write of the group is not permitted in this state.
    pub fn locks(self, group: Group) -> bool
        ensures { result ≡ locks self group }
    {
        match self {
            State::On | State::Calibration => group.lockable(),
            State::Off | State::Error => false,
        }
    }

    // The word of holds_nothing for a state, public for callers; a zone is compared as a whole here.
    pub fn is_off(self) -> bool
        ensures { result ≡ is_off self }
    {
        self == State::Off
    }
}

pub fn actual_in_range(actual: u32) -> bool
    ensures { result ≡ actual_in_range actual }
{
    actual <= 999
}
