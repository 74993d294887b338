// The command groups, the figures of each, and the commands that carry them.
ghost use Rattle.std.specs.Prelude.{◌≡◌};
ghost use Rattle.zone.specs.Figures.{group_of, each_in_range, opens, in_range, all_zero};
ghost use Rattle.zone.specs.Lists.{within};
ghost use Rattle.zone.specs.Inner.{five, five_fit};
ghost use Rattle.zone.specs.Zones.{lockable};

#[derive(Clone, Copy, PartialEq, Eq)]
pub enum Group {
    Ahue,
    Hzbg,
    Rrue,
    Solw,
}

#[derive(Clone, Copy, Default, PartialEq, Eq)]
pub struct DeadlineFigures {
    pub flag: u32,
    pub lower: u32,
    pub upper: u32,
    pub time: u32,
}

#[derive(Clone, Copy, Default, PartialEq, Eq)]
pub struct WindowFigures {
    pub flag: u32,
    pub lower: u32,
    pub upper: u32,
    pub begin: u32,
    pub end: u32,
}

// Two structs with one figure each: document 01 asks for a struct of figures for each case.
#[derive(Clone, Copy, Default, PartialEq, Eq)]
pub struct LimitFigures {
    pub time: u32,
}

#[derive(Clone, Copy, Default, PartialEq, Eq)]
pub struct ReferenceFigures {
    pub flag: u32,
    pub lower: u32,
    pub upper: u32,
}

#[derive(Clone, Copy, Default, PartialEq, Eq)]
pub struct SetpointFigures {
    pub setpoint: u32,
}

// The figures of a group, in one of the table's forms.
#[derive(Clone, Copy, PartialEq, Eq)]
pub enum Figures {
    AhueDeadline(DeadlineFigures),
    AhueWindow(WindowFigures),
    HzbgLimit(LimitFigures),
    RrueReference(ReferenceFigures),
    SolwSetpoint(SetpointFigures),
}

#[derive(Clone, Copy, PartialEq, Eq)]
pub enum Command {
    Read(Group),
    Write(Figures),
}

impl Group {
    // There are states in which the group may not be written.
    pub fn lockable(self) -> bool
        ensures { result ≡ lockable self }
    {
        self != Group::Solw
    }
}

// A figure with its range.
#[derive(Clone, Copy, PartialEq, Eq)]
pub struct Ranged {
    pub number: u32,
    pub lowest: u32,
    pub highest: u32,
}

fn figure(number: u32, lowest: u32, highest: u32) -> Ranged
    ensures { result ≡ record { number = number; lowest = lowest; highest = highest } }
{
    Ranged {
        number,
        lowest,
        highest,
    }
}

impl Ranged {
    pub fn fits(self) -> bool
        ensures { result ≡ within self.lowest self.highest self.number }
    {
        (self.lowest <= self.number) & (self.number <= self.highest)
    }
}

impl Figures {
    pub fn group(self) -> Group
        ensures { result ≡ group_of self }
    {
        match self {
            Figures::AhueDeadline(_) | Figures::AhueWindow(_) => Group::Ahue,
            Figures::HzbgLimit(_) => Group::Hzbg,
            Figures::RrueReference(_) => Group::Rrue,
            Figures::SolwSetpoint(_) => Group::Solw,
        }
    }

    // The figures in order, each with its range in a zone of that temperature range. A row of fewer
    // than five has zeros behind them, in a range of zero to zero: all rows have one size, without a heap.
    pub fn row(self, range: u32) -> [Ranged; 5]
        ensures { result ≡ five range self }
    {
        let none = figure(0, 0, 0);
        match self {
            Figures::AhueDeadline(f) => [
                figure(f.flag, 0, 1),
                figure(f.lower, 5, 99),
                figure(f.upper, 5, 99),
                figure(f.time, 0, 999),
                none,
            ],
            Figures::AhueWindow(f) => [
                figure(f.flag, 0, 1),
                figure(f.lower, 5, 99),
                figure(f.upper, 5, 99),
                figure(f.begin, 0, 998),
                figure(f.end, 1, 999),
            ],
            Figures::HzbgLimit(f) => [figure(f.time, 0, 999), none, none, none, none],
            Figures::RrueReference(f) => [
                figure(f.flag, 0, 1),
                figure(f.lower, 5, 100),
                figure(f.upper, 5, 100),
                none,
                none,
            ],
            Figures::SolwSetpoint(f) => [figure(f.setpoint, 0, range), none, none, none, none],
        }
    }

    // Which of the five lie in their range.
    pub fn fits(self, range: u32) -> [bool; 5]
        ensures { result ≡ five_fit range self }
    {
        self.row(range).map(Ranged::fits)
    }

    // Each figure lies in its own range, in a zone of that temperature range.
    pub fn each_in_range(self, range: u32) -> bool
        ensures { result ≡ each_in_range range self }
    {
        // no test is passed over, so that there is no branch
        let [a, b, c, d, e] = self.fits(range);
        a & b & c & d & e
    }

    // A window opens before it closes; the other forms have no such rule.
    pub fn opens(self) -> bool
        ensures { result ≡ opens self }
    {
        match self {
            Figures::AhueWindow(f) => f.begin < f.end,
            _ => true,
        }
    }

    // Each figure lies in its own range, and the row's rule is kept.
    #[tactic(auto, unfolding(crate::specs::Figures::in_range))]
    pub fn in_range(self, range: u32) -> bool
        ensures { result ≡ in_range range self }
    {
        self.each_in_range(range) & self.opens()
    }

    // The word of groups_zero for figures, public for callers; a zone is compared as a whole here.
    #[tactic(auto, unfolding(crate::specs::Figures::all_zero))]
    pub fn all_zero(self) -> bool
        ensures { result ≡ all_zero self }
    {
        match self {
            Figures::AhueDeadline(f) => f == DeadlineFigures::default(),
            Figures::AhueWindow(f) => f == WindowFigures::default(),
            Figures::HzbgLimit(f) => f == LimitFigures::default(),
            Figures::RrueReference(f) => f == ReferenceFigures::default(),
            Figures::SolwSetpoint(f) => f == SetpointFigures::default(),
        }
    }
}
