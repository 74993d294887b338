// What a zone is and what can be said to it.
//
// A zone goes in by value and comes back by value; no function here knows of another zone. What is
// right is written in specs/: Table.antt has document 01's table of command groups, Figures.antt when a
// group's figures are in range, Sources.antt who sets the temperature, Zones.antt the zone itself.
#![tactic(auto)]

mod bookings;
mod figures;
mod sources;
mod status;
mod zones;

pub use bookings::more_in_range;
pub use figures::{
    Command, DeadlineFigures, Figures, Group, LimitFigures, Ranged, ReferenceFigures,
    SetpointFigures, WindowFigures,
};
pub use sources::{Origin, Source, input_in_range};
pub use status::{State, Status, actual_in_range};
pub use zones::{Settings, Watch, Zone, address_in_range, range_known};
