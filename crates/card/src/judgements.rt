// What a zone decides of a call, and what comes of it at that zone. No record is in sight.
ghost use Rattle.std.specs.Prelude.{◌≡◌, true};
ghost use Rattle.zone.specs.Zones.{zone_sound};
ghost use Rattle.card.specs.Calls.{add_at, remove_at, report_at, write_at, command_at, choose_source_at, setpoint_in_use_at, book_at, ship_at};
ghost use Rattle.card.specs.Inner as steps;

use crate::answers::{Answer, Refusal};
use zone::{
    Command, Figures, Origin, SetpointFigures, Source, State, Status, Zone, actual_in_range,
    address_in_range, input_in_range, more_in_range, range_known,
};

// What a zone decides: it refuses, or it tells figures, or it is altered. Its refusal is a case, and no Err beside seven
// others: `answer`, `alters` and `after`, and the definitions that they keep, take it as one of eight.
#[derive(Clone, Copy)]
pub enum Verdict {
    Refuses(Refusal),
    Tells(Figures),
    Writes(Figures),
    Reports(Status),
    Adds(u32, u32),
    Removes,
    Chooses(Origin),
    Rebooks(u32),
}

impl Verdict {
    pub fn answer(self) -> Answer
        ensures { result ≡ steps.answer_by self }
    {
        match self {
            Verdict::Refuses(why) => Answer::Refused(why),
            Verdict::Tells(figures) => Answer::Told(figures),
            _ => Answer::Done,
        }
    }

    // The zone is to be stored anew.
    pub fn alters(self) -> bool
        ensures { result ≡ steps.alters_by self }
    {
        !matches!(self, Verdict::Refuses(_) | Verdict::Tells(_))
    }

    // The zone afterwards.
    pub fn after(self, z: Zone) -> Zone
        ensures { result ≡ steps.after_by self z }
    {
        match self {
            Verdict::Refuses(_) | Verdict::Tells(_) => z,
            Verdict::Writes(figures) => z.with_figures(figures),
            Verdict::Reports(status) => z.with_status(status),
            Verdict::Adds(address, range) => Zone::new(address, range),
            Verdict::Removes => z.emptied(),
            Verdict::Chooses(origin) => z.with_origin(origin),
            Verdict::Rebooks(kilograms) => z.with_kilograms(kilograms),
        }
    }
}

// An addition at a zone; `held` says that some present zone holds the address.
pub fn added(z: Zone, address: u32, range: u32, held: bool) -> Verdict
    ensures { steps.verdict_seen z result ≡ steps.judged z (add_at z address range held) }
{
    if z.present {
        return Verdict::Refuses(Refusal::AlreadyPresent);
    }
    if !(address_in_range(address) & range_known(range)) {
        return Verdict::Refuses(Refusal::OutOfRange);
    }
    if held {
        return Verdict::Refuses(Refusal::AddressHeld);
    }
    Verdict::Adds(address, range)
}

// A removal at a zone, on which no kilograms may stand.
pub fn removed(z: Zone) -> Verdict
    ensures { steps.verdict_seen z result ≡ steps.judged z (remove_at z) }
{
    if z.kilograms != 0 {
        return Verdict::Refuses(Refusal::StillBooked);
    }
    Verdict::Removes
}

// A report at a zone.
pub fn reported(z: Zone, state: u32, actual: u32) -> Verdict
    ensures { steps.verdict_seen z result ≡ steps.judged z (report_at z state actual) }
{
    if !((state <= 3) & actual_in_range(actual)) {
        return Verdict::Refuses(Refusal::OutOfRange);
    }
    Verdict::Reports(Status {
        state: State::from(state),
        actual,
    })
}

// A choice of the source at a zone, with the voltage at its input.
pub fn chosen(z: Zone, source: Source, millivolts: u32) -> Verdict
    ensures { steps.verdict_seen z result ≡ steps.judged z (choose_source_at z source millivolts) }
{
    if !input_in_range(millivolts) {
        return Verdict::Refuses(Refusal::OutOfRange);
    }
    Verdict::Chooses(Origin { source, millivolts })
}

// The setpoint in use, of a zone of a sound record.
pub fn in_use(z: Zone) -> Verdict
    requires { zone_sound z ≡ true }
    ensures { steps.verdict_seen z result ≡ steps.judged z (setpoint_in_use_at z) }
{
    Verdict::Tells(Figures::SolwSetpoint(SetpointFigures {
        setpoint: z.setpoint_in_use(),
    }))
}

// A booking of so many kilograms on a zone.
pub fn booked(z: Zone, kilograms: u32) -> Verdict
    ensures { steps.verdict_seen z result ≡ steps.judged z (book_at z kilograms) }
{
    if (kilograms == 0) | !more_in_range(z.kilograms, kilograms) {
        return Verdict::Refuses(Refusal::BadAmount);
    }
    Verdict::Rebooks(z.kilograms + kilograms)
}

// A shipment of so many of the kilograms on a zone. It shares a refusal with a booking, and neither test nor sum.
pub fn shipped(z: Zone, kilograms: u32) -> Verdict
    ensures { steps.verdict_seen z result ≡ steps.judged z (ship_at z kilograms) }
{
    if (kilograms == 0) | (z.kilograms < kilograms) {
        return Verdict::Refuses(Refusal::BadAmount);
    }
    Verdict::Rebooks(z.kilograms - kilograms)
}

// What a road brings, at a zone: a command, or the refusal that its bytes met with.
pub fn heard(z: Zone, asked: Result<Command, Refusal>) -> Verdict
    ensures { steps.verdict_seen z result ≡ steps.judged z (steps.ask_at z asked) }
{
    match asked {
        Ok(command) => commanded(z, command),
        Err(why) => Verdict::Refuses(why),
    }
}

// A command at a zone.
fn commanded(z: Zone, command: Command) -> Verdict
    ensures { steps.verdict_seen z result ≡ steps.judged z (command_at z command) }
{
    match command {
        Command::Read(group) => Verdict::Tells(z.figures(group)),
        Command::Write(figures) => written(z, figures),
    }
}

fn written(z: Zone, figures: Figures) -> Verdict
    ensures { steps.verdict_seen z result ≡ steps.judged z (write_at z figures) }
{
    if !figures.in_range(z.range) {
        return Verdict::Refuses(Refusal::OutOfRange);
    }
    if z.status.state.locks(figures.group()) {
        return Verdict::Refuses(Refusal::Locked);
    }
    Verdict::Writes(figures)
}
