// What a turn of the program leaves to the next one.
ghost use Rattle.std.specs.Prelude.{◌≤◌};

use card::Record;

// How the reading of the log stands: more of it may come, or it has ended, or a read failed.
#[derive(Clone, Copy, PartialEq, Eq)]
pub(crate) enum Log {
    More,
    Ended,
    Failed,
}

// What is kept between two blocks of the log, and how the reading of it stands. Of the line under way no more than 601
// bytes are held.
#[derive(Clone, Copy)]
pub(crate) struct Between {
    pub after: Record,
    pub held: usize,
    pub log: Log,
    ghost few: { held ≤ 601 },
}
