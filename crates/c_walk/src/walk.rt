// A walk's cursor and steps as C structs, and a cursor that is made from an index.
ghost use Rattle.std.specs.Prelude.{◌≡◌};
ghost use Rattle.mrd_stream.specs.ReaderMeaning.{step_meaning};
ghost use Rattle.mrd_index_cursor.specs.IndexCursor.{cursor_meaning};
ghost use Rattle.c_walk.specs.WalkStructs.{phase_of, cursor_of, phase_number, c_cursor, c_cursor_answer, c_step};

use crate::checked::Checked;
use c_place::Placed;
use mrd_cursor::Phase;
use mrd_format::Refusal;

// Where a walk stands; the phase by its number.
#[repr(C)]
#[derive(Clone, Copy)]
pub struct Cursor {
    pub number: usize,
    pub start: usize,
    pub phase: u32,
}

// A cursor for a record: with refusal 0 the cursor.
#[repr(C)]
#[derive(Clone, Copy)]
pub struct CursorAnswer {
    pub refusal: u32,
    pub cursor: Cursor,
}

// What one step hands out: `here` and `next`, or where it ended `answer`.
#[repr(C)]
#[derive(Clone, Copy)]
pub struct Step {
    pub ended: bool,
    pub here: Placed,
    pub next: Cursor,
    pub answer: Checked,
}

const START: u32 = 0;

const CONFIGURED: u32 = 1;

const HEADED: u32 = 2;

const CLOSED: u32 = 3;

// The phase with this number; any other number is closed.
#[tactic(auto, unfolding(crate::specs::WalkStructs::phase_of))]
fn phase_of(number: u32) -> Phase
    ensures { result ≡ phase_of number }
{
    match number {
        START => Phase::Start,
        CONFIGURED => Phase::Configured,
        HEADED => Phase::Headed,
        _ => Phase::Closed,
    }
}

fn phase_number(phase: Phase) -> u32
    ensures { result ≡ phase_number phase }
{
    match phase {
        Phase::Start => START,
        Phase::Configured => CONFIGURED,
        Phase::Headed => HEADED,
        Phase::Closed => CLOSED,
    }
}

// The cursor that a walk goes by.
impl From<Cursor> for mrd_cursor::Cursor {
    ghost from_gives = { λ cursor c. c ≡ cursor_of cursor };

    fn from(cursor: Cursor) -> mrd_cursor::Cursor {
        mrd_cursor::Cursor {
            number: cursor.number,
            start: cursor.start,
            phase: phase_of(cursor.phase),
        }
    }
}

impl From<mrd_cursor::Cursor> for Cursor {
    ghost from_gives = { λ cursor r. r ≡ c_cursor cursor };

    fn from(cursor: mrd_cursor::Cursor) -> Cursor {
        let phase = cursor.phase;
        Cursor {
            number: cursor.number,
            start: cursor.start,
            phase: phase_number(phase),
        }
    }
}

impl From<Result<mrd_cursor::Cursor, Refusal>> for CursorAnswer {
    ghost from_gives = { λ answer r. r ≡ c_cursor_answer (cursor_meaning answer) };

    fn from(answer: Result<mrd_cursor::Cursor, Refusal>) -> CursorAnswer {
        match answer {
            Ok(cursor) => CursorAnswer {
                refusal: 0,
                cursor: Cursor::from(cursor),
            },
            Err(refusal) => CursorAnswer {
                refusal: refusal.number() as u32,
                cursor: Cursor {
                    number: 0,
                    start: 0,
                    phase: START,
                },
            },
        }
    }
}

impl From<mrd_stream::Step> for Step {
    ghost from_gives = { λ step r. r ≡ c_step (step_meaning step) };

    fn from(step: mrd_stream::Step) -> Step {
        match step {
            mrd_stream::Step::Message(here, next) => Step {
                ended: false,
                here: Placed::from(here),
                next: Cursor::from(next),
                answer: Checked::new(0, 0, 0, 0),
            },
            mrd_stream::Step::End(answer) => Step {
                ended: true,
                here: Placed::refused(0, 0, 0),
                next: Cursor {
                    number: 0,
                    start: 0,
                    phase: START,
                },
                answer: Checked::from(answer),
            },
        }
    }
}
