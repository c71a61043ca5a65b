// Is it a stream, and where are its records?
ghost use Rattle.std.specs.Prelude.{◌≡◌};
ghost use Rattle.mrd_cursor.specs.Cursors.{beginning};
ghost use Rattle.mrd_stream.specs.Places.{place, step};
ghost use Rattle.mrd_stream.specs.Walk.{from};
ghost use Rattle.mrd_stream.specs.Walk.{verdict, answer};
ghost use Rattle.c_walk.specs.WalkStructs.{c_checked};
ghost use Rattle.c_place.specs.PlacedStruct.{c_placed};
ghost use Rattle.c_walk.specs.WalkStructs.{cursor_of, c_cursor, c_step};
ghost use Rattle.c_rules.specs.RulesStruct.{rules_of};

use c_place::Placed;
use c_rules::Rules;
use c_walk::{Checked, Cursor, Step};

// Checks a whole stream.
#[unsafe(no_mangle)]
pub extern "C" fn mrd_check(rules: Rules, stream: &[u8]) -> Checked
    ensures { result ≡ c_checked (answer (rules_of rules) stream.now) }
{
    Checked::from(mrd_stream::check(rules.into(), stream))
}

// The place and kind of record n.
#[unsafe(no_mangle)]
pub extern "C" fn mrd_place(rules: Rules, stream: &[u8], n: usize) -> Placed
    ensures { result ≡ c_placed (place (rules_of rules) stream.now n) }
{
    Placed::from(mrd_stream::place(rules.into(), stream, n))
}

// Where each walk begins.
#[unsafe(no_mangle)]
pub extern "C" fn mrd_beginning() -> Cursor
    ensures { result ≡ c_cursor beginning }
{
    Cursor::from(mrd_cursor::Cursor::beginning())
}

// One step of a walk.
#[unsafe(no_mangle)]
pub extern "C" fn mrd_next(rules: Rules, stream: &[u8], cursor: Cursor) -> Step
    ensures { result ≡ c_step (step (rules_of rules) (cursor_of cursor) stream.now) }
{
    Step::from(mrd_stream::next(rules.into(), cursor.into(), stream))
}

// The answer of what a walk still has before it.
#[unsafe(no_mangle)]
pub extern "C" fn mrd_check_from(rules: Rules, stream: &[u8], cursor: Cursor) -> Checked
    ensures { result ≡ c_checked (verdict (from (rules_of rules) (cursor_of cursor) stream.now)) }
{
    Checked::from(mrd_stream::check_from(rules.into(), cursor.into(), stream))
}
