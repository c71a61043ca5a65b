// The cursor for record n, by its start and its id.
ghost use Rattle.std.specs.Prelude.{◌≡◌};
ghost use Rattle.mrd_format.specs.Kinds.{identified};
ghost use Rattle.mrd_index_cursor.specs.IndexCursor.{phase_before, phase_for, cursor_for, cursor_meaning};

use mrd_cursor::{Cursor, Phase};
use mrd_format::{Kind, Refusal, Rules};

// The cursor at record n of a stream whose index these columns hold; 16 where a column has no place n. What the
// columns hold is believed, so any other columns give a cursor too, where a step answers what it finds.
#[tactic(auto, unfolding(crate::specs::IndexCursor::cursor_for))]
pub fn cursor_for(rules: Rules, starts: &[u64], ids: &[u16], n: usize) -> Result<Cursor, Refusal>
    ensures { cursor_meaning result ≡ cursor_for rules starts.now ids.now n }
{
    let (Some(start), Some(id)) = (starts.get(n), ids.get(n)) else {
        return Err(Refusal::NoRecord);
    };
    Ok(Cursor {
        number: n,
        start: *start as usize,
        phase: phase_for(rules, *id),
    })
}

// A phase in which a message with this id may come. One with an id that no kind has is refused in any.
fn phase_for(rules: Rules, id: u16) -> Phase
    ensures { result ≡ phase_for (identified rules id) }
{
    match Kind::of_id(rules, id) {
        Some(kind) => phase_before(kind),
        None => Phase::Start,
    }
}

// A phase in which a message of this kind may come: before the header for a configuration and the header itself,
// after it for the others.
fn phase_before(kind: Kind) -> Phase
    ensures { result ≡ phase_before kind }
{
    match kind {
        Kind::ConfigurationName | Kind::ConfigurationText | Kind::HeaderText => Phase::Start,
        Kind::Close | Kind::Text | Kind::Acquisition | Kind::Image | Kind::Waveform(_) => {
            Phase::Headed
        }
    }
}
