// What the views of a stream's records are: by a record's number, where a walk is, at a cursor from an index, and
// asked for with an index given.
use mrd_ask::{Question, ask_with_columns, reply_view};
use mrd_columns::fill_columns;
use mrd_cursor::Cursor;
use mrd_format::Rules;
use mrd_index_cursor::cursor_for;
use mrd_parts::Part;
use mrd_stream::Step;
use mrd_views::{view, view_at};
use std::io::{self, Write};

// A view by number, one that is refused and so is empty, one of a walk, and those by an index.
pub fn show(rt: &impl Print, rules: Rules, s: &[u8]) -> io::Result<()> {
    say(rt, "name", view(rules, s, 0, Part::Name))?;
    say(rt, "no pixels", view(rules, s, 0, Part::Pixels))?;
    show_walked(rt, rules, s)?;
    show_indexed(rt, rules, s)
}

// The text of the record after the first, where a walk is after one step.
fn show_walked(rt: &impl Print, rules: Rules, s: &[u8]) -> io::Result<()> {
    match mrd_stream::next(rules, Cursor::beginning(), s) {
        Step::Message(_, next) => say(rt, "text", view_at(rules, next, s, Part::Text)),
        Step::End(_) => say(rt, "no record", &s[..0]),
    }
}

// The samples of the third record, at a cursor from the stream's own columns; and asked for with those columns
// given, then with other scan counters, which is another index.
fn show_indexed(rt: &impl Print, rules: Rules, s: &[u8]) -> io::Result<()> {
    let mut starts = [0u64; 4];
    let mut ids = [0u16; 4];
    let mut counters = [0u32; 4];
    if let Err(refusal) = fill_columns(rules, s, &mut starts, &mut ids, &mut counters) {
        println!(rt; "{refusal}")?;
    }
    match cursor_for(rules, &starts, &ids, 2) {
        Ok(cursor) => say(rt, "samples", view_at(rules, cursor, s, Part::Channel(0)))?,
        Err(_) => say(rt, "no record", &s[..0])?,
    }
    show_asked(rt, rules, s, &starts, &ids, &counters)?;
    show_asked(rt, rules, s, &starts, &ids, &[7u32; 4])
}

// The view that is replied with these columns given: nothing, and 15, where they are not the stream's own.
fn show_asked(
    rt: &impl Print,
    rules: Rules,
    s: &[u8],
    starts: &[u64],
    ids: &[u16],
    counters: &[u32],
) -> io::Result<()> {
    let question = Question::View(2, Part::Channel(0));
    let reply = ask_with_columns(rules, s, question, &[0u16; 17], starts, ids, counters);
    if let Err(refusal) = reply {
        println!(rt; "{refusal}")?;
    }
    say(rt, "samples asked for", reply_view(s, reply))
}

// A view: what it is of, its length and its bytes.
fn say(rt: &impl Print, what: &str, view: &[u8]) -> io::Result<()> {
    let length = view.len();
    print!(rt; "{what}, {length} bytes [")?;
    io::writer(rt).write_all(view)?;
    println!(rt; "]")?;
    Ok(())
}
