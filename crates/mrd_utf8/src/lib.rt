// Whether octets are UTF-8 by RFC 3629, section 4: all of them at once, or as they come, part after part.
//
// Any octets get an answer. One pass: blocks of ASCII by their highest octet, other text a whole character at a
// time, and octet by octet only what a part ends with, and what follows a fault. Assumes nothing.
#![tactic(auto)]

ghost use Rattle.std.specs.Prelude.{◌≡◌, [], ◌∷◌, ◌≤◌, ◌<◌};
ghost use Rattle.mrd_utf8.specs.Utf8.{◌to◌, rows, inside, tail};
ghost use Rattle.mrd_utf8.specs.Fold.{never, begun, next, run, done, utf8_of};
ghost use Rattle.mrd_utf8.specs.Due.{awaited, due_of};
ghost use Rattle.mrd_utf8.specs.Whole.{Whole, NoneAbove};

// The octets of a block: two vectors of 16.
const BLOCK: usize = 32;

// What is known of the octets read so far: how many more are due to end the character, and the range of the
// first of these; the others are tails. Where none is due the range says nothing.
#[derive(Clone, Copy)]
pub struct State {
    due: u8,
    lo: u8,
    hi: u8,
}

// Whether s is UTF-8.
pub fn is_utf8(s: &[u8]) -> bool
    ensures { result ≡ utf8_of s.now }
{
    State::start().read(s).is_done()
}

impl State {
    // Before the first octet: nothing is due.
    pub fn start() -> State
        ensures { due_of result ≡ [] }
    {
        State::awaiting(0, 0, 0)
    }

    // Whether the octets read so far are UTF-8: nothing is due.
    pub fn is_done(self) -> bool
        ensures { result ≡ done (due_of self) }
    {
        self.due == 0
    }

    // The state after the octets s more: first the rest of the character that is begun, then the text after it.
    // A text may be read in parts, cut anywhere.
    pub fn read(self, s: &[u8]) -> State
        ensures { due_of result ≡ run (due_of self) s.now }
    {
        let mut state = self;
        for (i, &octet) in s.iter().enumerate() {
            let whole = state.due == 0;
            if whole {
                return State::read_text(&s[i..]);
            }
            state = state.next(octet);
        }
        state
    }

    // The same where nothing is due: whole characters first, then octet by octet.
    fn read_text(s: &[u8]) -> State
        ensures { due_of result ≡ run [] s.now }
    {
        let n = whole(s);
        State::start().read_each(&s[n..])
    }

    // The same, octet by octet.
    fn read_each(self, s: &[u8]) -> State
        ensures { due_of result ≡ run (due_of self) s.now }
    {
        let mut state = self;
        for &octet in s {
            state = state.next(octet);
        }
        state
    }

    // The state after one octet more.
    #[tactic(auto, using(crate::specs::DueLaws::next_none, crate::specs::DueLaws::next_due))]
    fn next(self, octet: u8) -> State
        ensures { due_of result ≡ next (due_of self) octet }
    {
        if self.due == 0 {
            return State::begun(octet);
        }
        if !self.takes(octet) {
            return State::fault();
        }
        State::awaiting(self.due - 1, 0x80, 0xBF)
    }

    // Whether an octet is in the range that is due.
    fn takes(self, octet: u8) -> bool
        ensures { result ≡ inside (self.lo to self.hi) octet }
    {
        (self.lo <= octet) & (octet <= self.hi)
    }

    // The state after the first octet of a character, by the rows of the syntax. No tail begins one, nor 0xC0 and
    // 0xC1, as what they would begin has one octet as ASCII; nor 0xF5 and above.
    #[tactic(auto, unfolding(crate::specs::Fold::begun))]
    fn begun(octet: u8) -> State
        ensures { due_of result ≡ begun rows octet }
    {
        if octet < 0x80 {
            return State::awaiting(0, 0, 0);
        }
        match octet {
            0xC2..=0xDF => State::awaiting(1, 0x80, 0xBF),
            0xE0 => State::awaiting(2, 0xA0, 0xBF),
            0xE1..=0xEC => State::awaiting(2, 0x80, 0xBF),
            0xED => State::awaiting(2, 0x80, 0x9F),
            0xEE..=0xEF => State::awaiting(2, 0x80, 0xBF),
            0xF0 => State::awaiting(3, 0x90, 0xBF),
            0xF1..=0xF3 => State::awaiting(3, 0x80, 0xBF),
            0xF4 => State::awaiting(3, 0x80, 0x8F),
            _ => State::fault(),
        }
    }

    // After a fault: one octet is due, from 1 to 0, and no octet ends that.
    fn fault() -> State
        ensures { due_of result ≡ never }
    {
        State::awaiting(1, 1, 0)
    }

    // So many octets due, the first from lo to hi and the others tails.
    fn awaiting(due: u8, lo: u8, hi: u8) -> State
        ensures { due_of result ≡ awaited due lo hi }
    {
        State { due, lo, hi }
    }
}

// A number of octets at the front of s that are whole characters: up to a fault, or to less than a block
// before the end.
fn whole(s: &[u8]) -> usize
    ensures { Whole result s.now }
{
    let mut i: usize = 0;
    while BLOCK <= s.len() - i {
        let end = i + BLOCK;
        let n = whole_in_block(&s[i..end]);
        if n == 0 {
            return i;
        }
        i += n;
    }
    i
}

// The same of one block: ASCII is whole characters.
fn whole_in_block(s: &[u8]) -> usize
    ensures { Whole result s.now }
{
    let ascii = highest(s) < 0x80;
    if ascii {
        return s.len();
    }
    characters(s)
}

// The same, character by character, as long as four octets are left.
fn characters(s: &[u8]) -> usize
    ensures { Whole result s.now }
{
    let mut i: usize = 0;
    while 4 <= s.len() - i {
        let n = character(s[i], s[i + 1], s[i + 2], s[i + 3]);
        if n == 0 {
            return i;
        }
        i += n;
    }
    i
}

// The number of the octets of the character that stands first among these four, or 0 where none does.
fn character(a: u8, b: u8, c: u8, d: u8) -> usize
    ensures { Whole result (a ∷ b ∷ c ∷ d ∷ []) }
{
    let first = State::begun(a);
    match first.due {
        0 => 1,
        1 if first.takes(b) => 2,
        2 if first.takes(b) && is_tail(c) => 3,
        3 if first.takes(b) && is_tail(c) && is_tail(d) => 4,
        _ => 0,
    }
}

// Whether an octet is a tail.
fn is_tail(octet: u8) -> bool
    ensures { result ≡ inside tail octet }
{
    (0x80 <= octet) & (octet <= 0xBF)
}

// A number that no octet of s is above: the highest, by a loop without an early end, of which the compiler
// makes vector code.
fn highest(s: &[u8]) -> u8
    ensures { NoneAbove result s.now }
{
    let mut high = 0;
    for &octet in s {
        high = octet.max(high);
    }
    high
}
