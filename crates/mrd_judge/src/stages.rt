// One message judged where a walk is, by the bytes from its first on: the order of checks, stage by stage.
// Each stage answers the first of its checks that refuses.
ghost use Rattle.std.specs.Prelude.{◌≡◌, ◌≤◌, ◌<◌, length, take, IfOk};
ghost use Rattle.mrd_logic.specs.Checks.{first};
ghost use Rattle.mrd_format.specs.Refusals.{number_in};
ghost use Rattle.mrd_judge.specs.Stages.{front_checks, id_checks, fixed_checks, size_checks, text_checks};
ghost use Rattle.mrd_judge.specs.Judge.{judgement_meaning, message_meaning, sorted, judge, judge_by, judge_body};
ghost use Rattle.mrd_texts.specs.Whole.{TakenWhole};

use crate::sort::Sort;
use mrd_cursor::Cursor;
use mrd_format::size::MAX_MESSAGE_SIZE;
use mrd_format::{Kind, Profile, Refusal, Rules};
use mrd_message::FixedPart;
use mrd_numbers::Little;
use mrd_texts::message_is_utf8;

// The most messages that a stream may have.
pub const MAX_MESSAGES: usize = 1000000;

// A message that every check passed: the sort of its kind, and its size. It is small, so that a check keeps it, and
// its cursor, in registers.
#[derive(Clone, Copy)]
pub struct Whole {
    pub sort: Sort,
    pub size: usize,
}

// The message at the front of t, which is not empty, by every check but that of its texts (`judge_text`), which a walk
// makes where the profile asks for it: this function then calls nothing and saves no register, and a check of millions
// of small messages needs no more.
pub fn judge(rules: Rules, c: Cursor, t: &[u8]) -> Result<Whole, Refusal>
    requires { 0 < length t.now }
    ensures { judgement_meaning result ≡ sorted (judge_by Profile.Plain rules c t.now) }
{
    judge_front(c, t)?;
    let identified = Kind::of_id(rules, u16::read(t, 0));
    let kind = judge_id(c, identified)?;
    judge_body(kind, t)
}

// A message that every check passed, that of its texts too: its kind, and its size.
#[derive(Clone, Copy)]
pub struct Message {
    pub kind: Kind,
    pub size: usize,
}

// The message at the front of t, which is not empty, by every check. As a part of a walk's step it costs no call of its
// own, and no answer that is put together and read again.
#[inline(always)]
pub fn judge_message(rules: Rules, c: Cursor, t: &[u8]) -> Result<Message, Refusal>
    requires { 0 < length t.now }
    ensures { message_meaning result ≡ judge rules c t.now }
{
    let whole = judge(rules, c, t)?;
    let kind = whole.sort.kind(rules);
    judge_text(rules.profile, kind, t, whole.size)?;
    Ok(Message {
        kind,
        size: whole.size,
    })
}

// Before the id: 12 after a close, 19, 1.
#[tactic(auto, unfolding(crate::specs::Stages::front_checks))]
pub fn judge_front(c: Cursor, t: &[u8]) -> Result<(), Refusal>
    ensures { number_in result ≡ first (front_checks c t.now) }
{
    if c.phase.is_closed() {
        return Err(Refusal::Order);
    }
    if MAX_MESSAGES <= c.number {
        return Err(Refusal::TooMany);
    }
    let lone = t.len() == 1;
    if lone {
        return Err(Refusal::IdCut);
    }
    Ok(())
}

// The id: 2 where no kind has it, else 12 by the order of messages; else its kind.
#[tactic(auto, unfolding(crate::specs::Stages::id_checks))]
pub fn judge_id(c: Cursor, identified: Option<Kind>) -> Result<Kind, Refusal>
    ensures refused { number_in result ≡ first (id_checks identified c) }
    ensures known { IfOk result (λ kind. identified ≡ Some kind) }
{
    let Some(kind) = identified else {
        return Err(Refusal::UnknownId);
    };
    if c.phase.allows(kind) {
        return Ok(kind);
    }
    Err(Refusal::Order)
}

// A message of a known kind, by its fixed part and its size. Whether the last passes is tested here, and its stage is
// asked why only where it does not: nearly every message passes, and two tests are faster than a refusal that is put
// together and then tested.
fn judge_body(kind: Kind, t: &[u8]) -> Result<Whole, Refusal>
    requires { 2 ≤ length t.now }
    ensures { judgement_meaning result ≡ sorted (judge_body Profile.Plain kind t.now) }
{
    judge_fixed(kind, t)?;
    let end = FixedPart::of(kind, t).size();
    let too_large = MAX_MESSAGE_SIZE < end as u64;
    if too_large {
        return judge_size(end, t).and(Err(Refusal::TooLarge));
    }
    if t.len() < end {
        return judge_size(end, t).and(Err(Refusal::MessageCut));
    }
    Ok(Whole {
        sort: Sort::of(kind),
        size: end,
    })
}

// The fixed part: 3 where it does not fit, else 4 to 9.
pub fn judge_fixed(kind: Kind, t: &[u8]) -> Result<(), Refusal>
    requires { 2 ≤ length t.now }
    ensures { number_in result ≡ first (fixed_checks kind t.now) }
{
    if t.len() - Kind::ID_SIZE < kind.fixed_size() {
        return Err(Refusal::FixedPartCut);
    }
    FixedPart::of(kind, t).check()
}

// A message's size, and its end: 10, 11.
#[tactic(auto, unfolding(crate::specs::Stages::size_checks))]
pub fn judge_size(size: usize, t: &[u8]) -> Result<(), Refusal>
    ensures { number_in result ≡ first (size_checks size t.now) }
{
    let too_large = MAX_MESSAGE_SIZE < size as u64;
    if too_large {
        return Err(Refusal::TooLarge);
    }
    if t.len() < size {
        return Err(Refusal::MessageCut);
    }
    Ok(())
}

// The texts of a message of this size, by the profile: 21. In the plain profile no byte is read.
pub fn judge_text(profile: Profile, kind: Kind, t: &[u8], size: usize) -> Result<(), Refusal>
    requires { TakenWhole kind size t.now }
    ensures { number_in result ≡ first (text_checks profile kind (take size t.now)) }
{
    match profile {
        Profile::Plain => Ok(()),
        Profile::Strict => judge_strict(kind, t, size),
    }
}

// The same in the strict profile: a kind without a text has none to read. Each kind with texts has an arm of its own, so
// that the compiler goes on from it to that kind's texts and reads no other.
fn judge_strict(kind: Kind, t: &[u8], size: usize) -> Result<(), Refusal>
    requires { TakenWhole kind size t.now }
    ensures { number_in result ≡ first (text_checks Profile.Strict kind (take size t.now)) }
{
    match kind {
        Kind::ConfigurationName => read_texts(kind, t, size),
        Kind::ConfigurationText => read_texts(kind, t, size),
        Kind::HeaderText => read_texts(kind, t, size),
        Kind::Text => read_texts(kind, t, size),
        Kind::Image => read_texts(kind, t, size),
        Kind::Close | Kind::Acquisition | Kind::Waveform(_) => Ok(()),
    }
}

fn read_texts(kind: Kind, t: &[u8], size: usize) -> Result<(), Refusal>
    requires { TakenWhole kind size t.now }
    ensures { number_in result ≡ first (text_checks Profile.Strict kind (take size t.now)) }
{
    if message_is_utf8(kind, &t[..size]) {
        return Ok(());
    }
    Err(Refusal::TextNotUtf8)
}
