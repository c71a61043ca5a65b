// The writer: what is given is judged, then its texts and the output's room, and then the message is put into it.
ghost use Rattle.std.specs.Prelude.{◌≡◌};
ghost use Rattle.mrd_logic.specs.Answer.{answered};
ghost use Rattle.mrd_write_checks.specs.Given.{given_contents};
ghost use Rattle.mrd_writer.specs.Write.{judged_contents, Writes, Stores};

use mrd_format::{Kind, Profile, Refusal, Rules};
use mrd_numbers::Little;
use mrd_put::put_content;
use mrd_texts::encoded;
use mrd_write_checks::{Message, judge};

// Puts one message into out from `position` on, by these rules, and gives the position after it. The bytes
// before and after the message keep their content, and a refusal changes none.
pub fn write(
    rules: Rules,
    id: u16,
    message: &Message<'_>,
    out: &mut [u8],
    position: usize,
) -> Result<usize, Refusal>
    ensures { Writes rules result out.new id (given_contents message.now) position out.old }
{
    let kind = Kind::of_id(rules, id).ok_or(Refusal::UnknownId)?;
    let size = judge(kind, message.header, message.name, message.lengths())?;
    store(rules.profile, kind, message, out, position, size)
}

// The same for a message of this kind and size, of which all that is given passes checks 3 to 10 and 18.
fn store(
    profile: Profile,
    kind: Kind,
    message: &Message<'_>,
    out: &mut [u8],
    position: usize,
    size: usize,
) -> Result<usize, Refusal>
    requires { judged_contents kind (given_contents message.now) ≡ answered size }
    ensures { Stores profile result out.new kind (given_contents message.now) position out.old }
{
    if !encoded(profile, message.name, message.text, message.attributes) {
        return Err(Refusal::TextNotUtf8);
    }
    if out.len() < position {
        return Err(Refusal::OutputShort);
    }
    if out.len() - position < size {
        return Err(Refusal::OutputShort);
    }
    kind.id().put(&mut out[position..]);
    let content = position + Kind::ID_SIZE;
    put_content(kind, message, &mut out[content..]);
    Ok(position + size)
}
