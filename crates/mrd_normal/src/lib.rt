// The normal form of an accepted stream, written to the front of an output.
//
// No public function here has a `requires`: any bytes and any output get an answer. The stream is checked
// first, and a refusal writes no byte. Then a second walk copies each message and cleans it where it stands:
// the filler after a configuration name and in a waveform's header is made zero, and an image's header gets
// its attributes' length. Assumes nothing.
#![tactic(auto)]

mod messages;

ghost use Rattle.std.specs.Prelude.{◌≡◌, length};
ghost use Rattle.mrd_stream.specs.Output.{written_meaning};
ghost use Rattle.mrd_normal.specs.NormalOutput.{normal_answer, normal_output};

use mrd_format::{Refusal, Rules};
use mrd_stream::{Refused, check};

// Writes the normal form of the stream s, read by these rules, to the front of out and answers its length,
// which is that of s; else answers the stream's refusal, or 14 where out is shorter than s. The rest of out
// keeps its content, and a refusal changes no byte.
pub fn normal_form(rules: Rules, s: &[u8], out: &mut [u8]) -> Result<usize, Refused>
    ensures result_value { written_meaning result ≡ normal_answer rules s.now (length out.old) }
    ensures out_after { out.new ≡ normal_output rules s.now out.old }
{
    check(rules, s)?;
    let short = out.len() < s.len();
    if short {
        return Err(Refused::Alone(Refusal::OutputShort));
    }
    messages::put_messages(rules, s, out);
    Ok(s.len())
}
