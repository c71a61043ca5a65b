// What is written: the normal form and the index of a stream, and one message.
ghost use Rattle.std.specs.Prelude.{◌≡◌, length};
ghost use Rattle.mrd_format.specs.Parts.{contents};
ghost use Rattle.mrd_index.specs.File.{index_answer, index_output};
ghost use Rattle.mrd_normal.specs.NormalOutput.{normal_answer, normal_output};
ghost use Rattle.mrd_writer.specs.Write.{write_answer, write_output};
ghost use Rattle.c_written.specs.WrittenStructs.{c_written, c_put};
ghost use Rattle.c_rules.specs.RulesStruct.{rules_of};

use c_rules::Rules;
use c_written::{Put, Written};
use mrd_writer::Message;

// Writes the normal form of a stream to the front of out.
#[unsafe(no_mangle)]
pub extern "C" fn mrd_normal_form(rules: Rules, stream: &[u8], out: &mut [u8]) -> Written
    ensures value { result ≡ c_written (normal_answer (rules_of rules) stream.now (length out.old)) }
    ensures out_after { out.new ≡ normal_output (rules_of rules) stream.now out.old }
{
    Written::from(mrd_normal::normal_form(rules.into(), stream, out))
}

// Writes the index of a stream to the front of out.
#[unsafe(no_mangle)]
pub extern "C" fn mrd_write_index(rules: Rules, stream: &[u8], out: &mut [u8]) -> Written
    ensures value { result ≡ c_written (index_answer (rules_of rules) stream.now (length out.old)) }
    ensures out_after { out.new ≡ index_output (rules_of rules) stream.now out.old }
{
    Written::from(mrd_index::write_index(rules.into(), stream, out))
}

// Writes one message into out from `position` on.
#[unsafe(no_mangle)]
pub extern "C" fn mrd_write(
    rules: Rules,
    id: u16,
    header: &[u8],
    name: &[u8],
    text: &[u8],
    trajectory: &[u8],
    samples: &[u8],
    attributes: &[u8],
    pixels: &[u8],
    waveform: &[u8],
    out: &mut [u8],
    position: usize,
) -> Put
    ensures value { result ≡ c_put (write_answer (rules_of rules) id
        (contents header.now name.now text.now trajectory.now samples.now
        attributes.now pixels.now waveform.now)
        position out.old) }
    ensures out_after { out.new ≡ write_output (rules_of rules) id
        (contents header.now name.now text.now trajectory.now samples.now
        attributes.now pixels.now waveform.now)
        position out.old }
{
    Put::from(mrd_writer::write(
        rules.into(),
        id,
        &Message {
            header,
            name,
            text,
            trajectory,
            samples,
            attributes,
            pixels,
            waveform,
        },
        out,
        position,
    ))
}
