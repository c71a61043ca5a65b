// A torn recording saved: every message before the first faulty one, unchanged, and then a close.
//
// No public function here has a `requires`: any bytes and any output get an answer, and 14 is the only refusal, which
// writes no byte. One walk finds what is kept, one copy writes it. Assumes nothing.
#![tactic(auto)]

mod reach;
mod report;

ghost use Rattle.std.specs.Prelude.{◌≡◌, ◌++◌, ◌+◌, ◌≤◌, length};
ghost use Rattle.mrd_numbers.specs.Stored.{front};
ghost use Rattle.mrd_salvage.specs.Salvage.{closing, report, salvaged_meaning, salvage_answer, salvage_output};

use crate::reach::walk;
use mrd_format::{Kind, Refusal, Rules};
use mrd_numbers::Little;
pub use report::Report;

// What would be saved of the stream s, read by these rules, and how long that is. Nothing is written: a caller learns
// what room it needs, or where to cut a file.
pub fn salvage_report(rules: Rules, s: &[u8]) -> Report
    ensures { result ≡ report rules s.now }
{
    let reached = walk(rules, s);
    reached.report(s.len())
}

// Writes what can be saved of the stream s, read by these rules, to the front of out and answers the report; 14 where
// out is too short. The rest of out keeps its content, and a refusal changes no byte.
pub fn salvage(rules: Rules, s: &[u8], out: &mut [u8]) -> Result<Report, Refusal>
    ensures result_value { salvaged_meaning result ≡ salvage_answer rules s.now (length out.old) }
    ensures out_after { out.new ≡ salvage_output rules s.now out.old }
{
    let report = salvage_report(rules, s);
    if out.len() < report.length {
        return Err(Refusal::OutputShort);
    }
    let end = s.len() - report.bytes_not_kept;
    put_kept(&s[..end], report.close_added, out);
    Ok(report)
}

// Puts the bytes that are kept to the front of out, and a close after them where it is added.
fn put_kept(kept: &[u8], add: bool, out: &mut [u8])
    requires { length kept.now + length (closing add) ≤ length out.old }
    ensures { out.new ≡ front (kept.now ++ closing add) out.old }
{
    mrd_bytes::copy(kept, out);
    if add {
        Kind::CLOSE.put(&mut out[kept.len()..]);
    }
}
