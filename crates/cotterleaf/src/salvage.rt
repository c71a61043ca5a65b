// What can be saved of a torn recording?
ghost use Rattle.std.specs.Prelude.{◌≡◌, length};
ghost use Rattle.mrd_logic.specs.Answer.{answered};
ghost use Rattle.mrd_salvage.specs.Salvage.{report, salvage_answer, salvage_output};
ghost use Rattle.c_salvage.specs.SalvagedStruct.{c_salvaged};
ghost use Rattle.c_rules.specs.RulesStruct.{rules_of};

use c_rules::Rules;
use c_salvage::Salvaged;

// Writes every message before the first faulty one, and a close where they have none, to the front of out.
#[unsafe(no_mangle)]
pub extern "C" fn mrd_salvage(rules: Rules, stream: &[u8], out: &mut [u8]) -> Salvaged
    ensures value { result ≡ c_salvaged (salvage_answer (rules_of rules) stream.now (length out.old)) }
    ensures out_after { out.new ≡ salvage_output (rules_of rules) stream.now out.old }
{
    Salvaged::from(mrd_salvage::salvage(rules.into(), stream, out))
}

// The report on that, with nothing written.
#[unsafe(no_mangle)]
pub extern "C" fn mrd_salvage_report(rules: Rules, stream: &[u8]) -> Salvaged
    ensures { result ≡ c_salvaged (answered (report (rules_of rules) stream.now)) }
{
    Salvaged::from(mrd_salvage::salvage_report(rules.into(), stream))
}
