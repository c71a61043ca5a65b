// Which record and part does a byte belong to?
ghost use Rattle.std.specs.Prelude.{◌≡◌};
ghost use Rattle.mrd_part_at.specs.PartAt.{part_of_byte};
ghost use Rattle.c_part_at.specs.PartStruct.{c_part};
ghost use Rattle.c_rules.specs.RulesStruct.{rules_of};

use c_part_at::PartAnswer;
use c_rules::Rules;

// The record and the part that this byte belongs to, and of a header's byte the element.
#[unsafe(no_mangle)]
pub extern "C" fn mrd_part_at(rules: Rules, stream: &[u8], byte: usize) -> PartAnswer
    ensures { result ≡ c_part (part_of_byte (rules_of rules) stream.now byte) }
{
    PartAnswer::from(mrd_part_at::part_at(rules.into(), stream, byte))
}
