// What a caller says of a whole stream as a C struct: bools alone, so that no number is out of range.
//
// Assumes nothing.
#![tactic(auto)]

ghost use Rattle.std.specs.Prelude.{◌≡◌};
ghost use Rattle.c_rules.specs.RulesStruct.{layout_of, profile_of, rules_of};

use mrd_format::{Layout, Profile};

// With every member false, the rules of document 01.
#[repr(C)]
#[derive(Clone, Copy)]
pub struct Rules {
    pub aligned_waveforms: bool,
    pub strict_text: bool,
}

// The rules that a stream is read and written by.
impl From<Rules> for mrd_format::Rules {
    ghost from_gives = { λ rules r. r ≡ rules_of rules };

    fn from(rules: Rules) -> mrd_format::Rules {
        mrd_format::Rules {
            layout: layout_of(rules.aligned_waveforms),
            profile: profile_of(rules.strict_text),
        }
    }
}

fn layout_of(aligned: bool) -> Layout
    ensures { result ≡ layout_of aligned }
{
    if aligned {
        return Layout::Aligned;
    }
    Layout::Packed
}

fn profile_of(strict: bool) -> Profile
    ensures { result ≡ profile_of strict }
{
    if strict {
        return Profile::Strict;
    }
    Profile::Plain
}
