// What stands before a name's end, and before a text.
ghost use Rattle.std.specs.Prelude.{◌≡◌, ◌<◌, ◌≤◌, ◌^◌, length};
ghost use Rattle.mrd_logic.specs.Checks.{first};
ghost use Rattle.mrd_format.specs.Kinds.{fixed_size};
ghost use Rattle.mrd_format.specs.Refusals.{number_in};
ghost use Rattle.mrd_format.specs.Message.{own_checks, name_length, text_length};
ghost use Rattle.mrd_format.specs.declared.kind.Kind.«TheVariants».{ConfigurationName, Text};

use mrd_format::{Kind, Refusal};
use mrd_numbers::Little;

// The 1,024 bytes of a configuration name.
#[derive(Clone, Copy)]
pub struct NameBytes<'a> {
    pub bytes: &'a [u8],
    pub ghost long: { length bytes.now ≡ fixed_size ConfigurationName },
}

// The count of a text's bytes, of any of the three kinds of text.
#[derive(Clone, Copy)]
pub struct TextCount<'a> {
    pub bytes: &'a [u8],
    pub ghost long: { length bytes.now ≡ fixed_size Text },
}

impl NameBytes<'_> {
    // Check 5: the bytes hold a zero.
    #[tactic(auto, unfolding(mrd_format::specs::Message::own_checks))]
    pub(crate) fn check(self) -> Result<(), Refusal>
        ensures { number_in result ≡ first (own_checks ConfigurationName self.entry.bytes.now) }
    {
        if Kind::NAME_FIXED <= self.length() {
            return Err(Refusal::Name);
        }
        Ok(())
    }

    // How many bytes stand before the first zero.
    #[tactic(auto, unfolding(mrd_format::specs::Message::name_length))]
    pub fn length(self) -> usize
        ensures { (result ≡ name_length self.entry.bytes.now) × (result ≤ 1024) }
    {
        mrd_bytes::find(self.bytes, 0)
    }
}

impl TextCount<'_> {
    // The text's length.
    #[tactic(auto, unfolding(mrd_format::specs::Message::text_length))]
    pub fn length(self) -> usize
        ensures { (result ≡ text_length self.entry.bytes.now) × (result < 2 ^ 32) }
    {
        u32::read(self.bytes, 0) as usize
    }
}
