// What the channel mask of an acquisition says.
ghost use Rattle.std.specs.Prelude.{◌≡◌};
ghost use Rattle.mrd_format.specs.Acquisition.{mask_number, mask_ones};

// Not stated where the mask is all zero; else whether it has as many ones as there are active channels, and how
// many it has.
#[derive(Clone, Copy)]
pub enum Mask {
    NotStated,
    Agrees(u16),
    Differs(u16),
}

impl Mask {
    // The number of the answer among a kind's own numbers; 0 stands for a kind without a mask.
    pub fn number(self) -> u16
        ensures { result ≡ mask_number self }
    {
        match self {
            Mask::NotStated => 1,
            Mask::Agrees(_) => 2,
            Mask::Differs(_) => 3,
        }
    }

    // The ones counted.
    pub fn ones(self) -> u16
        ensures { result ≡ mask_ones self }
    {
        match self {
            Mask::NotStated => 0,
            Mask::Agrees(ones) => ones,
            Mask::Differs(ones) => ones,
        }
    }
}
