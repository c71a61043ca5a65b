// What a message is made of.
ghost use Rattle.std.specs.Prelude.{◌≡◌};
ghost use Rattle.mrd_write_checks.specs.WriteChecks.{lengths_of};
ghost use Rattle.mrd_write_checks.specs.Given.{given_contents};

use crate::lengths::Lengths;

// What is given for one message beside its id: the fixed header's bytes (none for a name, a text or a
// close), and the parts, of which those that the kind lacks are empty.
#[derive(Clone, Copy, Debug, Default)]
pub struct Message<'a> {
    pub header: &'a [u8],
    pub name: &'a [u8],
    pub text: &'a [u8],
    pub trajectory: &'a [u8],
    pub samples: &'a [u8],
    pub attributes: &'a [u8],
    pub pixels: &'a [u8],
    pub waveform: &'a [u8],
}

impl<'a> Message<'a> {
    // How long each of its parts is.
    pub fn lengths(&self) -> Lengths
        ensures { result ≡ lengths_of (given_contents self.now) }
    {
        Lengths {
            name: self.name.len(),
            text: self.text.len(),
            trajectory: self.trajectory.len(),
            samples: self.samples.len(),
            attributes: self.attributes.len(),
            pixels: self.pixels.len(),
            waveform: self.waveform.len(),
        }
    }
}
