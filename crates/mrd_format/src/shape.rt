// A message's kind with that kind's own numbers.
ghost use Rattle.std.specs.Prelude.{◌≡◌};
ghost use Rattle.mrd_format.specs.Shapes.{kind_of};

use crate::kind::Kind;
use crate::mask::Mask;
use crate::rules::Layout;

// The length of a name or of a text, in bytes.
#[derive(Clone, Copy)]
pub struct TextShape {
    pub length: usize,
}

#[derive(Clone, Copy)]
pub struct AcquisitionShape {
    pub number_of_samples: u16,
    pub active_channels: u16,
    pub trajectory_dimensions: u16,
    pub mask: Mask,
}

#[derive(Clone, Copy)]
pub struct ImageShape {
    pub matrix_size_x: u16,
    pub matrix_size_y: u16,
    pub matrix_size_z: u16,
    pub channels: u16,
    pub data_type: u16,
    pub attribute_length: u64,
}

#[derive(Clone, Copy)]
pub struct WaveformShape {
    pub layout: Layout,
    pub number_of_samples: u16,
    pub channels: u16,
}

// One of the eight kinds, with its own numbers.
#[derive(Clone, Copy)]
pub enum Shape {
    ConfigurationName(TextShape),
    ConfigurationText(TextShape),
    HeaderText(TextShape),
    Close,
    Text(TextShape),
    Acquisition(AcquisitionShape),
    Image(ImageShape),
    Waveform(WaveformShape),
}

impl Shape {
    // The kind alone.
    pub fn kind(self) -> Kind
        ensures { result ≡ kind_of self }
    {
        match self {
            Shape::ConfigurationName(_) => Kind::ConfigurationName,
            Shape::ConfigurationText(_) => Kind::ConfigurationText,
            Shape::HeaderText(_) => Kind::HeaderText,
            Shape::Close => Kind::Close,
            Shape::Text(_) => Kind::Text,
            Shape::Acquisition(_) => Kind::Acquisition,
            Shape::Image(_) => Kind::Image,
            Shape::Waveform(shape) => Kind::Waveform(shape.layout),
        }
    }
}
