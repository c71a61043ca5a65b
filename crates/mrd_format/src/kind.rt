// The eight kinds of message, with their ids and the sizes of their fixed parts.
ghost use Rattle.std.specs.Prelude.{◌≡◌};
ghost use Rattle.mrd_format.specs.Kinds.{id_of, fixed_size, identified};
ghost use Rattle.mrd_format.specs.Kinds.{header_size};

use crate::rules::{Layout, Rules};

#[derive(Clone, Copy)]
pub enum Kind {
    ConfigurationName,
    ConfigurationText,
    HeaderText,
    Close,
    Text,
    Acquisition,
    Image,
    // With the layout of its header, which the rules of its stream say.
    Waveform(Layout),
}

impl Kind {
    pub const CONFIGURATION_NAME: u16 = 1;

    pub const CONFIGURATION_TEXT: u16 = 2;

    pub const HEADER_TEXT: u16 = 3;

    pub const CLOSE: u16 = 4;

    pub const TEXT: u16 = 5;

    pub const ACQUISITION: u16 = 1008;

    pub const IMAGE: u16 = 1022;

    pub const WAVEFORM: u16 = 1026;

    // The bytes of the id.
    pub const ID_SIZE: usize = 2;

    // Sizes of the fixed parts, the id's bytes not counted.
    pub const NAME_FIXED: usize = 1024;

    pub const TEXT_FIXED: usize = 4;

    pub const CLOSE_FIXED: usize = 0;

    pub const ACQUISITION_FIXED: usize = 340;

    pub const IMAGE_FIXED: usize = 206;

    // An image's header alone, without the 8-byte length that is in its fixed part.
    pub const IMAGE_HEADER: usize = 198;

    // Where an image's header has its attributes' length, after all fields of the record.
    pub const ATTRIBUTE_STRING_LEN: usize = 194;

    // The kind with this id, where one has it.
    pub fn of_id(rules: Rules, id: u16) -> Option<Kind>
        ensures { result ≡ identified rules id }
    {
        match id {
            Kind::CONFIGURATION_NAME => Some(Kind::ConfigurationName),
            Kind::CONFIGURATION_TEXT => Some(Kind::ConfigurationText),
            Kind::HEADER_TEXT => Some(Kind::HeaderText),
            Kind::CLOSE => Some(Kind::Close),
            Kind::TEXT => Some(Kind::Text),
            Kind::ACQUISITION => Some(Kind::Acquisition),
            Kind::IMAGE => Some(Kind::Image),
            Kind::WAVEFORM => Some(Kind::Waveform(rules.layout)),
            _ => None,
        }
    }

    // The kind's id.
    pub fn id(self) -> u16
        ensures { result ≡ id_of self }
    {
        match self {
            Kind::ConfigurationName => Kind::CONFIGURATION_NAME,
            Kind::ConfigurationText => Kind::CONFIGURATION_TEXT,
            Kind::HeaderText => Kind::HEADER_TEXT,
            Kind::Close => Kind::CLOSE,
            Kind::Text => Kind::TEXT,
            Kind::Acquisition => Kind::ACQUISITION,
            Kind::Image => Kind::IMAGE,
            Kind::Waveform(_) => Kind::WAVEFORM,
        }
    }

    // The size of the kind's fixed part.
    pub fn fixed_size(self) -> usize
        ensures { result ≡ fixed_size self }
    {
        match self {
            Kind::ConfigurationName => Kind::NAME_FIXED,
            Kind::ConfigurationText | Kind::HeaderText | Kind::Text => Kind::TEXT_FIXED,
            Kind::Close => Kind::CLOSE_FIXED,
            Kind::Acquisition => Kind::ACQUISITION_FIXED,
            Kind::Image => Kind::IMAGE_FIXED,
            Kind::Waveform(layout) => layout.header_size(),
        }
    }

    // The size of the kind's header, without an image's 8-byte length; 0 where the kind has none.
    pub fn header_size(self) -> usize
        ensures { result ≡ header_size self }
    {
        match self {
            Kind::Acquisition => Kind::ACQUISITION_FIXED,
            Kind::Image => Kind::IMAGE_HEADER,
            Kind::Waveform(layout) => layout.header_size(),
            _ => 0,
        }
    }
}
