// A kind without the layout of its header, which the rules of its stream say. It is one byte where a kind is two, and
// so what judging a message finds stays small.
ghost use Rattle.std.specs.Prelude.{◌≡◌};
ghost use Rattle.mrd_judge.specs.Sorts.{sort_of, kind_in};

use mrd_format::{Kind, Rules};

#[derive(Clone, Copy)]
pub enum Sort {
    ConfigurationName,
    ConfigurationText,
    HeaderText,
    Close,
    Text,
    Acquisition,
    Image,
    Waveform,
}

impl Sort {
    pub fn of(kind: Kind) -> Sort
        ensures { result ≡ sort_of kind }
    {
        match kind {
            Kind::ConfigurationName => Sort::ConfigurationName,
            Kind::ConfigurationText => Sort::ConfigurationText,
            Kind::HeaderText => Sort::HeaderText,
            Kind::Close => Sort::Close,
            Kind::Text => Sort::Text,
            Kind::Acquisition => Sort::Acquisition,
            Kind::Image => Sort::Image,
            Kind::Waveform(_) => Sort::Waveform,
        }
    }

    // The kind in a stream of these rules.
    pub fn kind(self, rules: Rules) -> Kind
        ensures { result ≡ kind_in rules self }
    {
        let layout = rules.layout;
        match self {
            Sort::ConfigurationName => Kind::ConfigurationName,
            Sort::ConfigurationText => Kind::ConfigurationText,
            Sort::HeaderText => Kind::HeaderText,
            Sort::Close => Kind::Close,
            Sort::Text => Kind::Text,
            Sort::Acquisition => Kind::Acquisition,
            Sort::Image => Kind::Image,
            Sort::Waveform => Kind::Waveform(layout),
        }
    }
}
