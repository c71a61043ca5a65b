// Whether texts are what a profile asks: a name, a text and attributes, of which a kind has one or none.
ghost use Rattle.std.specs.Prelude.{◌≡◌, ◌∷◌, []};
ghost use Rattle.mrd_format.specs.Parts.{bytes_in};
ghost use Rattle.mrd_format.specs.Content.{record_of, part_of};
ghost use Rattle.mrd_format.specs.Profiles.{texts_in, all_utf8, encoded};
ghost use Rattle.mrd_parts.specs.Sought.{part_meaning, sought_meaning};
ghost use Rattle.mrd_texts.specs.Whole.{Whole, Inside};

use mrd_format::{Kind, Profile};
use mrd_message::FixedPart;
use mrd_parts::{Extent, Part, spanned};
use mrd_utf8::is_utf8;

// Whether the texts of the message m of this kind are UTF-8, as the strict profile asks.
#[tactic(auto, unfolding(mrd_format::specs::Profiles::encoded, mrd_format::specs::Content::record_of, mrd_format::specs::Content::contents_of))]
pub fn message_is_utf8(kind: Kind, m: &[u8]) -> bool
    requires { Whole kind m.now }
    ensures { result ≡ encoded Profile.Strict (texts_in (record_of kind m.now).parts) }
{
    all_utf8(
        text(kind, m, Part::Name),
        text(kind, m, Part::Text),
        text(kind, m, Part::Attributes),
    )
}

// Whether these texts are what the profile asks.
#[tactic(auto, unfolding(mrd_format::specs::Profiles::encoded))]
pub fn encoded(profile: Profile, name: &[u8], text: &[u8], attributes: &[u8]) -> bool
    ensures { result ≡ encoded profile (name.now ∷ text.now ∷ attributes.now ∷ []) }
{
    match profile {
        Profile::Plain => true,
        Profile::Strict => all_utf8(name, text, attributes),
    }
}

// Whether each of them is UTF-8 by itself.
fn all_utf8(name: &[u8], text: &[u8], attributes: &[u8]) -> bool
    ensures { result ≡ all_utf8 (name.now ∷ text.now ∷ attributes.now ∷ []) }
{
    is_utf8(name) && is_utf8(text) && is_utf8(attributes)
}

// A part of the message m of this kind; no byte where its kind lacks it.
#[tactic(auto, using(crate::specs::Whole::least))]
fn text(kind: Kind, m: &[u8], part: Part) -> &[u8]
    requires { Whole kind m.now }
    ensures { result.now ≡ part_of kind m.now (part_meaning part) }
{
    let sought = mrd_parts::locate(FixedPart::of(kind, m), m.len(), part);
    bytes_in(sought, m)
}

// The bytes of m that lie there.
fn bytes_in(sought: Option<Extent>, m: &[u8]) -> &[u8]
    requires { Inside (sought_meaning sought) m.now }
    ensures { result.now ≡ bytes_in m.now (sought_meaning sought) }
{
    match sought {
        Some(place) => spanned(m, place.offset, place.size),
        None => &[],
    }
}
