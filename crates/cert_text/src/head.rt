//! The head of a text: its version, and the instance that the certificate is for.

ghost use Rattle.std.specs.Prelude.{◌≡◌};
ghost use Rattle.text_parts.specs.Gives.{Gives};
ghost use Rattle.text_parts.specs.Reading.{one_of};
ghost use Rattle.cert_text.specs.Text.{version_line};
ghost use Rattle.cert_text.specs.Reading.{all_versions, head_at};

use text_parts::Stop;
use text_parts::part::{Words, find_word};
use text_parts::reading::{ended_number, word};

/// The versions of the text. Each has a first line of its own.
#[derive(Clone, Copy, Debug, PartialEq, Eq)]
pub enum Version {
    One,
}

/// The numbers of the instance that a certificate is for.
#[derive(Clone, Copy, Debug, PartialEq, Eq)]
pub struct Head {
    pub customers: u64,
    pub team: u64,
    pub scale: u64,
}

/// The first lines of the versions.
pub struct FirstLines;

impl Words for FirstLines {
    type Value = Version;

    ghost word = { version_line };

    fn word(value: Version) -> &'static [u8] {
        match value {
            Version::One => b"PARETO 1\n",
        }
    }
}

/// The first line.
pub fn read_version(bytes: &[u8]) -> Result<(Version, &[u8]), Stop>
    ensures { Gives (λ x. (x.0, x.1.now)) result (one_of version_line all_versions bytes.now) }
{
    find_word::<FirstLines>(bytes, &[Version::One])
}

/// The line of the instance.
#[tactic(auto, unfolding(crate::specs::Reading::head_at))]
pub fn read_head(bytes: &[u8]) -> Result<(Head, &[u8]), Stop>
    ensures { Gives (λ x. (x.0, x.1.now)) result (head_at bytes.now) }
{
    let rest = word(bytes, b"instance ")?;
    let (customers, rest) = ended_number(rest, u64::MAX, b" ")?;
    let (team, rest) = ended_number(rest, u64::MAX, b" ")?;
    let (scale, rest) = ended_number(rest, u64::MAX, b"\n")?;
    let head = Head {
        customers,
        team,
        scale,
    };
    Ok((head, rest))
}
