//! The lines of a client.
ghost use Rattle.std.specs.Prelude.{◌≡◌, ◌++◌, OnOk, IfOk};
ghost use Rattle.api_reports.specs.Clients.{answer_text, client_lines, clients_text, has_untyped, is_untyped};
ghost use Rattle.api_reports.specs.Reports.{unlines};

use go_base::memory::NoMemory;
use go_base::text::Text;
use go_model::files::platform::Platform;
use std::alloc::Global;

/// What is told of a client on a platform.
#[derive(Debug, Drop)]
pub enum ClientAnswer {
    /// It is typed, and takes no step that the profile bars.
    InProfile,
    /// It is typed, but not without such a step.
    OutsideProfile,
    /// It isn't typed, at this place: `FILE:LINE:COLUMN`.
    UntypedAt(Text),
}

impl ClientAnswer {
    ghost use Rattle.std.specs.Prelude.{◌≡◌, IfOk};
    ghost use Rattle.api_reports.specs.Clients.{is_untyped};

    /// The same answer once more.
    pub fn copy(&self, alloc: Global) -> Result<ClientAnswer, NoMemory>
        ensures { IfOk result (λ answer. answer ≡ self.now) }
    {
        match self {
            ClientAnswer::InProfile => Ok(ClientAnswer::InProfile),
            ClientAnswer::OutsideProfile => Ok(ClientAnswer::OutsideProfile),
            ClientAnswer::UntypedAt(place) => {
                let place = place.copy()?;
                Ok(ClientAnswer::UntypedAt(place))
            }
        }
    }

    fn is_untyped(&self) -> bool
        ensures { result ≡ is_untyped self.now }
    {
        match self {
            ClientAnswer::InProfile => false,
            ClientAnswer::OutsideProfile => false,
            ClientAnswer::UntypedAt(_) => true,
        }
    }
}

fn add_answer(text: &mut Vec<u8>, answer: &ClientAnswer) -> Result<(), NoMemory>
    ensures { OnOk result (text.new.items ≡ text.old.items ++ answer_text answer.now) }
{
    match answer {
        ClientAnswer::InProfile => text.extend_from_slice(b"in profile")?,
        ClientAnswer::OutsideProfile => text.extend_from_slice(b"typed outside the profile")?,
        ClientAnswer::UntypedAt(place) => {
            text.extend_from_slice(b"untyped at ")?;
            text.extend_from_slice(place.bytes())?;
        }
    }
    Ok(())
}

fn add_platform(
    text: &mut Vec<u8>,
    platform: Platform,
    answer: &ClientAnswer,
) -> Result<(), NoMemory>
    ensures { OnOk result (text.new.items ≡ text.old.items ++ unlines (client_lines platform answer.now)) }
{
    text.extend_from_slice(b"client ")?;
    text.extend_from_slice(platform.name())?;
    text.extend_from_slice(b": ")?;
    add_answer(text, answer)?;
    text.push(b'\n')?;
    Ok(())
}

/// The text of what is told of a client: a line for each platform, which has its answer in the same place.
pub fn clients_text(
    alloc: Global,
    platforms: &[Platform],
    answers: &[ClientAnswer],
) -> Result<Text, NoMemory>
    ensures { IfOk result (λ text. text ≡ clients_text platforms.now answers.now) }
{
    let mut text = Vec::new(alloc);
    for (platform, answer) in platforms.iter().zip(answers) {
        add_platform(&mut text, *platform, answer)?;
    }
    Text::from_vec(alloc, text)
}

/// Whether the client is untyped on one of the platforms.
pub fn has_untyped(answers: &[ClientAnswer]) -> bool
    ensures { result ≡ has_untyped answers.now }
{
    answers.iter().any(|answer| answer.is_untyped())
}
