// What is written where a text is no schedule.

ghost use Rattle.std.specs.Prelude.{◌≡◌, ◌≢◌, ◌++◌, [], ◌∷◌, OnOk, IfOk, decimal};
ghost use Rattle.schedule_json.specs.Texts.{path_text, refusal_text as refusal_text_of};

use crate::refusal::{Path, ScheduleRefused};
use std::alloc::{AllocError, Global};

fn push_pair(text: &mut Vec<u8>, first: &[u8], second: &[u8]) -> Result<(), AllocError>
    ensures { OnOk result (text.new.items ≡ text.old.items ++ (first.now ++ second.now)) }
{
    text.extend_from_slice(first)?;
    text.extend_from_slice(second)
}

fn push_path(alloc: Global, text: &mut Vec<u8>, path: &Path) -> Result<(), AllocError>
    ensures { OnOk result (text.new.items ≡ text.old.items ++ path_text path.now) }
{
    match path {
        Path::Top => text.extend_from_slice(b"top"),
        Path::Sizes => text.extend_from_slice(b"sizes"),
        Path::Size(sort) => push_pair(text, b"sizes ", sort.bytes()),
        Path::Constants => text.extend_from_slice(b"constants"),
        Path::Constant(name) => push_pair(text, b"constants ", name.bytes()),
        Path::Replicas => text.extend_from_slice(b"replicas"),
        Path::Steps => text.extend_from_slice(b"steps"),
        Path::Step(number) => push_pair(text, b"step ", number.to_string(alloc)?.as_bytes()),
    }
}

fn placed_text(alloc: Global, before: &[u8], path: &Path) -> Result<Vec<u8>, AllocError>
    ensures { IfOk result (λ text. text.items ≡ before.now ++ path_text path.now ++ 10 ∷ []) }
{
    let mut text = Vec::from_slice(alloc, before)?;
    push_path(alloc, &mut text, path)?;
    text.push(b'\n')?;
    Ok(text)
}

/// The line of a refusal. Where memory ended there is none to write.
pub fn refusal_text(alloc: Global, refused: &ScheduleRefused) -> Result<Vec<u8>, AllocError>
    ensures text { IfOk result (λ text. text.items ≡ refusal_text_of refused.now) }
    ensures some { OnOk result (refused.now ≢ ScheduleRefused.Memory) }
{
    match refused {
        ScheduleRefused::Json => Vec::from_slice(alloc, b"refused schedule json\n"),
        ScheduleRefused::Shape { path } => placed_text(alloc, b"refused schedule shape ", path),
        ScheduleRefused::Size { path } => placed_text(alloc, b"refused schedule size ", path),
        ScheduleRefused::Memory => Err(AllocError),
    }
}

/// The most bytes of a schedule.
pub const MOST_SCHEDULE_BYTES: usize = 16_777_216;

/// The line where there are more bytes than a schedule has.
pub const LONG: &[u8] = b"refused schedule long\n";
