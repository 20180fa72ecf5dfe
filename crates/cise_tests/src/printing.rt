// What the program prints for a command and some bytes.
use crate::running::{add, bytes_of, sink, source, status_of};
use byte_ports::{EndlessSource, MemSink};
use std::alloc::Global;
use std::process::Abort;

/// The status of a command for a source of some bytes, which gives seven at a call and fails at these calls. A second source has no end.
fn status_for(
    rt: &impl Abort,
    alloc: Global,
    command: &str,
    bytes: &[u8],
    read_fails: &[u32],
    out: &mut MemSink,
) -> u8 {
    let fail_at = Vec::from_slice(alloc, read_fails).expect(rt, "memory");
    let mut spec = source(rt, alloc, bytes, 7, fail_at);
    let words = &[command, "s.cise"];
    let status = status_of(rt, alloc, words, &mut spec, &mut EndlessSource::new(), out);
    drop(spec);
    status
}

/// Whether a command prints this status and text for some bytes, at a source and a sink that fail at these calls.
pub fn prints_despite(
    rt: &impl Abort,
    alloc: Global,
    command: &str,
    bytes: &[u8],
    read_fails: &[u32],
    write_fails: &[u32],
    status: u8,
    text: &[u8],
) -> bool {
    let fail_at = Vec::from_slice(alloc, write_fails).expect(rt, "memory");
    let mut out = sink(rt, alloc, 4000, 8, fail_at);
    let ended = status_for(rt, alloc, command, bytes, read_fails, &mut out);
    let same = ended == status && out.held() == text;
    drop(out);
    same
}

/// Whether a command prints this status and text for some bytes.
pub fn prints(
    rt: &impl Abort,
    alloc: Global,
    command: &str,
    bytes: &[u8],
    status: u8,
    text: &[u8],
) -> bool {
    prints_despite(rt, alloc, command, bytes, &[], &[], status, text)
}

/// Whether some bytes are a specification.
pub fn is_spelled(rt: &impl Abort, alloc: Global, bytes: &[u8]) -> bool {
    let mut out = sink(rt, alloc, 66_000, 4000, Vec::new(alloc));
    let status = status_for(rt, alloc, "spell", bytes, &[], &mut out);
    drop(out);
    status == 0
}

/// Whether both commands refuse these bytes for this reason.
pub fn refuses(rt: &impl Abort, alloc: Global, bytes: &[u8], reason: &[u8]) -> bool {
    let mut text = bytes_of(rt, alloc, b"refused specification ");
    add(rt, &mut text, reason);
    add(rt, &mut text, b"\n");
    let checked = prints(rt, alloc, "check", bytes, 3, text.as_slice());
    let spelled = prints(rt, alloc, "spell", bytes, 3, text.as_slice());
    drop(text);
    checked && spelled
}

/// Whether some bytes are refused for this reason, or a specification where there is none.
pub fn is_read_so(rt: &impl Abort, alloc: Global, bytes: &[u8], refused: Option<&[u8]>) -> bool {
    match refused {
        Some(reason) => refuses(rt, alloc, bytes, reason),
        None => is_spelled(rt, alloc, bytes),
    }
}
