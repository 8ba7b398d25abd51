//! Cutting a file into parts that can be read by themselves.
ghost use Rattle.std.specs.Prelude.{◌≡◌, ◌<◌, ◌-◌, EachIndex, IfOk, IfSome, IsTrue, Some, slice_get, slice_index};
ghost use Rattle.std.specs.List.{flat_map};
ghost use Rattle.csv_records.specs.Files.{file_records};
ghost use Rattle.csv_records.specs.Parts.{IsPlain};

use olap_meaning::OutOfMemory;
use std::alloc::Global;

// The least size of a part that is not the last, in bytes.
const PART_SIZE: usize = 256 * 1024;

// At least 128 for each byte that is not plain.
fn rank(byte: u8) -> u8
    ensures { result < 128 → IsPlain byte }
{
    if byte == b'"' { u8::MAX } else { byte }
}

// Whether all bytes are plain. There is no early end, so that many bytes are looked at in one step.
fn is_plain(bytes: &[u8]) -> bool
    ensures { IsTrue result → EachIndex bytes.now (λ k. IsPlain (slice_index bytes.now k)) }
{
    let mut greatest = 0u8;
    for byte in bytes {
        greatest = greatest.max(rank(*byte));
    }
    greatest < 128
}

// Where the first part ends, after a line feed. None where all the bytes are one part.
fn part_end(bytes: &[u8]) -> Option<usize>
    ensures some { IfSome result (λ end. 0 < end) }
    ensures line { IfSome result (λ end. slice_get bytes.now (end - 1) ≡ Some 10) }
{
    for i in PART_SIZE..bytes.len() {
        if bytes[i] == b'\n' {
            return Some(i + 1);
        }
    }
    None
}

/// Cuts a file into parts: the records of the parts, each read as a file of its own, are those of the file. A file with a
/// quoted field, or with a byte that is not ASCII, is one part.
pub fn record_parts<'a>(alloc: Global, bytes: &'a [u8]) -> Result<Vec<&'a [u8]>, OutOfMemory>
    ensures { IfOk result (λ parts.
        flat_map (λ part. file_records part.now) parts.items ≡ file_records bytes.now) }
{
    let mut parts = Vec::new(alloc);
    let mut rest = bytes;
    if is_plain(bytes) {
        while let Some(end) = part_end(rest) {
            let (part, more) = rest.split_at(end);
            parts.push(part)?;
            rest = more;
        }
    }
    parts.push(rest)?;
    Ok(parts)
}
