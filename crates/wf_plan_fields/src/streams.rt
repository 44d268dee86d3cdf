//! The files that hold a field: input, restart and streams.

ghost use Rattle.std.specs.Prelude.{◌≡◌, ◌<◌, ◌≤◌, ◌^◌, ◌++◌, ◌==◌, IfOk, OnOk, flat_map, map};
ghost use Rattle.std.specs.Prelude.{if◌then◌else◌};
ghost use Rattle.std.specs.List.{list_any};
ghost use Rattle.wf_model.specs.Io.{is_restarted, output_streams, reads_input};
ghost use Rattle.wf_model.specs.PlanFields.{has_letter, stream_bits};
ghost use Rattle.wf_plan_fields.specs.IoParts.{part_of};

use crate::io::Part;
use std::alloc::{AllocError, Global};

/// Whether the word has the byte.
pub(crate) fn has_letter(word: &[u8], letter: u8) -> bool
    ensures { result ≡ has_letter letter word.now }
{
    word.iter().any(|b| *b == letter)
}

fn is_input(part: &Part) -> bool
    ensures { result ≡ reads_input (part_of part.now) }
{
    match part {
        Part::Input(streams) => has_letter(streams.as_slice(), 0),
        _ => false,
    }
}

fn is_restarted(part: &Part) -> bool
    ensures { result ≡ is_restarted (part_of part.now) }
{
    matches!(part, Part::Restarted)
}

/// Whether input files hold it: an `i` of stream 0.
pub(crate) fn reads_input(parts: &[Part]) -> bool
    ensures { result ≡ list_any (λ p. reads_input (part_of p)) parts.now }
{
    parts.iter().any(is_input)
}

/// Whether restart files hold it.
pub(crate) fn has_restart(parts: &[Part]) -> bool
    ensures { result ≡ list_any (λ p. is_restarted (part_of p)) parts.now }
{
    parts.iter().any(is_restarted)
}

/// Adds the streams of an `h`.
fn add_streams(streams: &mut Vec<u8>, part: &Part) -> Result<(), AllocError>
    ensures { OnOk result
        (streams.new.items ≡ streams.old.items ++ output_streams (part_of part.now)) }
{
    match part {
        Part::Output(more) => streams.extend_from_slice(more.as_slice()),
        _ => Ok(()),
    }
}

/// The streams that all `h` name, in order.
fn output_streams(alloc: Global, parts: &[Part]) -> Result<Vec<u8>, AllocError>
    ensures { IfOk result (λ v. v.items ≡ flat_map (λ p. output_streams (part_of p)) parts.now) }
{
    let mut streams = Vec::new(alloc);
    for part in parts {
        add_streams(&mut streams, part)?;
    }
    Ok(streams)
}

/// The bit of a stream that is among these, or 0.
fn bit_of(streams: &[u8], stream: u8) -> u16
    requires { stream < 10 }
    ensures value { result ≡ (if has_letter stream streams.now then 2 ^ stream else 0) }
    ensures bound { result ≤ 2 ^ stream }
{
    if has_letter(streams, stream) {
        1 << stream
    } else {
        0
    }
}

/// The streams as one number, stream n as bit n, of streams 0 to 9.
fn stream_bits(streams: &[u8]) -> u16
    ensures { result ≡ stream_bits streams.now }
{
    let mut bits: u16 = 0;
    for stream in 0..10u8 {
        bits += bit_of(streams, stream);
    }
    bits
}

/// The streams that hold it, stream n as bit n.
pub(crate) fn streams_of(alloc: Global, parts: &[Part]) -> Result<u16, AllocError>
    ensures { IfOk result
        (λ bits. bits ≡ stream_bits (flat_map output_streams (map part_of parts.now))) }
{
    let streams = output_streams(alloc, parts)?;
    Ok(stream_bits(streams.as_slice()))
}
