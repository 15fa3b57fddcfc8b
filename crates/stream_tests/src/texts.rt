//! PGM texts that are written to images and read from them: in pieces, cut short, and refused.
use crate::pictures::{ask, ask_over, frame, image, opened, scatter};
use crate::streams::{ALL_AT_ONCE, Devices, in_pieces, serve_bytes};
use client_contexts::Runtime;
use client_model::{Request, Text};
use std::alloc::Global;
use std::test::Fail;
use vx_base::{Desc, Format, Samples};
use vx_requests::StreamFault;

/// Widths and heights of images. The request that writes the first image's text has a body of at
/// most 64 bytes; the other bodies are longer.
const SIDES: [(u16, u16); 3] = [(3, 2), (13, 11), (100, 7)];

/// Returns a raw text with this maxval. The U8 samples are pseudorandom; some may be above the
/// maxval.
fn text(alloc: Global, width: u16, height: u16, maxval: u16, seed: u32) -> Result<Vec<u8>, Fail> {
    let mut text = format!(in alloc; "P5\n{width} {height}\n{maxval}\n")?.into_bytes();
    let count = usize::from(width) * usize::from(height);
    let mut samples = Samples::zeros(alloc, Format::U8, count)?;
    scatter(&mut samples, seed);
    if let Samples::U8(samples) = &samples {
        text.extend_from_slice(samples)?;
    }
    Ok(text)
}

/// Returns the frame in which client 1 writes a text to its image.
fn writing(alloc: Global, text: &[u8]) -> Result<Vec<u8>, Fail> {
    let text = Text::new(text.to_vec(alloc)?);
    frame(alloc, &Request::WriteImagePgm(image(), text))
}

/// Returns the frame in which client 1 reads its image as a text.
fn reading(alloc: Global) -> Result<Vec<u8>, Fail> {
    frame(alloc, &Request::ReadImagePgm(image()))
}

/// Returns the reply frame that gives client 1 a text.
fn answer(alloc: Global, text: &[u8]) -> Result<Vec<u8>, Fail> {
    let length = (text.len() as u64 + 4).to_be_bytes();
    let mut reply = length[4..].to_vec(alloc)?;
    reply.extend_from_slice(b"\0\x01\x08\0")?;
    reply.extend_from_slice(text)?;
    Ok(reply)
}

/// Writes a text to the image, and returns the reply.
fn write(alloc: Global, runtime: &mut Runtime, text: &[u8]) -> Result<Vec<u8>, Fail> {
    let frame = writing(alloc, text)?;
    ask(alloc, runtime, frame.as_slice())
}

/// Reads the image as a text, and returns the reply.
fn read(alloc: Global, runtime: &mut Runtime) -> Result<Vec<u8>, Fail> {
    let frame = reading(alloc)?;
    ask(alloc, runtime, frame.as_slice())
}

/// Returns whether the image is read as this text.
fn holds(alloc: Global, runtime: &mut Runtime, text: &[u8]) -> Result<bool, Fail> {
    let replies = read(alloc, runtime)?;
    Ok(replies.as_slice() == answer(alloc, text)?.as_slice())
}

/// Splits replies after the first reply, which answers a write and has eight bytes.
fn split_reply(replies: &[u8]) -> (&[u8], &[u8]) {
    replies.split_at(replies.len().min(8))
}

/// Returns the frames in which client 1 writes a text to its image, and reads its image as a text.
fn writing_and_reading(alloc: Global, text: &[u8]) -> Result<Vec<u8>, Fail> {
    let reading = reading(alloc)?;
    let mut frames = writing(alloc, text)?;
    frames.extend_from_slice(reading.as_slice())?;
    Ok(frames)
}

/// Writes a text and reads it back over these devices. Returns whether the text is unchanged.
fn comes_back(
    alloc: Global,
    runtime: &mut Runtime,
    text: &[u8],
    devices: Devices,
) -> Result<bool, Fail> {
    let frames = writing_and_reading(alloc, text)?;
    let replies = ask_over(alloc, runtime, frames.as_slice(), devices)?;
    let (written, read) = split_reply(replies.as_slice());
    let is_written = written == b"\0\0\0\x04\0\x01\x06\0".as_slice();
    Ok(is_written && read == answer(alloc, text)?.as_slice())
}

/// Returns whether texts come back that arrive and leave in pieces.
fn come_back_in_pieces(alloc: Global, runtime: &mut Runtime, desc: Desc) -> Result<bool, Fail> {
    let mut come_back = true;
    for (source_piece, sink_piece, seed) in [(1_000_000, 1_000_000, 1), (100, 9, 2), (7, 3, 3)] {
        let text = text(alloc, desc.width(), desc.height(), 255, seed)?;
        let devices = in_pieces(source_piece, sink_piece);
        come_back &= comes_back(alloc, runtime, text.as_slice(), devices)?;
    }
    Ok(come_back)
}

/// A text that is written is read back byte for byte.
#[test]
fn texts_in_pieces(rt: HostRuntime) -> Result<(), Fail> {
    for (width, height) in SIDES {
        let desc = Desc::new(width, height, Format::U8).ok_or("within the limits")?;
        let mut runtime = opened(rt.alloc(), desc)?;
        assert!(rt; come_back_in_pieces(rt.alloc(), &mut runtime, desc)?);
    }
    Ok(())
}

/// Serves 23 parts of `stream`, a frame that writes another text than `first`. Each part begins at
/// the frame's start. Returns whether each time serving fails with `Truncated` and the image still
/// has the text `first`.
fn stays_after_parts(
    alloc: Global,
    runtime: &mut Runtime,
    first: &[u8],
    stream: &[u8],
) -> Result<bool, Fail> {
    for parts in 1..24 {
        let count = stream.len() / 24 * parts;
        let served = serve_bytes(alloc, runtime, &stream[..count], ALL_AT_ONCE);
        let is_short = 0 < count && served.result == Err(StreamFault::Truncated);
        if !is_short || !holds(alloc, runtime, first)? {
            return Ok(false);
        }
    }
    Ok(true)
}

/// Writes the first text, parts of the next one, and then the next one whole. Returns whether the
/// image has the first text until then.
fn changes_with_a_whole_frame(
    alloc: Global,
    runtime: &mut Runtime,
    first: &[u8],
    next: &[u8],
) -> Result<bool, Fail> {
    write(alloc, runtime, first)?;
    let stream = writing(alloc, next)?;
    let stays = stays_after_parts(alloc, runtime, first, stream.as_slice())?;
    ask(alloc, runtime, stream.as_slice())?;
    Ok(stays && holds(alloc, runtime, next)?)
}

/// An image doesn't change if the stream ends within the frame that writes it.
#[test]
fn texts_cut_short(rt: HostRuntime) -> Result<(), Fail> {
    let alloc = rt.alloc();
    for (width, height) in SIDES {
        let desc = Desc::new(width, height, Format::U8).ok_or("within the limits")?;
        let first = text(alloc, width, height, 255, 1)?;
        let next = text(alloc, width, height, 255, 2)?;
        let mut runtime = opened(alloc, desc)?;
        let (first, next) = (first.as_slice(), next.as_slice());
        assert!(rt; changes_with_a_whole_frame(alloc, &mut runtime, first, next)?);
    }
    Ok(())
}

/// Returns whether `text` is refused with this code and the image still has the text `first`.
fn is_refused(
    alloc: Global,
    runtime: &mut Runtime,
    text: &[u8],
    code: u8,
    first: &[u8],
) -> Result<bool, Fail> {
    let replies = write(alloc, runtime, text)?;
    let is_refused = replies.as_slice() == [0, 0, 0, 4, 0, 1, 6, code].as_slice();
    Ok(is_refused && holds(alloc, runtime, first)?)
}

/// Writes texts with faults to an image of 40 by 3 samples, which has the first text. Returns
/// whether each is refused with its code.
fn refuses_faults(alloc: Global, runtime: &mut Runtime, first: &[u8]) -> Result<bool, Fail> {
    let mut refuses = true;
    // Width, height, maxval, the number of bytes missing at the end, and the code.
    for (width, height, maxval, short, code) in [
        (40, 3, 255, 1, 5),
        (40, 3, 100, 0, 7),
        (3, 40, 255, 0, 6),
        (3, 40, 255, 1, 5),
        (3, 40, 100, 0, 7),
        (0, 3, 255, 0, 6),
        (40, 3, 0, 0, 5),
    ] {
        let other = text(alloc, width, height, maxval, 3)?;
        let part = &other.as_slice()[..other.len().saturating_sub(short)];
        refuses &= is_refused(alloc, runtime, part, code, first)?;
    }
    Ok(refuses)
}

/// Returns whether raw texts with two bytes for each sample are refused, and a raw text of another
/// width and height than the image.
fn refuses_others(alloc: Global, runtime: &mut Runtime, first: &[u8]) -> Result<bool, Fail> {
    let mut refuses = true;
    for (other, code) in [
        (b"P5 1 1 300\n\x01\x2c".as_slice(), 5),
        (b"P5 1 1 300\n\x01\x2d".as_slice(), 7),
        (b"P5 1 1 255\n\x01".as_slice(), 6),
    ] {
        refuses &= is_refused(alloc, runtime, other, code, first)?;
    }
    Ok(refuses)
}

/// If a text has a fault and also doesn't match the image, the fault is reported. A refused text
/// doesn't change the image.
#[test]
fn texts_refused(rt: HostRuntime) -> Result<(), Fail> {
    let alloc = rt.alloc();
    let desc = Desc::new(40, 3, Format::U8).ok_or("within the limits")?;
    let first = text(alloc, 40, 3, 255, 1)?;
    let mut runtime = opened(alloc, desc)?;
    write(alloc, &mut runtime, first.as_slice())?;
    assert!(rt; refuses_faults(alloc, &mut runtime, first.as_slice())?);
    assert!(rt; refuses_others(alloc, &mut runtime, first.as_slice())?);
    Ok(())
}

/// An S16 image can't be read as a text.
#[test]
fn no_texts_of_shorts(rt: HostRuntime) -> Result<(), Fail> {
    let alloc = rt.alloc();
    let desc = Desc::new(4, 3, Format::S16).ok_or("within the limits")?;
    let mut runtime = opened(alloc, desc)?;
    let replies = read(alloc, &mut runtime)?;
    assert!(rt; replies.as_slice() == b"\0\0\0\x04\0\x01\x08\x05".as_slice());
    Ok(())
}
