//! PGM texts: texts that encode pictures, texts that don't, and the text of an image.
use crate::images::lend;
use pgm_images::{PgmFault, read, write};
use std::test::Fail;
use vx_base::{Desc, Format, Rect, Samples};

#[test]
fn pictures(rt: HostRuntime) -> Result<(), Fail> {
    let raw = read(rt.alloc(), b"P5\n2 1\n255\n\x0A\x14")?;
    assert!(rt; Some(raw.desc()) == Desc::new(2, 1, Format::U8));
    assert!(rt;
        matches!(raw.samples(), Samples::U8(samples) if samples.as_slice() == [10, 20].as_slice())
    );
    let plain = read(rt.alloc(), b"P2#one\n1 01 300 5 # five\n")?;
    assert!(rt; Some(plain.desc()) == Desc::new(1, 1, Format::S16));
    assert!(rt;
        matches!(plain.samples(), Samples::S16(samples) if samples.as_slice() == [5].as_slice())
    );
    Ok(())
}

/// Returns the fault of a text, or `None` if it encodes a picture.
fn fault(rt: HostRuntime, text: &[u8]) -> Option<PgmFault> {
    read(rt.alloc(), text).err()
}

#[test]
fn no_pictures(rt: HostRuntime) {
    let texts: [(&[u8], PgmFault); 26] = [
        (b"", PgmFault::InvalidFormat),
        (b"P6 1 1 255 0", PgmFault::InvalidFormat),
        (b"P5 1 1 255", PgmFault::InvalidFormat),
        (b"P5 0 1 255x", PgmFault::InvalidFormat),
        (b"P5 1 1 255#c\n \0", PgmFault::InvalidFormat),
        (b"P2 1 1 255 #", PgmFault::InvalidFormat),
        (b"P2\x0B1 1 255 0", PgmFault::InvalidFormat),
        (b"P2 0 1 255x", PgmFault::InvalidDimension),
        (b"P5 0 1 255 ", PgmFault::InvalidDimension),
        (
            b"P5 1 99999999999999999999999999 0 ",
            PgmFault::InvalidDimension,
        ),
        (b"P5 65537 1 255 \0", PgmFault::InvalidDimension),
        (b"P2 1 1 0 0", PgmFault::InvalidFormat),
        (b"P2 1 1 32768 0", PgmFault::InvalidFormat),
        (b"P5 1 1 255 \0\0", PgmFault::InvalidFormat),
        (b"P2 1 1 9 10 x", PgmFault::InvalidFormat),
        (b"P2 1 1 9 10", PgmFault::InvalidValue),
        (b"P5", PgmFault::InvalidFormat),
        (
            b"P5 99999999999999999999 1 255\n",
            PgmFault::InvalidDimension,
        ),
        (b"P5 0 1 0\n", PgmFault::InvalidDimension),
        (b"P5 4096 4096 255\n", PgmFault::InvalidFormat),
        (b"P5 8192 8192 255\n", PgmFault::InvalidFormat),
        (b"P5 1 1 99999999999999999999\n", PgmFault::InvalidFormat),
        (b"P5 1 1 255#x\n", PgmFault::InvalidFormat),
        (b"P2 2 1 255 1", PgmFault::InvalidFormat),
        (b"P2 1 1 255 5#", PgmFault::InvalidFormat),
        (b"P2 1 1 255 99999999999999999999", PgmFault::InvalidValue),
    ];
    for (text, why) in texts {
        assert!(rt; fault(rt, text) == Some(why));
    }
}

#[test]
fn what_is_cut_short_is_none(rt: HostRuntime) {
    for text in [
        b"P5 2 1 255 \x0A\x14".as_slice(),
        b"P5#c\n2\t1\r255\n\x0A\x14",
        b"P5 1 1 300 \x01\x00",
        b"P2 2 1 255 1 2",
        b"P5\n1 2\n1\n\x00\x01",
        b"P5 0001 1 00255\r\x80",
        b"P5 2 2 256 \x00\x01\x00\x02\x01\x00\x00\xFF",
        b"P2#a\n#b\r1 1#c\n32767#d\n7",
        b"P2\r\n2\r\n2\r\n9\r\n1\r\n2\r\n3\r\n4",
        b"P2\t3 1 1 0 1 0",
    ] {
        for end in 0..text.len() {
            assert!(rt; fault(rt, &text[..end]).is_some());
        }
        assert!(rt; fault(rt, text) == None);
    }
}

#[test]
fn text_of_an_image(rt: HostRuntime) -> Result<(), Fail> {
    let desc = Desc::new(3, 3, Format::U8).ok_or("a description")?;
    let centre = Rect::new(1, 1, 2, 2).ok_or("a rectangle")?;
    let mut samples = [1, 2, 9, 3, 4, 8, 5, 6, 7];
    let text = write(rt.alloc(), &lend(desc, centre, &mut samples))?;
    assert!(rt; text.as_slice() == b"P5\n3 3\n255\n\0\0\0\0\x04\0\0\0\0".as_slice());
    Ok(())
}
