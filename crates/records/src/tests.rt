use super::*;
use graph::{Counts, Refusal, Triple};
use std::alloc::AllocError;
use std::process::Abort;

/// Three labels, four nodes, two rules and four edges.
const SAMPLE: &[u8; 46] =
    b"GR\x03\0\x04RL\x02\x03\0\x02\x01RL\x02\0ED\0\0\0\0\x01ED\0\0\x01\0\x02ED\x01\0\x02\0\x03ED\x01\0\x03\0\0EN";

/// Where each beginning of the sample stops being a file, by its length: at the mark of the record that is cut, or at its own length where none is.
const CUT: [usize; 46] = [
    0, 0, 0, 0, 0, 5, 5, 5, 5, 5, 5, 5, 12, 12, 12, 12, 16, 16, 16, 16, 16, 16, 16, 23, 23, 23, 23,
    23, 23, 23, 30, 30, 30, 30, 30, 30, 30, 37, 37, 37, 37, 37, 37, 37, 44, 44,
];

/// Checks that bytes are no file, and where they stop being one.
fn stops(rt: &impl Abort, bytes: &[u8], place: usize, what: &str) {
    match File::read(bytes) {
        Ok(_) => panic!(rt; "{what}: accepted"),
        Err(misshapen) => {
            assert_eq!(rt; misshapen.place, place, "{what}");
        },
    }
}

/// Checks that bytes are a file.
fn accepted(rt: &impl Abort, bytes: &[u8], what: &str) {
    assert!(rt; File::read(bytes).is_ok(), "{what}: refused");
}

#[test]
fn accepts_files(rt: HostRuntime) {
    let files: [(&[u8], &str); 3] = [
        (SAMPLE, "the sample"),
        (b"GR\0\0\0EN", "no rules and no edges"),
        (
            b"GR\xff\xff\xffED\xff\xff\xff\xff\xffRL\xff\x02\x40\xffEN",
            "any numbers",
        ),
    ];
    for (bytes, what) in files {
        accepted(&rt, bytes, what);
    }
}

#[test]
fn says_where_each_beginning_stops(rt: HostRuntime) {
    let file: &[u8] = SAMPLE;
    for (length, place) in CUT.into_iter().enumerate() {
        assert!(rt; length <= file.len());
        stops(&rt, &file[..length], place, "a beginning of the sample");
    }
}

#[test]
fn says_where_other_bytes_stop(rt: HostRuntime) {
    let cases: [(&[u8], usize, &str); 12] = [
        (b"EN", 0, "the end first"),
        (b"RL\0\0GR\0\0\0EN", 0, "a rule first"),
        (b"GR\0\0\0GR\0\0\0EN", 5, "two headers"),
        (b"GR\0\0\0ENED\0\0\0\0\0EN", 7, "an edge after the end"),
        (b"GR\0\0\0ENEN", 7, "two ends"),
        (b"GR\0\0\0EN\0", 7, "a stray byte"),
        (b"GR\0\0\0PR\0\0\0\0EN", 5, "a pair"),
        (b"GR\0\0\0LS\0\0\0\0\0EN", 5, "a listing"),
        (b"GR\0\0\0NO\x03\0\0\0\0EN", 5, "a refusal"),
        (b"gr\0\0\0EN", 0, "a mark in small letters"),
        (b"GR\0\0\0RL\0\x04\0EN", 5, "items past the end"),
        (
            b"GR\0\0\0RL\0\x02\0EN",
            11,
            "items that take half of the end's mark",
        ),
    ];
    for (bytes, place, what) in cases {
        stops(&rt, bytes, place, what);
    }
    let mut longer = [0; 47];
    longer[0..46].copy_from_slice(SAMPLE);
    stops(&rt, &longer, 46, "a byte after the sample");
}

/// A header of these counts.
fn header(labels: u8, nodes: u16) -> Record<'static> {
    Record::Header(Counts { labels, nodes })
}

/// An edge of this label between these nodes.
fn edge(label: u8, from: u16, to: u16) -> Record<'static> {
    Record::Edge(Triple { label, from, to })
}

/// A rule of this head and these items.
fn rule(head: u8, items: &[u8]) -> Record<'_> {
    Record::Rule { head, items }
}

#[test]
fn gives_the_records_in_order(rt: HostRuntime) {
    let Ok(file) = File::read(SAMPLE) else {
        panic!(rt; "refused");
    };
    let expected = [
        (0, header(3, 4)),
        (5, rule(2, b"\0\x02\x01")),
        (12, rule(2, b"")),
        (16, edge(0, 0, 1)),
        (23, edge(0, 1, 2)),
        (30, edge(1, 2, 3)),
        (37, edge(1, 3, 0)),
        (44, Record::End),
    ];
    let mut records = file.records();
    for (place, record) in expected {
        assert_eq!(rt; records.next(), Some(Token { place, record }));
    }
    assert_eq!(rt; records.next(), None);
}

#[test]
fn reads_rules_of_any_length(rt: HostRuntime) -> Result<(), AllocError> {
    for count in [0u8, 8, 9, 255] {
        let mut bytes = Vec::new(rt.alloc());
        bytes.extend_from_slice(&[b'G', b'R', 1, 0, 1, b'R', b'L', 0, count])?;
        for _ in 0..count {
            bytes.push(b'x')?;
        }
        stops(&rt, &bytes, bytes.len(), "no end");
        bytes.extend_from_slice(b"EN")?;
        accepted(&rt, &bytes, "items of any number");
    }
    Ok(())
}

/// Checks that a record is written to just as many bytes of `out` as it has, between one byte and another, and not at all to one byte less.
fn written(rt: &impl Abort, record: Record<'_>, expected: &[u8], out: &mut [u8]) {
    let size = expected.len();
    out.fill(b'.');
    assert!(rt; 0 < size && size < 300 && size + 1 < out.len());
    assert_eq!(rt; record.write(&mut out[1..size]), Err(Refusal::Short));
    assert!(rt; size + 1 < out.len());
    assert_eq!(rt; &out[1..3], b"..".as_slice());
    assert_eq!(rt; record.write(&mut out[1..size + 1]), Ok(size));
    assert!(rt; size + 1 < out.len());
    assert_eq!(rt; &out[1..size + 1], expected);
    assert_eq!(rt; (out[0], out[size + 1]), (b'.', b'.'));
}

#[test]
fn writes_records(rt: HostRuntime) {
    let cases: [(Record<'_>, &[u8]); 5] = [
        (header(64, 1024), b"GR\x40\x04\0"),
        (edge(1, 0x0203, 0x0405), b"ED\x01\x02\x03\x04\x05"),
        (rule(7, b"\x80\x01"), b"RL\x07\x02\x80\x01"),
        (rule(7, b""), b"RL\x07\0"),
        (Record::End, b"EN"),
    ];
    let mut out = [0; 16];
    for (record, expected) in cases {
        written(&rt, record, expected, &mut out);
    }
}

#[test]
fn writes_output(rt: HostRuntime) {
    let (from, to) = (0x0102, 0x0304);
    let (label, pairs) = (5, 0x0001_0203);
    let (refusal, place) = (Refusal::Short, 0xffff);
    let cases = [
        (Output::Pair { from, to }, 1, 6, b".PR\x01\x02\x03\x04.."),
        (
            Output::Listing { label, pairs },
            1,
            7,
            b".LS\x05\0\x01\x02\x03.",
        ),
        (Output::No { refusal, place }, 2, 7, b".LNO\x0a\0\0\xff\xff"),
    ];
    let mut out = [b'.'; 9];
    for (output, at, size, expected) in cases {
        let before = out;
        assert!(rt; at <= 2 && 0 < size && size <= 7);
        let end = at + size;
        assert_eq!(rt; output.write(&mut out[at..end - 1]), Err(Refusal::Short));
        assert_eq!(rt; out, before);
        assert_eq!(rt; output.write(&mut out[at..end]), Ok(size));
        assert_eq!(rt; &out, expected);
    }
}

#[test]
fn refuses_a_long_rule_before_a_short_output(rt: HostRuntime) {
    let mut out = [b'.'; 260];
    let long = Record::Rule {
        head: 0,
        items: &[b'x'; 256],
    };
    assert_eq!(rt; long.write(&mut out), Err(Refusal::Long));
    assert_eq!(rt; long.write(&mut out[0..1]), Err(Refusal::Long));
    let longest = Record::Rule {
        head: 0,
        items: &[b'x'; 255],
    };
    assert_eq!(rt; longest.write(&mut out[0..258]), Err(Refusal::Short));
    assert_eq!(rt; &out, &[b'.'; 260]);
    assert_eq!(rt; longest.write(&mut out), Ok(259));
    assert_eq!(rt;
        (out[3], out[4], out[258], out[259]),
        (255, b'x', b'x', b'.')
    );
}

#[test]
fn copies_a_file(rt: HostRuntime) {
    let mut out = [b'.'; 48];
    assert_eq!(rt; copy_file(SAMPLE, &mut out[1..48]), Ok(46));
    assert_eq!(rt; (out[0], out[47]), (b'.', b'.'));
    let copy: &[u8] = &out[1..47];
    let file: &[u8] = SAMPLE;
    assert_eq!(rt; copy, file);
}

#[test]
fn refuses_a_copy(rt: HostRuntime) {
    let mut out = [b'.'; 45];
    let cases: [(&[u8], Refusal, usize); 2] = [
        (SAMPLE, Refusal::Short, 46),
        (b"GR\0\0\0ed", Refusal::Shape, 5),
    ];
    for (bytes, refusal, place) in cases {
        assert_eq!(rt; copy_file(bytes, &mut out), Err(Fault { refusal, place }));
    }
    assert_eq!(rt; &out, &[b'.'; 45]);
}
