use super::*;
use std::alloc::AllocError;
use std::process::Abort;

/// Checks that `input` has the answer `expected`.
fn answers(rt: &impl Abort, input: &[u8], expected: &[u8], what: &str) {
    let mut out = [b'.'; 64];
    let answer = reply(input, &mut out);
    let memory: &[u8] = &out;
    let size = expected.len();
    assert_eq!(rt; answer, Ok(size), "{what}");
    assert!(rt; size < memory.len());
    assert_eq!(rt; &memory[0..size], expected, "{what}");
    assert_eq!(rt; memory[size], b'.', "{what}");
}

#[test]
fn gives_a_file_back(rt: HostRuntime) {
    let file: &[u8] = b"GR\x01\0\x02ED\0\0\0\0\x01EN";
    answers(&rt, file, file, "a file");
}

#[test]
fn says_where_the_input_is_refused(rt: HostRuntime) {
    let cases: [(&[u8], &[u8], &str); 3] = [
        (b"", b"NO\x03\0\0\0\0", "empty"),
        (b"GR\x01\0\x02", b"NO\x03\0\0\0\x05", "no end"),
        (
            b"GR\x01\0\x02EN\0",
            b"NO\x03\0\0\0\x07",
            "a byte after the end",
        ),
    ];
    for (input, expected, what) in cases {
        answers(&rt, input, expected, what);
    }
}

#[test]
fn lacks_the_room(rt: HostRuntime) {
    let file: &[u8] = b"GR\x01\0\x02ED\0\0\0\0\x01EN";
    let mut little = [b'.'; 6];
    assert_eq!(rt; reply(file, &mut little), Err(Refusal::Short));
    assert_eq!(rt; &little, b"......", "not even for a refusal");
    let mut out = [b'.'; 13];
    assert_eq!(rt; reply(file, &mut out), Ok(7));
    assert_eq!(rt; &out, b"NO\x0a\0\0\0\x0e......", "not for the file");
}

#[test]
fn gives_the_longest_file_back(rt: HostRuntime) -> Result<(), AllocError> {
    let heap = rt.alloc();
    let mut input = Vec::new(heap);
    input.extend_from_slice(b"GR\x01\0\x02")?;
    for _ in 0..9360 {
        input.extend_from_slice(b"ED\0\0\0\0\x01")?;
    }
    input.extend_from_slice(b"RL\0\x04\0\0\0\0EN")?;
    let mut out = vec![in heap; 0; LIMIT]?;
    assert_eq!(rt; reply(&input, &mut out), Ok(65_535));
    assert!(rt; out == input);
    Ok(())
}

#[test]
fn refuses_what_is_over_the_limit(rt: HostRuntime) -> Result<(), AllocError> {
    let mut input = Vec::new(rt.alloc());
    input.extend_from_slice(b"GR\x01\0\x02")?;
    for _ in 0..9361 {
        input.extend_from_slice(b"ED\0\0\0\0\x01")?;
    }
    input.extend_from_slice(b"RL\0")?;
    answers(
        &rt,
        &input,
        b"NO\x03\0\0\xff\xfc",
        "65,535 bytes, the last three a rule that is cut",
    );
    input.extend_from_slice(b"\0EN")?;
    answers(&rt, &input, b"NO\x03\0\0\xff\xff", "a file of 65,538 bytes");
    Ok(())
}
