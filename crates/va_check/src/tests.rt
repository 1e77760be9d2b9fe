// The worked certificate, one change of it at a time, and sources that are no certificate.
ghost use Rattle.std.specs.Prelude.{[]};

use crate::*;
use std::alloc::Global;
use std::test::Fail;
use va_cert::{FormFault, from_text, to_text};
use va_disk::{Feed, Source, SourceFault};

// Ids 1 at (10, 10), 2 at (120, 120) and 3 at (200, 200), and the nearest one to (0, 0).
const TEXT: &str =
    r#"{"answer":[[1,200]],"boxes":[[1,[0,0],[127,127]],[2,[0,0],[127,127]],[3,[128,128],[255,255]]],"fetched":[[1,[10,10],[0,0]],[2,[120,120],[0,0]]],"k":1,"objects":[[0,0]],"weights":[1,1]}"#;

// Other keys' order, a key twice, and blanks.
const SPELLED: &str =
    "\n{ \"weights\" : [1,\t1], \"k\":7, \"objects\":[[0,0]],\r\n \"fetched\":[[1,[10,10],[0,0]],[2,[120,120],[0,0]]], \"boxes\":[[1,[0,0],[127,127]],[2,[0,0],[127,127]],[3,[128,128],[255,255]]], \"\\u006b\":1, \"answer\":[[1,200]] } ";

// A part of the worked text, what stands in its place, and the answer then.
const CHANGES: [(&str, &str, &str); 35] = [
    ("answer", "answer", "accepted"),
    (",[2,[120,120],[0,0]]", "", "refused: undetermined 2"),
    (
        "[120,120],[0,0]",
        "[120,120],[127,127]",
        "refused: needless 2",
    ),
    (
        "[120,120],[0,0]",
        "[120,120],[120,120]",
        "refused: needless 2",
    ),
    (
        "[120,120],[0,0]",
        "[120,120],[128,0]",
        "refused: substitute 2",
    ),
    ("[10,10],[0,0]", "[200,10],[0,0]", "refused: outside 1"),
    ("[[1,200]]", "[[1,201]]", "refused: answer 0"),
    ("[[1,200]]", "[[2,200]]", "refused: answer 0"),
    ("[[1,200]]", "[]", "refused: answer 0"),
    ("[[1,200]]", "[[1,200],[2,28800]]", "refused: answer 1"),
    ("[2,[120,120]", "[9,[120,120]", "refused: form fetched 1"),
    ("[2,[120,120]", "[1,[120,120]", "refused: form fetched 1"),
    ("[10,10],[0,0]", "[10],[0,0]", "refused: form fetched 0"),
    (
        "[1,[0,0],[127,127]],[2,[0,0],[127,127]],[3,[128,128],[255,255]]",
        "[3,[128,128],[255,255]],[2,[0,0],[127,127]],[1,[0,0],[127,127]]",
        "refused: form boxes 1",
    ),
    (
        "[3,[128,128],[255,255]]",
        "[3,[128,255],[255,128]]",
        "refused: form boxes 2",
    ),
    ("\"k\":1", "\"k\":0", "refused: form k"),
    ("\"k\":1", "\"k\":4097", "refused: form k"),
    ("\"k\":1", "\"k\":70000", "refused: number"),
    ("\"k\":1", "\"k\":1.0", "refused: number"),
    ("\"k\":1", "\"k\":1e0", "refused: number"),
    ("\"k\":1", "\"k\":-1", "refused: number"),
    ("\"k\":1", "\"k\":-0", "refused: number"),
    ("\"k\":1", "\"k\":\"1\"", "refused: object"),
    ("\"k\":1", "\"k\":1,\"l\":1", "refused: object"),
    ("\"k\":1", "\"k\":2,\"k\":1", "accepted"),
    ("\"k\":1", "\"k\":1,\"k\":0", "refused: form k"),
    ("[1,1]", "[]", "refused: form weights"),
    ("[1,1]", "[1]", "refused: form objects"),
    ("[1,1]", "[1,65536]", "refused: number"),
    ("[[0,0]]", "[]", "refused: form objects"),
    ("[[0,0]]", "[[0,256]]", "refused: number"),
    (",\"weights\":[1,1]", "", "refused: object"),
    ("[[1,200]]", "[[1,18446744073709551616]]", "refused: number"),
    ("[[1,200]]", "[[4294967296,200]]", "refused: number"),
    ("[[1,200]]", "[[1,200,[]],-1]", "refused: object"),
];

// Bytes that are no certificate's text.
const OTHERS: [(&[u8], &str); 8] = [
    (b"", "refused: text"),
    (b"{", "refused: text"),
    (b"{}", "refused: object"),
    (b"cert ", "refused: text"),
    (b"cert 1 0,0", "refused: text"),
    (b"[\xff]", "refused: text"),
    (b"1e400", "refused: text"),
    (b"[70000]", "refused: object"),
];

// The text of what a source is judged that gives the bytes in pieces.
fn answer(alloc: Global, bytes: &[u8], piece: u64) -> Result<String, Fail> {
    let failed = |_| Fail::new("memory");
    let mut source = Feed::new(alloc, bytes.to_vec(alloc)?, piece.max(1), Vec::new(alloc)).map_err(
        failed,
    )?;
    Ok(format!(in alloc; "{}", judge(alloc, &mut source))?)
}

#[test]
fn each_change_of_the_worked_certificate_has_its_answer(rt: HostRuntime) -> Result<(), Fail> {
    let alloc = rt.alloc();
    for (old, new, wanted) in CHANGES {
        let text = TEXT.replacen(alloc, old, new, 1)?;
        assert_eq!(rt;
            answer(alloc, text.as_bytes(), 7)?.as_str(),
            wanted,
            "{}",
            text.as_str()
        );
        let line = format!(in alloc; "cert {}\n", text.as_str())?;
        assert_eq!(rt; answer(alloc, line.as_bytes(), 4096)?.as_str(), wanted);
    }
    assert_eq!(rt; answer(alloc, SPELLED.as_bytes(), 1)?.as_str(), "accepted");
    Ok(())
}

#[test]
fn what_is_no_certificate_is_refused(rt: HostRuntime) -> Result<(), Fail> {
    let alloc = rt.alloc();
    for (bytes, wanted) in OTHERS {
        assert_eq!(rt; answer(alloc, bytes, 3)?.as_str(), wanted);
    }
    for (depth, wanted) in [
        (127, "refused: object"),
        (128, "refused: text"),
        (200, "refused: text"),
    ] {
        let mut text = vec![in alloc; b'['; depth]?;
        text.resize(depth + depth, b']')?;
        assert_eq!(rt; answer(alloc, &text, 64)?.as_str(), wanted);
    }
    Ok(())
}

// So many blanks.
#[derive(Drop)]
struct Blanks {
    left: usize,
}

impl Source for Blanks {
    ghost told = { ⊥ };

    ghost left = { λ blanks. [] };

    ghost faults = { λ blanks. 0 };

    fn take(&mut self, out: &mut [u8]) -> Result<usize, SourceFault> {
        let count = out.len().min(self.left);
        out[..count].fill(b' ');
        self.left -= count;
        Ok(count)
    }
}

#[test]
fn a_source_is_read_to_its_limit(rt: HostRuntime) {
    let mut source = Blanks { left: 33_554_433 };
    assert_eq!(rt; judge(rt.alloc(), &mut source), Judged::TooLong);
}

#[test]
fn a_source_that_fails_is_a_read_fault(rt: HostRuntime) -> Result<(), Fail> {
    let alloc = rt.alloc();
    for number in [0, 2, 4] {
        let fails = vec![in alloc; number]?;
        let bytes = TEXT.as_bytes().to_vec(alloc)?;
        let mut source = Feed::new(alloc, bytes, 64, fails).map_err(|_| Fail::new("memory"))?;
        let judged = judge(alloc, &mut source);
        let wanted = if number < 4 {
            Judged::ReadFault
        } else {
            Judged::Accepted
        };
        assert_eq!(rt; judged, wanted);
    }
    Ok(())
}

#[test]
fn a_certificate_is_checked_and_written_as_it_was_read(rt: HostRuntime) -> Result<(), Fail> {
    let alloc = rt.alloc();
    let mut cert = from_text(alloc, SPELLED.as_bytes()).map_err(|_| Fail::new("read"))?;
    assert_eq!(rt; check(alloc, &cert), Ok(()));
    let text = to_text(alloc, &cert).map_err(|_| Fail::new("memory"))?;
    assert_eq!(rt; text.as_str(), TEXT);
    cert.k = 0;
    assert_eq!(rt; check(alloc, &cert), Err(Refusal::Form(Part::K)));
    Ok(())
}

#[test]
fn a_verdict_has_its_code(rt: HostRuntime) {
    let codes = [
        (Judged::Accepted, 0),
        (Judged::Refused(Refusal::Form(Part::K)), 1),
        (Judged::Unread(FormFault::Text), 1),
        (Judged::ReadFault, 3),
        (Judged::Memory, 7),
        (Judged::TooLong, 8),
    ];
    for (judged, code) in codes {
        assert_eq!(rt; judged.code(), code);
    }
}
