// Texts and vectors as they are exchanged.
use crate::{lines, row};
use std::alloc::Global;
use std::test::Fail;
use va_core::Memory;

fn no_memory(_: Memory) -> Fail {
    Fail::new("memory")
}

// The lines of a text, each with a newline.
fn read(alloc: Global, text: &[u8]) -> Result<Vec<u8>, Fail> {
    let mut all = Vec::new(alloc);
    for line in &lines(alloc, text).map_err(no_memory)? {
        all.extend_from_slice(line.as_slice())?;
        all.push(b'\n')?;
    }
    Ok(all)
}

#[test]
fn each_record_is_a_line(rt: HostRuntime) -> Result<(), Fail> {
    let texts: [(&[u8], &[u8]); 7] = [
        (
            b"1,10,10\n2,120,120\nx,1,1\n",
            b"insert 1 10,10\ninsert 2 120,120\ninsert x 1,1\n",
        ),
        (
            b"1,10,20,30\n2,40\n3\n",
            b"insert 1 10,20,30\ninsert 2 40\ninsert 3 \n",
        ),
        (b"\n\r\n4,5\r\n\n6,7", b"insert 4 5\ninsert 6 7\n"),
        (b"\"8\",\"9,10\",11\n", b"insert 8 9,10,11\n"),
        (b"\"a\nb\",\"\"\"\",\n", b"insert a\nb \",\n"),
        (b"\xEF\xBB\xBF12,13\n", b"insert 12 13\n"),
        (b"", b""),
    ];
    for (text, wanted) in texts {
        assert_eq!(rt; read(rt.alloc(), text)?.as_slice(), wanted, "at {text:?}");
    }
    Ok(())
}

#[test]
fn each_vector_is_a_record(rt: HostRuntime) -> Result<(), Fail> {
    let vectors: [(u32, &[u8], &[u8]); 4] = [
        (1, &[10, 10], b"1,10,10\n"),
        (2, &[120, 120], b"2,120,120\n"),
        (4_294_967_295, &[0, 255, 7], b"4294967295,0,255,7\n"),
        (0, &[], b"0\n"),
    ];
    for (id, vector, wanted) in vectors {
        let text = row(rt.alloc(), id, vector).map_err(no_memory)?;
        assert_eq!(rt; text.as_slice(), wanted, "at {id}");
    }
    Ok(())
}
