use super::*;
use console::pieces::{OneByteReader, OneByteWriter};
use std::test::Fail;

// Bytes come and go one by one; a fault of a record is told behind the kind and the words.
#[test]
fn shows_in_pieces(rt: HostRuntime) -> Result<(), Fail> {
    let rows: [(&[u8], &str); 3] = [
        (&[2], "refused 11 at 0\n"),
        (
            &[1, 0, 8, 1, 1, 1, 0, 0, 0, 0, 5],
            "kind: score\nwords: 1\nrefused 3 at 6\n",
        ),
        (
            &[1, 0, 9, 3, 1, 0, 1, 9, 255, 240, 189, 192],
            "kind: mark over score\nwords: 1\nrecord 0: arc 0 to 1\narc 0 to 1 stands: 9,-1000000\narcs: 1\n",
        ),
    ];
    for (file, lines) in rows {
        let mut out = OneByteWriter::new(rt.alloc());
        show_file(rt.alloc(), OneByteReader::new(file), &mut out)?;
        assert_eq!(rt; out.taken(), lines.as_bytes());
    }
    Ok(())
}
