use super::*;
use console::pieces::{OneByteReader, OneByteWriter};

#[test]
fn answers_lines_in_whatever_pieces(rt: HostRuntime) -> io::Result<()> {
    let bytes = b"2 0 1 10 0 2 8 1 2 3 2 1 4\n41\n1 0 1 7";
    let input = BufReader::new(rt.alloc(), OneByteReader::new(bytes))?;
    let mut out = OneByteWriter::new(rt.alloc());
    assert!(rt; search_lines(rt.alloc(), input, &mut out).is_ok());
    let mut lines = out.taken().split(|byte| *byte == b'\n');
    assert!(rt; lines.nth(5) == Some(b"weight: 13".as_slice()));
    assert!(rt; lines.nth(2) == Some(b"brackets: 1(2)".as_slice()));
    assert!(rt; lines.nth(1) == Some(b"refused 1".as_slice()));
    assert!(rt; lines.nth(4) == Some(b"brackets: 1".as_slice()));
    Ok(())
}
