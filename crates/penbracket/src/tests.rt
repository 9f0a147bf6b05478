use super::*;
use console::pieces::{OneByteReader, OneByteWriter};

#[test]
fn answers_lines_in_whatever_pieces(rt: HostRuntime) -> io::Result<()> {
    let input = BufReader::new(rt.alloc(), OneByteReader::new(b"0 1 1\n2 3 1\n0"))?;
    let mut out = OneByteWriter::new(rt.alloc());
    assert!(rt; draw_lines(rt.alloc(), input, &mut out).is_ok());
    let mut lines = out.taken().split(|byte| *byte == b'\n');
    assert!(rt; lines.next() == Some(b"heads: 0 1 1".as_slice()));
    assert!(rt; lines.nth(2) == Some(b"brackets: 1(2 3)".as_slice()));
    assert!(rt; lines.nth(5) == Some(b"root: 1".as_slice()));
    Ok(())
}
