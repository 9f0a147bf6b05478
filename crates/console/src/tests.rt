ghost use Rattle.std.specs.Prelude.{◌≡◌, [], ◌∷◌, ◌++◌};

use super::*;
use pieces::{OneByteReader, OneByteWriter};
use std::io::{BufReader, Read, repeat};

// A reader that cannot be read.
#[derive(Drop)]
struct Broken;

impl Read for Broken {
    fn read(&mut self, _buf: &mut [u8]) -> io::Result<usize> {
        Err(ErrorKind::PermissionDenied.into())
    }
}

// Answers a line by itself with a bar behind it.
#[derive(Drop)]
struct WithBar {
    heap: Global,
}

impl Answer for WithBar {
    ghost answers = { λ line text. text ≡ line ++ 124 ∷ [] };

    fn answer(&mut self, line: &[u8]) -> Result<Vec<u8>, AllocError> {
        let mut text = Vec::from_slice(self.heap, line)?;
        text.push(b'|')?;
        Ok(text)
    }
}

#[test]
fn gives_each_line_and_ends(rt: HostRuntime) -> io::Result<()> {
    let mut lines = lines_of(rt.alloc(), b"0 1\r\n\nlast".as_slice());
    for want in [b"0 1\r".as_slice(), b"".as_slice(), b"last".as_slice()] {
        let line = lines.next();
        assert!(rt; matches!(&line, Some(Ok(line)) if line.as_slice() == want));
    }
    assert!(rt; lines.next().is_none());
    let broken = lines_of(rt.alloc(), BufReader::new(rt.alloc(), Broken)?).next();
    assert!(rt;
        matches!(&broken, Some(Err(LineError::Io(error))) if error.kind() == ErrorKind::PermissionDenied)
    );
    Ok(())
}

#[test]
fn waits_for_no_endless_line(rt: HostRuntime) -> io::Result<()> {
    let mut endless = lines_of(rt.alloc(), BufReader::new(rt.alloc(), repeat(b'x'))?);
    assert!(rt; matches!(endless.next(), Some(Err(LineError::TooLong))));
    let longest = BufReader::new(rt.alloc(), repeat(b'x').take(65_535))?;
    let mut lines = lines_of(rt.alloc(), longest.chain(b"\ny".as_slice()));
    let line = lines.next();
    assert!(rt; matches!(&line, Some(Ok(line)) if line.len() == 65_535));
    let line = lines.next();
    assert!(rt; matches!(&line, Some(Ok(line)) if line.as_slice() == b"y".as_slice()));
    Ok(())
}

#[test]
fn answers_in_order_in_whatever_pieces(rt: HostRuntime) -> io::Result<()> {
    let mut by = WithBar { heap: rt.alloc() };
    let input = BufReader::new(rt.alloc(), OneByteReader::new(b"a\n\nbc\r\nd"))?;
    let mut out = OneByteWriter::new(rt.alloc());
    let outcome = answer_lines(rt.alloc(), input, &mut out, &mut by);
    assert!(rt; outcome.is_ok());
    assert!(rt; out.taken() == b"a||bc\r|d|".as_slice());
    Ok(())
}

#[test]
fn ends_quietly_where_nobody_reads(rt: HostRuntime) {
    assert!(rt; ended(&rt, Err(LineError::Io(ErrorKind::BrokenPipe.into()))).is_ok());
    assert!(rt; ended(&rt, Err(LineError::Io(ErrorKind::StorageFull.into()))).is_err());
    assert!(rt; ended(&rt, Err(LineError::TooLong)).is_err());
}
