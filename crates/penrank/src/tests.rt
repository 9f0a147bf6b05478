use super::*;
use console::pieces::{OneByteReader, OneByteWriter};
use std::test::Fail;

// What the program writes for a file, where bytes come and go one by one.
fn written(heap: Global, file: &[u8]) -> io::Result<Vec<u8>> {
    let mut out = OneByteWriter::new(heap);
    rank_file(heap, OneByteReader::new(file), &mut out)?;
    let mut text = Vec::new(heap);
    text.extend_from_slice(out.taken())?;
    Ok(text)
}

// The file of so many words with a score of 0 on each arc from one of the words before, at most so many of them, or the root.
fn scores(heap: Global, words: u8, before: u8) -> io::Result<Vec<u8>> {
    let mut records = Vec::new(heap);
    for dependent in 1..=words {
        for head in dependent.saturating_sub(before)..dependent {
            records.extend_from_slice(&[head, dependent, 0, 0, 0, 0])?;
        }
    }
    let [high, low] = ((records.len().saturating_add(2) % 65_536) as u16).to_be_bytes();
    let mut file = Vec::new(heap);
    file.extend_from_slice(&[1, high, low, 1, words])?;
    file.extend_from_slice(records.as_slice())?;
    Ok(file)
}

#[test]
fn kinds_and_faults(rt: HostRuntime) -> Result<(), Fail> {
    let rows: [(&[u8], &str); 7] = [
        (&[], "refused 11 at 0\n"),
        (&[1, 0, 2, 4, 1], "refused 13 at 3\n"),
        (&[1, 0, 2, 1, 1], "no tree\n"),
        (&[1, 0, 8, 2, 1, 0, 1, 0, 0, 0, 5], "1\t-5\t0\nno more\n"),
        (
            &[1, 0, 9, 3, 1, 0, 1, 2, 255, 255, 255, 255],
            "1\t2,-1\t0\nno more\n",
        ),
        (&[1, 0, 8, 1, 1, 1, 0, 0, 0, 0, 5], "refused 3 at 6\n"),
        (&[1, 0, 9, 3, 1, 0, 1, 10, 0, 0, 0, 5], "refused 6 at 7\n"),
    ];
    for (file, lines) in rows {
        assert_eq!(rt; written(rt.alloc(), file)?.as_slice(), lines.as_bytes());
    }
    Ok(())
}

// Forty heads in a line, fifty trees, and the longest file with and without a byte behind it.
#[test]
fn limits(rt: HostRuntime) -> Result<(), Fail> {
    let chain = written(rt.alloc(), scores(rt.alloc(), 40, 1)?.as_slice())?;
    assert!(rt; chain.starts_with(b"1\t0\t0 1 2 3") && chain.ends_with(b"37 38 39\nno more\n"));
    let many = written(rt.alloc(), scores(rt.alloc(), 6, 5)?.as_slice())?;
    assert!(rt; many.ends_with(b"\nfifty\n"));
    assert_eq!(rt; many.iter().filter(|byte| **byte == b'\n').count(), 51);
    let mut long = Vec::new(rt.alloc());
    long.extend_from_slice(&[1, 0x2B, 0xC2, 3, 1])?;
    for _ in 0..1600 {
        long.extend_from_slice(&[0, 1, 0, 0, 0, 0, 0])?;
    }
    assert_eq!(rt;
        written(rt.alloc(), long.as_slice())?.as_slice(),
        b"1\t0,0\t0\nno more\n".as_slice()
    );
    long.push(0)?;
    assert_eq!(rt;
        written(rt.alloc(), long.as_slice())?.as_slice(),
        b"refused 12 at 1\n".as_slice()
    );
    Ok(())
}

// The file of 40 words of which one hangs on the root and the others on it, each at mark 9 and a score of -1,000,000.
fn star(heap: Global) -> io::Result<Vec<u8>> {
    let mut file = Vec::new(heap);
    file.extend_from_slice(&[1, 0x01, 0x1A, 3, 40])?;
    for dependent in 1..40 {
        file.extend_from_slice(&[40, dependent, 9, 0xFF, 0xF0, 0xBD, 0xC0])?;
    }
    file.extend_from_slice(&[0, 40, 9, 0xFF, 0xF0, 0xBD, 0xC0])?;
    Ok(file)
}

// The longest line of a tree, and a fault whose line is longer than a last one.
#[test]
fn long_lines(rt: HostRuntime) -> Result<(), Fail> {
    let text = written(rt.alloc(), star(rt.alloc())?.as_slice())?;
    assert!(rt;
        text.starts_with(b"1\t360,-40000000\t40 40 ") && text.ends_with(b" 40 40 0\nno more\n")
    );
    assert_eq!(rt; text.len(), 135 + 8);
    let mut file = scores(rt.alloc(), 40, 1)?;
    // record 20 hangs word 21 on itself
    assert!(rt; file.len() > 125);
    file[125] = 21;
    assert_eq!(rt;
        written(rt.alloc(), file.as_slice())?.as_slice(),
        b"refused 5 at 126\n".as_slice()
    );
    Ok(())
}
