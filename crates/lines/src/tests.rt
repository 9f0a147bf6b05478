use super::*;
use weight::{Mark, Score};

#[test]
fn writes_tree_lines(rt: HostRuntime) {
    let mut space = [b'.'; 12];
    assert_eq!(rt; tree_line(1, &Score::new(13), &[0, 1], &mut space), Ok(9));
    assert_eq!(rt; &space[..], b"1\t13\t0 1\n...".as_slice());
    let marked = Mark::new(1, Score::new(-53));
    assert_eq!(rt; tree_line(2, &marked, &[2, 0], &mut space), Ok(12));
    assert_eq!(rt; &space[..], b"2\t1,-53\t2 0\n".as_slice());
    let mut short = [b'.'; 8];
    assert_eq!(rt;
        tree_line(1, &Score::new(13), &[0, 1], &mut short),
        Err(Refusal::ShortSpace)
    );
    assert_eq!(rt; &short[..], b"........".as_slice());
}

#[test]
fn writes_last_and_refused_lines(rt: HostRuntime) {
    let mut space = [b'.'; 16];
    assert_eq!(rt; last_line(Last::NoMore, &mut space), Ok(8));
    assert_eq!(rt; &space[..], b"no more\n........".as_slice());
    assert_eq!(rt; refused_line(11, 0, &mut space), Ok(16));
    assert_eq!(rt; &space[..], b"refused 11 at 0\n".as_slice());
    let mut short = [b'.'; 15];
    assert_eq!(rt; refused_line(11, 0, &mut short), Err(Refusal::ShortSpace));
    assert_eq!(rt; &short[..], b"...............".as_slice());
}
