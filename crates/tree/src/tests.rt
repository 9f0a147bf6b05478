use super::*;
use refusal::Refusal;

#[test]
fn checks_heads(rt: HostRuntime) {
    assert_eq!(rt; check_heads(&[0, 1, 1]), Ok(1));
    assert_eq!(rt; check_heads(&[3, 0, 2]), Ok(2));
    assert_eq!(rt; check_heads(&[0, 0]), Err(Refusal::NotATree));
    assert_eq!(rt; check_heads(&[2, 1]), Err(Refusal::NotATree));
    assert_eq!(rt; check_heads(&[0, 3]), Err(Refusal::NotATree));
    assert_eq!(rt; check_heads(&[]), Err(Refusal::NotATree));
    assert_eq!(rt; check_heads(&[0; 41]), Err(Refusal::NotATree));
    assert_eq!(rt; find_cycle(&[2, 1]), Some(1));
    assert_eq!(rt; find_cycle(&[0, 3, 2]), Some(2));
    assert_eq!(rt; find_cycle(&[2, 3, 2, 0]), Some(2));
    assert_eq!(rt; find_cycle(&[200, 1]), None);
}

#[test]
fn draws_trees(rt: HostRuntime) {
    let mut space = [b'.'; 8];
    assert_eq!(rt; write_brackets(&[0, 1, 1], &mut space), Ok(6));
    assert_eq!(rt; &space[..], b"1(2 3)..".as_slice());
    assert_eq!(rt; write_brackets(&[2, 1], &mut space), Err(Refusal::NotATree));
    assert_eq!(rt; &space[..], b"1(2 3)..".as_slice());
    let mut short = [b'.'; 5];
    assert_eq!(rt;
        write_brackets(&[0, 1, 1], &mut short),
        Err(Refusal::ShortSpace)
    );
    assert_eq!(rt; &short[..], b".....".as_slice());
}
