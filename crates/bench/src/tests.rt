use super::*;
use refusal::Refusal;
use std::test::Fail;
use weight::Score;

// What the record of two words answers, after a line of forty words, and what trees weigh.
#[test]
fn plain_by_the_rules(rt: HostRuntime) -> Result<(), Fail> {
    let mut plain = Plain::new(rt.alloc())?;
    plain.reset(40);
    assert_eq!(rt; plain.put(40, 2, Score::new(6)), Ok(()));
    assert_eq!(rt; plain.strike(0, 2), Err(Refusal::AbsentArc));
    assert_eq!(rt; plain.put(1, 2, Score::new(6)), Ok(()));
    plain.reset(2);
    assert_eq!(rt; plain.strike(1, 2), Err(Refusal::AbsentArc));
    let puts = [
        (0, 1, 9, Ok(())),
        (0, 1, 10, Ok(())),
        (0, 2, 8, Ok(())),
        (1, 2, 3, Ok(())),
        (2, 1, 4, Ok(())),
        (0, 0, 5, Err(Refusal::NoDependent)),
        (1, 3, 5, Err(Refusal::NoDependent)),
        (3, 1, 5, Err(Refusal::HeadAbove)),
        (2, 2, 5, Err(Refusal::SelfLoop)),
        (0, 1, 1_000_001, Err(Refusal::NoEntry)),
    ];
    for (head, dependent, score, told) in puts {
        assert_eq!(rt; plain.put(head, dependent, Score::new(score)), told);
    }
    assert_eq!(rt; plain.weigh(&[0, 1]), Some(Score::new(13)));
    assert_eq!(rt; plain.weigh(&[2, 0]), Some(Score::new(12)));
    assert_eq!(rt; plain.weigh(&[2, 1]), None);
    assert_eq!(rt; plain.weigh(&[0]), None);
    assert_eq!(rt; plain.strike(1, 2), Ok(()));
    assert_eq!(rt; plain.strike(1, 2), Err(Refusal::AbsentArc));
    assert_eq!(rt; plain.weigh(&[0, 1]), None);
    Ok(())
}
