use super::*;
use weight::{Kind, Score};

// The line has one tree, of weight 3 + 4.
#[test]
fn the_one_tree(rt: HostRuntime) {
    let nothing = Score::nothing();
    let answers = two_words(
        Score::new(3),
        Score::new(4),
        &mut [nothing; 6],
        &mut [0; 2],
        &mut [Candidate::new(nothing); 51],
        &mut [Node::new(nothing); 3],
        &mut [Node::new(nothing); 1],
        &mut [<Root<_> as Kind>::nothing(); 3],
    );
    assert_eq!(rt;
        answers,
        Ok(Answers {
            first: Ok(()),
            second: Ok(()),
            taken: Ok(Taken {
                weight: Score::new(7),
                count: 1
            }),
            heads: [0, 1],
            struck: Ok(()),
        })
    );
}

// A file of the same line: two records, of weights 3 and 4.
#[test]
fn the_tree_of_a_file(rt: HostRuntime) {
    let nothing = Score::nothing();
    let answer = first_of_file(
        &[1, 0, 14, 1, 2, 0, 1, 0, 0, 0, 3, 1, 2, 0, 0, 0, 4],
        &mut [nothing; 6],
        &mut [0; 2],
        &mut [Candidate::new(nothing); 51],
        &mut [Node::new(nothing); 3],
        &mut [Node::new(nothing); 1],
        &mut [<Root<_> as Kind>::nothing(); 3],
    );
    let mut heads = [0; 40];
    heads[1] = 1;
    assert_eq!(rt;
        answer,
        Ok(FirstTaken {
            words: 2,
            taken: Ok(Taken {
                weight: Score::new(7),
                count: 1
            }),
            heads,
        })
    );
}
