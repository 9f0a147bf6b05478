// Forty words with every arc: fifty trees, the same whatever the working space held.
use bench::Plain;
use desk::{Memory, Random};
use ranking::Ranking;
use refusal::Refusal;
use search::Node;
use sheet::Sheet;
use std::alloc::Global;
use std::process::Abort;
use std::test::Fail;
use weight::{Kind, Root, Score};

// A tree that was handed out: its heads and its weight.
#[derive(Clone, Copy)]
struct Tree {
    heads: [u8; 40],
    weight: Score,
}

// How many different scores the arcs of a line have.
#[derive(Clone, Copy)]
enum Scores {
    Many,
    Three,
    // all trees are equal
    One,
}

// A score drawn from many.
fn of_many(random: &mut Random) -> Score {
    let coarse = i64::from(random.below(200));
    let fine = i64::from(random.below(200));
    Score::new(coarse * 5000 + fine * 25 - 500_000)
}

// A score drawn from three.
fn of_three(random: &mut Random) -> Score {
    Score::new(i64::from(random.below(3)) * 25)
}

// Puts every arc of forty words; just the loops are refused.
fn put_all(
    rt: &impl Abort,
    memory: &mut Memory<Score>,
    plain: &mut Plain<Score>,
    sheet: &Sheet<Score>,
    scores: Scores,
    random: &mut Random,
) {
    for dependent in 1..41 {
        for head in 0..41 {
            let weight = match scores {
                Scores::Many => of_many(random),
                Scores::Three => of_three(random),
                Scores::One => Score::new(0),
            };
            let told = memory.put(sheet, head, dependent, weight);
            assert_eq!(rt; told, plain.put(head, dependent, weight));
        }
    }
}

// Fills a part of the working space with records that differ from one another: what searches left there in another order, and new ones
// between.
fn litter_nodes(nodes: &mut [Node<Score>], random: &mut Random) {
    nodes.reverse();
    for node in nodes.iter_mut() {
        if random.below(2) == 0 {
            *node = Node::new(of_many(random));
        }
    }
}

// The same for the potentials.
fn litter_potentials(potentials: &mut [Root<Score>], random: &mut Random) {
    potentials.reverse();
    for potential in potentials.iter_mut() {
        if random.below(2) == 0 {
            *potential = Root::new(usize::from(random.below(2)), of_many(random));
        }
    }
}

// Makes fifty takes, and notes their trees; they have the right counts, and the next take is refused.
// Where it is told so, the working space is littered before each take.
fn take_fifty(
    rt: &impl Abort,
    heap: Global,
    memory: &mut Memory<Score>,
    ranking: &mut Ranking<Score>,
    littered: bool,
) -> Result<Vec<Tree>, Fail> {
    let mut random = Random { seed: 3 };
    let mut trees = Vec::new(heap);
    for count in 1..51 {
        if littered {
            litter_nodes(&mut memory.nodes, &mut random);
            litter_nodes(&mut memory.merges, &mut random);
            litter_potentials(&mut memory.potentials, &mut random);
        }
        let mut heads = [0; 40];
        let taken = memory.take(ranking, &mut heads)?;
        assert_eq!(rt; taken.count, count);
        trees.push(Tree {
            heads,
            weight: taken.weight,
        })?;
    }
    let more = memory.take(ranking, &mut [0; 40]);
    assert_eq!(rt; more.err(), Some(Refusal::Fifty));
    Ok(trees)
}

// Whether no weight outweighs the one before it.
fn never_rise(trees: &[Tree]) -> bool {
    trees.windows(2).all(|pair| match pair {
        [first, second] => second.weight.at_most(&first.weight),
        _ => false,
    })
}

// Whether no tree is there twice.
fn all_differ(trees: &[Tree]) -> bool {
    let mut places = trees.iter().enumerate();
    places.all(|(place, tree)| !has(trees.get(..place).unwrap_or(&[]), &tree.heads))
}

// Whether one of the trees has these heads.
fn has(trees: &[Tree], heads: &[u8; 40]) -> bool {
    trees.iter().any(|tree| tree.heads == *heads)
}

// Whether the heads are trees of the sheet with these weights.
fn weigh_so(plain: &Plain<Score>, trees: &[Tree]) -> bool {
    trees
        .iter()
        .all(|tree| plain.weigh(&tree.heads) == Some(tree.weight))
}

// Whether no tree outweighs this weight that has all heads but one of a noted tree, and is not noted.
fn none_beside(plain: &Plain<Score>, trees: &[Tree], noted: &Tree, last: &Score) -> bool {
    (0..40).all(|word| {
        (0..41).all(|head| {
            let mut heads = noted.heads;
            if let Some(place) = heads.get_mut(word) {
                *place = head;
            }
            let weight = plain.weigh(&heads);
            weight.is_none_or(|weight| weight.at_most(last) || has(trees, &heads))
        })
    })
}

// Whether no tree that is like a noted one but for a head outweighs the last noted one, unless it is noted.
fn none_left(plain: &Plain<Score>, trees: &[Tree]) -> bool {
    let last = trees.last();
    last.is_some_and(|last| {
        trees
            .iter()
            .all(|noted| none_beside(plain, trees, noted, &last.weight))
    })
}

// Fifty takes go as they should, and alike in a working space that is littered.
fn fifty(rt: &(impl Abort + AllocGlobal), scores: Scores, seed: u64) -> Result<(), Fail> {
    let mut memory = Memory::new(rt.alloc())?;
    let mut plain = Plain::new(rt.alloc())?;
    plain.reset(40);
    let sheet = memory.open(40)?;
    put_all(
        rt,
        &mut memory,
        &mut plain,
        &sheet,
        scores,
        &mut Random { seed },
    );
    let mut ranking = ranking::begin(sheet);
    let trees = take_fifty(rt, rt.alloc(), &mut memory, &mut ranking, false)?;
    let mut anew = ranking::begin(ranking::end(ranking));
    let same = take_fifty(rt, rt.alloc(), &mut memory, &mut anew, true)?;
    let trees = trees.as_slice();
    assert!(rt;
        trees
            .iter()
            .map(|tree| tree.heads)
            .eq(same.iter().map(|tree| tree.heads))
    );
    assert!(rt; all_differ(trees));
    assert!(rt; never_rise(trees));
    assert!(rt; weigh_so(&plain, trees));
    assert!(rt; weigh_so(&plain, same.as_slice()));
    assert!(rt; none_left(&plain, trees));
    Ok(())
}

#[test]
fn forty_words(rt: HostRuntime) -> Result<(), Fail> {
    for seed in 1..21 {
        fifty(&rt, Scores::Many, seed)?;
    }
    fifty(&rt, Scores::Three, 21)?;
    fifty(&rt, Scores::One, 22)
}
