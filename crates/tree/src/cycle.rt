// Cycles in a list of heads.
ghost use Rattle.std.specs.Prelude.{◌≡◌, None};
ghost use Rattle.tree.specs.Chains.{head_of};
ghost use Rattle.tree.specs.Trees.{CycleFree, FirstLies, OnCycleRuns, OneFirst, RootedIsCycleFree, ToldCycle};

// The head of a word; 0 for the root, and for a number above the last word.
fn head(heads: &[u8], word: u8) -> u8
    ensures { result ≡ head_of heads.now word }
{
    usize::from(word)
        .checked_sub(1)
        .and_then(|place| heads.get(place))
        .copied()
        .unwrap_or(0)
}

/// The first word that the chain of the least word running into a cycle meets a second time, the chain beginning with that word
/// itself: `[2, 1]` gives 1, and `[2, 3, 2]` gives 2. None where every chain comes to the root. Any byte may stand as a head.
/// (A `loop` and no `for`, since it is left with a value.)
pub fn find_cycle(heads: &[u8]) -> Option<usize>
    ensures told { ToldCycle heads.now result }
    ensures only { CycleFree heads.now → result ≡ None }
    ensures laws { (RootedIsCycleFree) × (OnCycleRuns) × (FirstLies) × (OneFirst) }
{
    let mut words = 1..heads.len() + 1;
    'words: loop {
        let Some(first) = words.next() else {
            break 'words None;
        };
        let mut seen = [false; 256];
        // no head names a word above 255
        if first < 256 {
            seen[first] = true;
        }
        let mut word = heads[first - 1];
        while word != 0 {
            let place = usize::from(word);
            if seen[place] {
                break 'words Some(place);
            }
            seen[place] = true;
            word = head(heads, word);
        }
    }
}
