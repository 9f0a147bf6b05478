// A waiting list that hands out its greatest element first: a binary heap in slots that the caller lends.
//
// The list is the first `len` of the slots, and the caller keeps the length: both are parts of larger memory of fixed size,
// and nothing is allocated. The element at k + 1 has its parent at k / 2, and in heap order no element outranks its
// parent. Nothing is asked of the slots: on any contents every call is safe, and moves elements only; where the list was in
// heap order, it still is, and the one handed out is a greatest one.
#![tactic(auto)]

ghost use Rattle.std.specs.Prelude.{◌≡◌, ℕ, ◌+◌, ◌-◌, ◌*◌, ◌<◌, ◌≤◌, Bool, false, ◌∷◌, length, take, MatchResult, IsOkAnd, slice_index_or};
ghost use Rattle.queue.specs.Calls.{Pushed, Popped, Dropped, PushRefused, PopRefused, DropRefused};
ghost use Rattle.queue.specs.Heap.{Ordered, Greatest, Least, Rising, Sinking, IsChild, Highest, Lowest};
ghost use Rattle.queue.specs.Runs.{CameOut, Emptied, RunRefused};
ghost use Rattle.std.specs.Cmp.{IsStrictWeakOrder};
ghost use Rattle.std.specs.List.Sorted.{IsPermutation};

/// A type whose values are ranked by a strict weak order. Of two different values it may be that neither outranks the other, which
/// `Ord` does not allow.
pub trait Ranked {
    // `above x y`: x outranks y.
    ghost above: { Self → Self → Bool };

    /// Whether this value outranks the other.
    fn outranks(&self, other: &Self) -> bool
        ensures { above self.now other.now ≡ result };

    // What each `impl` owes: of two values at most one outranks the other (`one_way`), and if x does not outrank y nor y
    // outrank z, then x does not outrank z (`chain`).
    ghost ranks: { IsStrictWeakOrder above };
}

/// Why a call changed nothing.
#[derive(Clone, Copy, PartialEq, Eq, Debug)]
pub enum Refused {
    /// every slot is taken
    Full,
    /// no element waits
    Empty,
    /// the length is greater than the number of slots
    BeyondSlots,
}

/// Puts x into the list, and gives the list's new length. In each public call the slots and the length are two arguments and
/// no struct, since the caller holds both as parts of larger memory of fixed size.
pub fn push<T: Ranked + Copy>(slots: &mut [T], len: usize, x: T) -> Result<usize, Refused>
    ensures { MatchResult result (λ n. Pushed T.above slots.old len x slots.new n) (λ e. PushRefused (length slots.old) len e × (slots.new ≡ slots.old)) }
{
    if slots.len() < len {
        return Err(Refused::BeyondSlots);
    }
    if slots.len() == len {
        return Err(Refused::Full);
    }
    insert(slots, len, x);
    Ok(len + 1)
}

/// Takes a greatest element out of the list, whose length is then `len - 1`.
pub fn pop<T: Ranked + Copy>(slots: &mut [T], len: usize) -> Result<T, Refused>
    ensures { MatchResult result (λ x. Popped T.above slots.old len slots.new x) (λ e. PopRefused (length slots.old) len e × (slots.new ≡ slots.old)) }
{
    if slots.len() < len {
        return Err(Refused::BeyondSlots);
    }
    if len == 0 {
        return Err(Refused::Empty);
    }
    Ok(take_first(&mut slots[..len]))
}

/// Puts x into the list and drops a least element of those and x, which it gives: the list stays as long as it was.
pub fn push_drop_least<T: Ranked + Copy>(slots: &mut [T], len: usize, x: T) -> Result<T, Refused>
    ensures { MatchResult result (λ y. Dropped T.above slots.old len x slots.new y) (λ e. DropRefused (length slots.old) len e × (slots.new ≡ slots.old)) }
{
    if slots.len() < len {
        return Err(Refused::BeyondSlots);
    }
    Ok(keep_higher(&mut slots[..len], x))
}

/// Pushes the given elements, in the order in which they stand, into an empty list, and pops them all into `out`:
/// whatever that order was, they come out falling.
pub fn rank<T: Ranked + Copy>(given: &[T], slots: &mut [T], out: &mut [T]) -> Result<(), Refused>
    ensures { MatchResult result (λ _. CameOut T.above given.now slots.old out.old slots.new out.new) (λ e. RunRefused (length given.now) (length slots.old) (length out.old) e × (slots.new ≡ slots.old) × (out.new ≡ out.old)) }
{
    let n = given.len();
    if slots.len() < n || out.len() < n {
        return Err(Refused::Full);
    }
    push_all(&mut slots[..n], given)?;
    pop_all(&mut slots[..n], out)?;
    Ok(())
}

// Pushes the given elements into an empty list, which they fill.
fn push_all<T: Ranked + Copy>(heap: &mut [T], given: &[T]) -> Result<(), Refused>
    requires { length heap.old ≡ length given.now }
    ensures { IsOkAnd result (λ _. IsPermutation given.now heap.new × Ordered T.above heap.new) }
{
    for (i, x) in given.iter().enumerate() {
        push(heap, i, *x)?;
    }
    Ok(())
}

// Pops every element of a full list into `out`.
fn pop_all<T: Ranked + Copy>(heap: &mut [T], out: &mut [T]) -> Result<(), Refused>
    requires { length heap.old ≤ length out.old }
    ensures { IsOkAnd result (λ _. Emptied T.above heap.old out.old heap.new out.new) }
{
    let n = heap.len();
    for (i, place) in out[..n].iter_mut().enumerate() {
        *place = pop(heap, n - i)?;
    }
    Ok(())
}

// Whether the element at i outranks the one at j.
fn outranks_at<T: Ranked>(heap: &[T], i: usize, j: usize) -> bool
    requires first { i < length heap.now }
    requires second { j < length heap.now }
    ensures { (d : T) → T.above (slice_index_or heap.now i d) (slice_index_or heap.now j d) ≡ result }
{
    heap[i].outranks(&heap[j])
}

// Puts x into the first slot behind the list, and moves it up to its place in heap order.
fn insert<T: Ranked + Copy>(slots: &mut [T], len: usize, x: T)
    requires { len < length slots.old }
    ensures { Pushed T.above slots.old len x slots.new (len + 1) }
{
    slots[len] = x;
    sift_up(&mut slots[..len + 1], len);
}

// Moves the element at i up, while it outranks its parent.
fn sift_up<T: Ranked>(heap: &mut [T], mut i: usize)
    requires { i < length heap.old }
    ensures shuffled { IsPermutation heap.old heap.new }
    ensures rises { Rising T.above heap.old i → Ordered T.above heap.new }
{
    while 0 < i {
        let parent = (i - 1) / 2;
        if !outranks_at(heap, i, parent) {
            return;
        }
        heap.swap(parent, i);
        i = parent;
    }
}

// The child of the element at i that the other child, if there is one, does not outrank.
fn higher_child<T: Ranked>(heap: &[T], i: usize) -> usize
    requires { i * 2 + 1 < length heap.now }
    ensures bound { result < length heap.now }
    ensures child { IsChild i result }
    ensures best { Highest T.above heap.now i result }
{
    let left = i * 2 + 1;
    let right = left + 1;
    if right < heap.len() && outranks_at(heap, right, left) {
        right
    } else {
        left
    }
}

// Moves the first element down, while a child outranks it.
fn sift_down<T: Ranked>(heap: &mut [T])
    ensures shuffled { IsPermutation heap.old heap.new }
    ensures sinks { Sinking T.above heap.old 0 → Ordered T.above heap.new }
{
    let mut i = 0;
    while i < heap.len() / 2 {
        let child = higher_child(heap, i);
        if !outranks_at(heap, child, i) {
            return;
        }
        heap.swap(i, child);
        i = child;
    }
}

// Takes the first element out, and leaves it in the last place, behind the others.
fn take_first<T: Ranked + Copy>(heap: &mut [T]) -> T
    requires { 0 < length heap.old }
    ensures same { IsPermutation heap.old (result ∷ take (length heap.old - 1) heap.new) }
    ensures left { (d : T) → slice_index_or heap.new (length heap.old - 1) d ≡ result }
    ensures ordered { Ordered T.above heap.old → Ordered T.above (take (length heap.old - 1) heap.new) }
    ensures greatest { Ordered T.above heap.old → Greatest T.above result heap.old }
{
    let first = heap[0];
    let last = heap.len() - 1;
    heap.swap(0, last);
    sift_down(&mut heap[..last]);
    first
}

// The place of an element that outranks no other.
fn lowest<T: Ranked>(list: &[T]) -> usize
    requires { 0 < length list.now }
    ensures bound { result < length list.now }
    ensures least { Lowest T.above list.now result (length list.now) }
{
    let mut best = 0;
    for (i, x) in list.iter().enumerate() {
        if list[best].outranks(x) {
            best = i;
        }
    }
    best
}

// Puts x in the place of a least element if x outranks it, and gives what is left over.
fn keep_higher<T: Ranked + Copy>(heap: &mut [T], x: T) -> T
    ensures same { IsPermutation (x ∷ heap.old) (result ∷ heap.new) }
    ensures ordered { Ordered T.above heap.old → Ordered T.above heap.new }
    ensures least { Least T.above result (x ∷ heap.old) }
{
    if heap.is_empty() {
        return x;
    }
    let i = lowest(heap);
    let y = heap[i];
    if !x.outranks(&y) {
        return x;
    }
    heap[i] = x;
    sift_up(heap, i);
    y
}
