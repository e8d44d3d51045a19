// Where a test of numbers holds: the first of them and the last, one by one, and the first by halving.
ghost use Rattle.std.specs.Prelude.{◌≤◌};
ghost use Rattle.engine.specs.Heap.WordLaws.{word_end};
ghost use Rattle.engine.specs.Heap.Bisect.{AsksIn, FirstOf, LastOf, TurnOf};

// The first number from `from` up to `to` at which the test holds; `to` if there is none.
pub(crate) fn first_in<F: Fn(usize) -> bool>(test: F, from: usize, to: usize) -> usize
    requires { AsksIn (F.pre test) from to }
    ensures { FirstOf (F.post test) from to result }
{
    for x in from..to {
        if test(x) {
            return x;
        }
    }
    to
}

// One past the last such number; `from` if there is none.
pub(crate) fn last_in<F: Fn(usize) -> bool>(test: F, from: usize, to: usize) -> usize
    requires { AsksIn (F.pre test) from to }
    ensures { LastOf (F.post test) from to result }
{
    for x in (from..to).rev() {
        if test(x) {
            return x + 1;
        }
    }
    from
}

// Where the test turns from failing to holding, by halving: it holds at the result, unless that is `to`, and fails just before, unless that is `from`.
// `partition_point` is a method of slices; here numbers are tested.
pub(crate) fn first_yes<F: Fn(usize) -> bool>(test: F, from: usize, to: usize) -> usize
    requires asks { AsksIn (F.pre test) from to }
    requires small { to ≤ word_end }
    ensures { TurnOf (F.post test) from to result }
{
    let mut a = from;
    let mut b = to;
    while a < b {
        let m = (a + b) / 2;
        if test(m) {
            b = m;
        } else {
            a = m + 1;
        }
    }
    a
}
