// How many pairs of inputs a line takes that reads the first k: one of the numbers of pairs that stages are written out for.
ghost use Rattle.std.specs.Prelude.{◌≡◌, ◌≤◌};
ghost use Rattle.transform_pairs.specs.Pairs.{pairs_of};

pub fn pairs_of(k: usize) -> usize
    ensures { result ≡ pairs_of k }
{
    if k <= 2 {
        return 1;
    }
    if k <= 4 {
        return 2;
    }
    if k <= 8 {
        return 4;
    }
    if k <= 16 {
        return 8;
    }
    16
}
